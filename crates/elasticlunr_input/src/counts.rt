//! What an index holds, counted.
ghost use Rattle.std.specs.Prelude.{◌≡◌, IfOk};
ghost use Rattle.elasticlunr_text.specs.Text.{bytes_of};
ghost use Rattle.elasticlunr_input.specs.Counts.{AreCountsOf, has_token, without_token};

use elasticlunr::{Index, IndexError, Parts};
use elasticlunr_job::make::Make;
use elasticlunr_lang::AnyLanguage;
use elasticlunr_pieces::documents::references_of;
use elasticlunr_pieces::tokens::tokens_of;
use elasticlunr_store::DocumentStore;
use std::alloc::{AllocError, Global};

/// What an index holds.
#[derive(Drop)]
pub(crate) struct Counts {
    /// How many documents it has.
    pub documents: usize,
    /// How many tokens have a posting; one that several fields have counts once.
    pub tokens: usize,
    /// The references of the documents that have no token, in the order of their bytes.
    pub without_token: Vec<String>,
}

/// Counts what an index holds, and has a maker make something of it.
#[derive(Clone, Copy)]
pub(crate) struct Counted<'m, M> {
    pub alloc: Global,
    pub maker: &'m M,
}

impl<M: Make> Make for Counted<'_, M> {
    ghost use Rattle.elasticlunr_input.specs.Counts.{AreCounts};

    type Made = (M::Made, Counts);

    ghost makes = { λ counted made pretty plan commands.
        M.makes counted.maker.now made.0 pretty plan commands
        × AreCounts plan commands made.1 };

    fn make(
        &self,
        index: &Index<AnyLanguage>,
        pretty: bool,
    ) -> Result<(M::Made, Counts), IndexError> {
        let names = index.names()?;
        let counts = counts_of(self.alloc, &index.parts(&names)?)?;
        let made = self.maker.make(index, pretty)?;
        Ok((made, counts))
    }
}

/// Counts what stands in the parts of an index. It takes a copy of each token for a while.
fn counts_of(alloc: Global, parts: &Parts<'_>) -> Result<Counts, AllocError>
    ensures counts { IfOk result (λ counts. AreCountsOf parts.now.tries.now parts.now.store.now
        counts.documents counts.tokens) }
    ensures without_token { IfOk result (λ counts. bytes_of counts.without_token.items
        ≡ without_token (bytes_of parts.now.fields.now) parts.now.store.now) }
{
    Ok(Counts {
        documents: parts.store.len(),
        tokens: tokens_of(alloc, parts.tries)?.len(),
        without_token: without_token(alloc, parts.fields, parts.store)?,
    })
}

/// The references of the documents that have no token in these fields.
fn without_token(
    alloc: Global,
    fields: &[String],
    store: &DocumentStore,
) -> Result<Vec<String>, AllocError>
    ensures { IfOk result (λ found. bytes_of found.items
        ≡ without_token (bytes_of fields.now) store.now) }
{
    let mut found = Vec::new(alloc);
    for reference in references_of(alloc, store)? {
        if !has_token(fields, store, reference) {
            found.push(String::from_str(alloc, reference)?)?;
        }
    }
    Ok(found)
}

/// Whether a document has a token in one of these fields.
fn has_token(fields: &[String], store: &DocumentStore, reference: &str) -> bool
    ensures { result ≡ has_token (bytes_of fields.now) store.now reference.now }
{
    fields.iter().any(|field| store.get_field_length(reference, field.as_str()) > 0)
}
