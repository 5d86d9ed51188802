//! The references of a store's documents, and the documents.
ghost use Rattle.std.specs.Prelude.{◌≡◌, map, IfOk};
ghost use Rattle.std.specs.FinMap.{entries};
ghost use Rattle.std.specs.List.Sorted.{IsStrictlySortedBy};
ghost use Rattle.elasticlunr_error.specs.Text.{text_cmp};
ghost use Rattle.elasticlunr_pieces.specs.Entries.{kept_documents, references};
ghost use Rattle.elasticlunr_pieces.specs.Numbers.{told_documents, told_texts};

use elasticlunr_store::DocumentStore;
use std::alloc::{AllocError, Global};
use std::collections::BTreeMap;

/// The references of the documents, in the order of their bytes.
pub fn references_of<'a>(
    alloc: Global,
    store: &'a DocumentStore,
) -> Result<Vec<&'a str>, AllocError>
    ensures texts { IfOk result (λ names. told_texts names.items ≡ references store.now) }
    ensures order { IfOk result (λ _. IsStrictlySortedBy text_cmp (references store.now)) }
{
    let docs = store.docs();
    let mut names = Vec::with_capacity(alloc, docs.len())?;
    for (reference, _) in docs.iter() {
        names.push(reference.as_str())?;
    }
    Ok(names)
}

/// The documents whose texts are kept, in the order of their references.
pub(crate) fn documents_of<'a>(
    alloc: Global,
    store: &'a DocumentStore,
) -> Result<Vec<&'a BTreeMap<String, String>>, AllocError>
    ensures { IfOk result (λ documents. told_documents documents.items
        ≡ kept_documents store.now) }
{
    if store.is_stored() {
        all_documents(alloc, store)
    } else {
        Ok(Vec::new(alloc))
    }
}

// All documents, in the order of their references.
fn all_documents<'a>(
    alloc: Global,
    store: &'a DocumentStore,
) -> Result<Vec<&'a BTreeMap<String, String>>, AllocError>
    ensures { IfOk result (λ documents. told_documents documents.items
        ≡ map (λ e. e.1) (entries store.now.texts)) }
{
    let docs = store.docs();
    let mut documents = Vec::with_capacity(alloc, docs.len())?;
    for (_, document) in docs.iter() {
        documents.push(document)?;
    }
    Ok(documents)
}
