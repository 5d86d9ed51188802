//! The titles of documents, and the entries of their pieces.
ghost use Rattle.std.specs.Prelude.{◌≡◌, if◌then◌else◌, [], map, string_bytes, IfOk};
ghost use Rattle.elasticlunr_error.specs.Text.{is_listed};
ghost use Rattle.elasticlunr_pieces.specs.Entries.{title_of};
ghost use Rattle.elasticlunr_pieces.specs.Numbers.{told_documents, told_texts};
ghost use Rattle.elasticlunr_store.specs.Contents.{text_map};

use crate::cut::Entries;
use elasticlunr_json::{CompactText, Token, Tokens};
use std::alloc::{AllocError, Global};
use std::collections::BTreeMap;

/// The titles of documents: their texts in a field, none where there is no such field.
pub(crate) fn titles_of<'a>(
    alloc: Global,
    fields: &[String],
    field: &str,
    documents: &[&'a BTreeMap<String, String>],
) -> Result<Vec<&'a str>, AllocError>
    ensures { IfOk result (λ titles. told_texts titles.items
        ≡ (if is_listed field.now (map string_bytes fields.now)
        then map (title_of field.now) (told_documents documents.now) else [])) }
{
    if !is_listed(fields, field) {
        return Ok(Vec::new(alloc));
    }
    all_titles(alloc, field, documents)
}

// The titles of documents.
fn all_titles<'a>(
    alloc: Global,
    field: &str,
    documents: &[&'a BTreeMap<String, String>],
) -> Result<Vec<&'a str>, AllocError>
    ensures { IfOk result (λ titles. told_texts titles.items
        ≡ map (title_of field.now) (told_documents documents.now)) }
{
    let mut titles = Vec::with_capacity(alloc, documents.len())?;
    for document in documents {
        titles.push(title_of(*document, field))?;
    }
    Ok(titles)
}

// The title of a document.
fn title_of<'a>(document: &'a BTreeMap<String, String>, field: &str) -> &'a str
    ensures { result.now ≡ title_of field.now (text_map document.now.entries) }
{
    match document.get(field) {
        Some(text) => text.as_str(),
        None => "",
    }
}

fn is_listed(names: &[String], name: &str) -> bool
    ensures { result ≡ is_listed name.now (map string_bytes names.now) }
{
    for other in names {
        if name == other.as_str() {
            return true;
        }
    }
    false
}

/// The titles of documents.
#[derive(Drop)]
pub(crate) struct TitleEntries<'a, 'b> {
    pub(crate) alloc: Global,
    pub(crate) titles: &'b [&'a str],
}

impl Entries for TitleEntries<'_, '_> {
    ghost use Rattle.elasticlunr_pieces.specs.EntryTexts.{title_texts};
    ghost use Rattle.elasticlunr_pieces.specs.Numbers.{told_texts};

    ghost texts = { λ e. title_texts (told_texts e.titles.now) };

    fn count(&self) -> usize {
        self.titles.len()
    }

    fn text(&self, at: usize) -> Result<String, AllocError> {
        let mut out = CompactText::new(self.alloc)?;
        out.token(Token::String(self.titles[at]))?;
        Ok(out.into_string())
    }
}
