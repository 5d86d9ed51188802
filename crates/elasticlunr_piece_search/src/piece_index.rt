//! An index of the pieces that a query needs.
ghost use Rattle.std.specs.Prelude.{◌≡◌, ◌+◌, List, Some, IfErr, IfOk, IsTrue, OnOk, length};
ghost use Rattle.std.specs.Prelude.{slice_get};
ghost use Rattle.std.specs.Prelude.{option_map, replicate, string_bytes, vec_len, true, false};
ghost use Rattle.elasticlunr_error.specs.Text.{bytes_of};
ghost use Rattle.elasticlunr_print.specs.Printed.{IsTextOf};
ghost use Rattle.elasticlunr_commands.specs.Fields.{all_differ as differ};
ghost use Rattle.elasticlunr_store.specs.Contents.{TextMap, new_contents};
ghost use Rattle.elasticlunr_trie.specs.Table.{new_table};
ghost use Rattle.elasticlunr_piece_search.specs.Documents.{head_contents};
ghost use Rattle.elasticlunr_piece_search.specs.Entries.{AreEntriesAdded, Entry, tokens_in};
ghost use Rattle.elasticlunr_piece_search.specs.Pieces.{AreTokensAt, IsNotRead, IsTokensFault};
ghost use Rattle.elasticlunr_piece_search.specs.Pieces.{IsTokensPiece};
ghost use Rattle.elasticlunr_piece_search.specs.Faults.{IsOther};
ghost use Rattle.elasticlunr_piece_search.specs.Plan.{AreFields, plan_of};
ghost use Rattle.elasticlunr_piece_search.specs.Texts.{IsTextsFault, IsTextsPiece, references_at};
ghost use Rattle.elasticlunr_piece_search.specs.Texts.{reference_name as name_of_references};
ghost use Rattle.elasticlunr_piece_search.specs.Texts.{with_texts};
ghost use Rattle.serde_json.specs.Read.{read};
ghost use Rattle.serde_json.specs.View.{view};
ghost use Rattle.serde_json.specs.Written.{compact_text};

use crate::documents::documents_of;
use crate::fault::PieceFault;
use crate::names::{all_differ, is_among};
use crate::postings::{add_entries, has_tokens_of};
use crate::texts::add_documents;
use elasticlunr_piece_head::PieceHead;
use elasticlunr_print::{Parts, index_json};
use elasticlunr_store::DocumentStore;
use elasticlunr_trie::InvertedIndex;
use serde_json::{Map, Value};
use std::alloc::{AllocError, Global};

/// What the head of an index and some of its pieces say: all documents with their lengths, the
/// postings of the tokens of these pieces, and the texts of their documents.
#[derive(Drop)]
pub struct PieceIndex<'h> {
    alloc: Global,
    head: &'h PieceHead,
    tries: Vec<InvertedIndex>,
    store: DocumentStore,
}

impl<'h> PieceIndex<'h> {
    /// The index of a head without a piece.
    pub fn new(alloc: Global, head: &'h PieceHead) -> Result<PieceIndex<'h>, AllocError>
        ensures tables { IfOk result (λ index. index.tries.items
            ≡ replicate (vec_len head.now.fields) new_table) }
        ensures store { IfOk result (λ index. index.store ≡ head_contents head.now) }
        ensures head { IfOk result (λ index. index.head.now ≡ head.now) }
    {
        Ok(PieceIndex {
            alloc,
            head,
            tries: empty_tries(alloc, head.fields.len())?,
            store: documents_of(alloc, head)?,
        })
    }

    /// Adds the piece of the tries with this number and this text. After an error some of its
    /// postings may be there.
    pub fn add_tokens(&mut self, number: usize, text: &str) -> Result<(), PieceFault>
        ensures added { OnOk result ((entries : List Entry)
            × IsTokensPiece self.old.head.now (vec_len self.old.tries) number text.now entries
            × AreEntriesAdded (bytes_of self.old.head.now.references.items) entries
            self.old.tries.items self.new.tries.items) }
        ensures fault { IfErr result (IsTokensFault self.old.head.now (vec_len self.old.tries)
            number text.now) }
        ensures many { vec_len self.new.tries ≡ vec_len self.old.tries }
        ensures store { self.new.store ≡ self.old.store }
        ensures head { self.new.head ≡ self.old.head }
    {
        let head = self.head;
        let value = value_of(self.alloc, text, head.size_of_tries(number))?;
        let Some(piece) = value.as_object() else {
            return Err(PieceFault::Other);
        };
        if !is_at(head, number, piece) {
            return Err(PieceFault::Other);
        }
        add_entries(&mut self.tries, &head.references, piece)
    }

    /// Adds the piece of the texts with this number and this text. After an error some of its
    /// documents may be there.
    pub fn add_texts(&mut self, number: usize, text: &str) -> Result<(), PieceFault>
        ensures added { OnOk result ((documents : List TextMap)
            × IsTextsPiece self.old.head.now number text.now documents
            × (self.new.store ≡ with_texts self.old.store (references_at self.old.head.now number)
            documents)) }
        ensures fault { IfErr result (IsTextsFault self.old.head.now number text.now) }
        ensures size { OnOk result (slice_get self.old.head.now.sizes.items
            (vec_len self.old.head.now.tries + number) ≡ Some (length text.now)) }
        ensures tries { self.new.tries ≡ self.old.tries }
        ensures head { self.new.head ≡ self.old.head }
    {
        let head = self.head;
        let documents = value_of(self.alloc, text, head.size_of_texts(number))?;
        let Some(references) = head.references_in(number) else {
            return Err(PieceFault::Other);
        };
        add_documents(
            self.alloc,
            &mut self.store,
            references,
            &documents,
            reference_name(head),
        )
    }

    /// The printed text of what is there, as an index, which `read_named` of `elasticlunr_search`
    /// reads.
    pub fn text(&self) -> Result<String, PieceFault>
        ensures text { IfOk result (λ text. IsTextOf compact_text
            (plan_of self.now.head.now self.now.store) self.now.tries.items self.now.store
            (string_bytes text)) }
        ensures fault { IfErr result (IsOther (¬ AreFields (bytes_of self.now.head.now.fields.items)
            self.now.tries.items)) }
    {
        text_of(self.alloc, self.head, &self.tries, &self.store)
    }
}

/// The printed text of an index with the settings of a head, and no document. A searcher of it
/// answers with the tokens of a query.
pub fn empty_text(alloc: Global, head: &PieceHead) -> Result<String, PieceFault>
    ensures text { IfOk result (λ text. IsTextOf compact_text
        (plan_of head.now (new_contents head.now.save))
        (replicate (vec_len head.now.fields) new_table) (new_contents head.now.save)
        (string_bytes text)) }
    ensures fault { IfErr result (IsOther (¬ IsTrue (differ (bytes_of head.now.fields.items)))) }
{
    let tries = empty_tries(alloc, head.fields.len())?;
    let store = DocumentStore::new(alloc, head.save);
    let text = text_of(alloc, head, &tries, &store)?;
    Ok(text)
}

/// The printed text of an index with these tries and these documents.
fn text_of(
    alloc: Global,
    head: &PieceHead,
    tries: &[InvertedIndex],
    store: &DocumentStore,
) -> Result<String, PieceFault>
    ensures text { IfOk result (λ text. IsTextOf compact_text (plan_of head.now store.now) tries.now
        store.now (string_bytes text)) }
    ensures fault { IfErr result (IsOther (¬ AreFields (bytes_of head.now.fields.items) tries.now)) }
{
    if tries.len() != head.fields.len() || !all_differ(&head.fields) {
        return Err(PieceFault::Other);
    }
    let parts = Parts {
        fields: &head.fields,
        ref_field: head.ref_field.as_str(),
        language: head.language.as_str(),
        stages: &head.stages,
        tries,
        store,
    };
    match index_json(alloc, parts) {
        Ok(text) => Ok(text),
        Err(_) => Err(PieceFault::Memory),
    }
}

/// The name of the reference field. A field of this name has its own text there.
fn reference_name(head: &PieceHead) -> Option<&str>
    ensures { option_map (λ name. name.now) result ≡ name_of_references head.now }
{
    if is_among(&head.fields, head.ref_field.as_str()) {
        None
    } else {
        Some(head.ref_field.as_str())
    }
}

/// Whether a piece has the tokens of the piece of the tries with this number.
fn is_at(head: &PieceHead, number: usize, piece: &Map<String, Value>) -> bool
    ensures yes { result ≡ true → AreTokensAt head.now number (tokens_in piece.now.entries) }
    ensures no { result ≡ false → AreTokensAt head.now number (tokens_in piece.now.entries) → ⊥ }
{
    let Some(first) = first_of(head, number) else {
        return false;
    };
    has_tokens_of(piece, first, first_of(head, number.saturating_add(1)))
}

/// The first token of the piece of the tries with this number.
fn first_of(head: &PieceHead, number: usize) -> Option<&str>
    ensures { option_map (λ token. token.now) result
        ≡ slice_get (bytes_of head.now.tries.items) number }
{
    match head.tries.get(number) {
        Some(token) => Some(token.as_str()),
        None => None,
    }
}

/// So many tries without a token.
fn empty_tries(alloc: Global, count: usize) -> Result<Vec<InvertedIndex>, AllocError>
    ensures { IfOk result (λ tries. tries.items ≡ replicate count new_table) }
{
    let mut tries = Vec::with_capacity(alloc, count)?;
    for _ in 0..count {
        tries.push(InvertedIndex::new(alloc))?;
    }
    Ok(tries)
}

/// The JSON value of a piece that has so many bytes.
fn value_of(alloc: Global, text: &str, size: Option<usize>) -> Result<Value, PieceFault>
    ensures size { OnOk result (size ≡ Some (length text.now)) }
    ensures value { IfOk result (λ value. read text.now ≡ Some (view value)) }
    ensures fault { IfErr result (IsNotRead size text.now) }
{
    let Some(size) = size else {
        return Err(PieceFault::Other);
    };
    if text.len() != size {
        return Err(PieceFault::Size(size));
    }
    match Value::from_str(alloc, text) {
        Ok(value) => Ok(value),
        Err(e) if e.is_memory() => Err(PieceFault::Memory),
        Err(_) => Err(PieceFault::NotRead),
    }
}
