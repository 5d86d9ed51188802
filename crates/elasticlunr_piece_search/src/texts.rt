//! The pieces of the texts: stored documents.
ghost use Rattle.std.specs.Prelude.{◌≡◌, ◌≢◌, Decides, List, IfErr, IfOk, OnOk, length, option_map};
ghost use Rattle.std.specs.Prelude.{string_bytes};
ghost use Rattle.std.specs.List.{AllZip};
ghost use Rattle.elasticlunr_error.specs.Text.{bytes_of};
ghost use Rattle.elasticlunr_json.specs.Maps.{keyed};
ghost use Rattle.elasticlunr_piece_head.specs.Values.{array_of, items_of};
ghost use Rattle.elasticlunr_piece_search.specs.Faults.{IsOther};
ghost use Rattle.elasticlunr_piece_search.specs.Texts.{HasReference, with_texts};
ghost use Rattle.elasticlunr_store.specs.Contents.{TextMap, text_map, with_document};
ghost use Rattle.serde_json.specs.Data.{string};
ghost use Rattle.serde_json.specs.View.{items_view, view};

use crate::fault::PieceFault;
use elasticlunr_store::DocumentStore;
use serde_json::Value;
use std::alloc::Global;
use std::collections::BTreeMap;

/// Puts the texts of documents into a store, under their references. Where a name is given, each
/// document has its reference under it.
pub(crate) fn add_documents(
    alloc: Global,
    store: &mut DocumentStore,
    references: &[String],
    documents: &Value,
    name: Option<&str>,
) -> Result<(), PieceFault>
    ensures added { OnOk result ((texts : List TextMap)
        × (view documents.now ≡ array_of (keyed string) texts)
        × AllZip (HasReference (option_map (λ n. n.now) name.entry)) (bytes_of references.now) texts
        × (store.new ≡ with_texts store.old (bytes_of references.now) texts)) }
    ensures err { IfErr result (IsOther ((texts : List TextMap)
        → view documents.now ≡ array_of (keyed string) texts
        → AllZip (HasReference (option_map (λ n. n.now) name.entry)) (bytes_of references.now) texts
        → ⊥)) }
{
    let Some(documents) = documents.as_array() else {
        return Err(PieceFault::Other);
    };
    if documents.len() != references.len() {
        return Err(PieceFault::Other);
    }
    add_each(alloc, store, references, documents, name)
}

/// Puts as many documents into a store as there are references.
fn add_each(
    alloc: Global,
    store: &mut DocumentStore,
    references: &[String],
    documents: &[Value],
    name: Option<&str>,
) -> Result<(), PieceFault>
    requires { length documents.now ≡ length references.now }
    ensures added { OnOk result ((texts : List TextMap)
        × (items_view documents.now ≡ items_of (keyed string) texts)
        × AllZip (HasReference (option_map (λ n. n.now) name.entry)) (bytes_of references.now) texts
        × (store.new ≡ with_texts store.old (bytes_of references.now) texts)) }
    ensures err { IfErr result (IsOther ((texts : List TextMap)
        → items_view documents.now ≡ items_of (keyed string) texts
        → AllZip (HasReference (option_map (λ n. n.now) name.entry)) (bytes_of references.now) texts
        → ⊥)) }
{
    for place in 0..references.len() {
        add_document(alloc, store, &references[place], &documents[place], name)?;
    }
    Ok(())
}

/// Puts the texts of a document into a store, under its reference.
fn add_document(
    alloc: Global,
    store: &mut DocumentStore,
    reference: &String,
    document: &Value,
    name: Option<&str>,
) -> Result<(), PieceFault>
    ensures added { OnOk result ((texts : TextMap) × (view document.now ≡ keyed string texts)
        × HasReference (option_map (λ n. n.now) name.entry) (string_bytes reference.now) texts
        × (store.new ≡ with_document store.old (string_bytes reference.now) texts)) }
    ensures err { IfErr result (IsOther ((texts : TextMap) → view document.now ≡ keyed string texts
        → HasReference (option_map (λ n. n.now) name.entry) (string_bytes reference.now) texts
        → ⊥)) }
{
    let texts = texts_of(alloc, document)?;
    if !is_of(&texts, name, reference) {
        return Err(PieceFault::Other);
    }
    match store.add_doc(reference.as_str(), texts) {
        Ok(()) => Ok(()),
        Err(_) => Err(PieceFault::Memory),
    }
}

/// Whether a document has this reference under a name, where one is given.
fn is_of(texts: &BTreeMap<String, String>, name: Option<&str>, reference: &String) -> bool
    ensures { Decides result (HasReference (option_map (λ n. n.now) name.entry)
        (string_bytes reference.now) (text_map texts.now.entries)) }
{
    let Some(name) = name else {
        return true;
    };
    match texts.get(name) {
        Some(text) => text.as_str() == reference.as_str(),
        None => false,
    }
}

/// The texts of a document.
fn texts_of(alloc: Global, document: &Value) -> Result<BTreeMap<String, String>, PieceFault>
    ensures ok { IfOk result (λ texts. view document.now ≡ keyed string (text_map texts.entries)) }
    ensures err { IfErr result (IsOther ((texts : TextMap) → view document.now ≢ keyed string
        texts)) }
{
    let Some(members) = document.as_object() else {
        return Err(PieceFault::Other);
    };
    let mut texts = BTreeMap::new(alloc);
    for (field, text) in members.iter() {
        let Some(text) = text.as_str() else {
            return Err(PieceFault::Other);
        };
        let text = String::from_str(alloc, text)?;
        texts.insert(field.clone()?, text)?;
    }
    Ok(texts)
}
