//! The JSON values of maps of texts and of lengths, and the object that a document store makes of
//! them.
ghost use Rattle.std.specs.Prelude.{◌≡◌, IfOk};
ghost use Rattle.elasticlunr_store_maps.specs.Contents.{store_object, text_map, length_map};
ghost use Rattle.elasticlunr_store_maps.specs.Contents.{document_texts, document_lengths};
ghost use Rattle.elasticlunr_json.specs.Maps.{keyed, count};
ghost use Rattle.serde_json.specs.Data.{string};
ghost use Rattle.serde_json.specs.View.{view};

use elasticlunr_json::set_member;
use serde_json::{Map, Value};
use std::alloc::{AllocError, Global};
use std::collections::BTreeMap;

// The value of a map of texts.
fn texts_value(alloc: Global, texts: &BTreeMap<String, String>) -> Result<Value, AllocError>
    ensures { IfOk result (λ v. view v ≡ keyed string (text_map texts.now.entries)) }
{
    let mut members = Map::new(alloc);
    for (field, text) in texts.iter() {
        set_member(alloc, &mut members, field, Value::String(text.clone()?))?;
    }
    Ok(Value::Object(members))
}

/// The value of the texts of documents.
pub fn document_texts_value(
    alloc: Global,
    docs: &BTreeMap<String, BTreeMap<String, String>>,
) -> Result<Value, AllocError>
    ensures { IfOk result (λ v. view v ≡ keyed (keyed string) (document_texts docs.now.entries)) }
{
    let mut members = Map::new(alloc);
    for (doc_ref, texts) in docs.iter() {
        set_member(alloc, &mut members, doc_ref, texts_value(alloc, texts)?)?;
    }
    Ok(Value::Object(members))
}

// The value of a map of lengths.
fn lengths_value(alloc: Global, lengths: &BTreeMap<String, usize>) -> Result<Value, AllocError>
    ensures { IfOk result (λ v. view v ≡ keyed count (length_map lengths.now.entries)) }
{
    let mut members = Map::new(alloc);
    for (field, length) in lengths.iter() {
        set_member(alloc, &mut members, field, Value::from(*length))?;
    }
    Ok(Value::Object(members))
}

/// The value of the lengths of documents.
pub fn document_lengths_value(
    alloc: Global,
    doc_info: &BTreeMap<String, BTreeMap<String, usize>>,
) -> Result<Value, AllocError>
    ensures { IfOk result (λ v. view v
        ≡ keyed (keyed count) (document_lengths doc_info.now.entries)) }
{
    let mut members = Map::new(alloc);
    for (doc_ref, lengths) in doc_info.iter() {
        set_member(alloc, &mut members, doc_ref, lengths_value(alloc, lengths)?)?;
    }
    Ok(Value::Object(members))
}

/// The object of the four parts of a store.
pub fn store_value(
    alloc: Global,
    save: bool,
    docs: Value,
    doc_info: Value,
    length: usize,
) -> Result<Value, AllocError>
    ensures { IfOk result (λ v. view v ≡ store_object save (view docs) (view doc_info) length) }
{
    let mut members = Map::new(alloc);
    set_member(alloc, &mut members, "save", Value::Bool(save))?;
    set_member(alloc, &mut members, "docs", docs)?;
    set_member(alloc, &mut members, "docInfo", doc_info)?;
    set_member(alloc, &mut members, "length", Value::from(length))?;
    Ok(Value::Object(members))
}
