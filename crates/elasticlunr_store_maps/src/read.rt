//! Reading maps of texts and of lengths back from JSON values.
ghost use Rattle.std.specs.Prelude.{◌≡◌, IfOk, IfErr, IfSome, IsSomeAnd, Some, ◌≢◌};
ghost use Rattle.std.specs.Bool.{OnTrue, OnFalse};
ghost use Rattle.std.specs.FinMap.{FinMap, get, empty};
ghost use Rattle.elasticlunr_error.specs.Text.{Bytes, text_cmp};
ghost use Rattle.elasticlunr_json.specs.Refused.{IsRefused};
ghost use Rattle.elasticlunr_store_maps.specs.Contents.{TextMap, LengthMap, text_map, length_map};
ghost use Rattle.elasticlunr_store_maps.specs.Contents.{document_texts, document_lengths};
ghost use Rattle.elasticlunr_store_maps.specs.SmallLengths.{AreSmallLengths, HasSmallLengths};
ghost use Rattle.elasticlunr_json.specs.Maps.{keyed, count};
ghost use Rattle.serde_json.specs.Data.{string};
ghost use Rattle.serde_json.specs.View.{view};

use crate::put::{put_lengths, put_texts};
use elasticlunr_error::IndexError;
use serde_json::Value;
use std::alloc::Global;
use std::collections::BTreeMap;

// The texts that a value represents.
fn read_texts(alloc: Global, value: &Value) -> Result<BTreeMap<String, String>, IndexError>
    ensures ok { IfOk result (λ texts. view value.now ≡ keyed string (text_map texts.entries)) }
    ensures err { IfErr result (IsRefused ((m : TextMap) → view value.now ≢ keyed string m)) }
{
    let Some(members) = value.as_object() else {
        return Err(IndexError::ForeignValue);
    };
    let mut texts = BTreeMap::new(alloc);
    for (field, text) in members.iter() {
        let Some(text) = text.as_str() else {
            return Err(IndexError::ForeignValue);
        };
        texts.insert(field.clone()?, String::from_str(alloc, text)?)?;
    }
    Ok(texts)
}

/// The texts of documents that a value represents.
pub fn read_document_texts(
    alloc: Global,
    value: &Value,
) -> Result<BTreeMap<String, BTreeMap<String, String>>, IndexError>
    ensures ok { IfOk result (λ docs. view value.now
        ≡ keyed (keyed string) (document_texts docs.entries)) }
    ensures err { IfErr result (IsRefused ((m : FinMap text_cmp TextMap)
        → view value.now ≢ keyed (keyed string) m)) }
{
    let Some(members) = value.as_object() else {
        return Err(IndexError::ForeignValue);
    };
    let mut docs = BTreeMap::new(alloc);
    for (doc_ref, texts) in members.iter() {
        let texts = read_texts(alloc, texts)?;
        put_texts(alloc, &mut docs, doc_ref, texts)?;
    }
    Ok(docs)
}

// The lengths that a value represents.
fn read_lengths(alloc: Global, value: &Value) -> Result<BTreeMap<String, usize>, IndexError>
    ensures ok { IfOk result (λ lengths. view value.now ≡ keyed count (length_map lengths.entries)) }
    ensures small { IfOk result (λ lengths. AreSmallLengths (length_map lengths.entries)) }
    ensures err { IfErr result (IsRefused ((m : LengthMap) → view value.now ≢ keyed count m)) }
{
    let Some(members) = value.as_object() else {
        return Err(IndexError::ForeignValue);
    };
    let mut lengths = BTreeMap::new(alloc);
    for (field, length) in members.iter() {
        let Some(length) = length.as_u64() else {
            return Err(IndexError::ForeignValue);
        };
        lengths.insert(field.clone()?, length as usize)?;
    }
    Ok(lengths)
}

/// The lengths of documents that a value represents.
pub fn read_document_lengths(
    alloc: Global,
    value: &Value,
) -> Result<BTreeMap<String, BTreeMap<String, usize>>, IndexError>
    ensures ok { IfOk result (λ doc_info. view value.now
        ≡ keyed (keyed count) (document_lengths doc_info.entries)) }
    ensures small { IfOk result (λ doc_info. HasSmallLengths (document_lengths doc_info.entries)) }
    ensures err { IfErr result (IsRefused ((m : FinMap text_cmp LengthMap)
        → view value.now ≢ keyed (keyed count) m)) }
{
    let Some(members) = value.as_object() else {
        return Err(IndexError::ForeignValue);
    };
    let mut doc_info = BTreeMap::new(alloc);
    for (doc_ref, lengths) in members.iter() {
        let lengths = read_lengths(alloc, lengths)?;
        put_lengths(alloc, &mut doc_info, doc_ref, lengths)?;
    }
    Ok(doc_info)
}

/// Whether some reference has an empty map of lengths.
pub fn has_empty(doc_info: &BTreeMap<String, BTreeMap<String, usize>>) -> bool
    ensures yes { OnTrue result ((r : Bytes) × (get (document_lengths doc_info.now.entries) r
        ≡ Some empty)) }
    ensures no { OnFalse result ((r : Bytes) → get (document_lengths doc_info.now.entries) r ≢ Some
        empty) }
{
    for (_doc_ref, lengths) in doc_info.iter() {
        if lengths.is_empty() {
            return true;
        }
    }
    false
}

/// Whether some reference has a text.
pub fn has_text(docs: &BTreeMap<String, BTreeMap<String, String>>) -> bool
    ensures yes { OnTrue result ((r : Bytes)
        × IsSomeAnd (get (document_texts docs.now.entries) r) (λ texts. texts ≢ empty)) }
    ensures no { OnFalse result ((r : Bytes)
        → IfSome (get (document_texts docs.now.entries) r) (λ texts. texts ≡ empty)) }
{
    for (_doc_ref, texts) in docs.iter() {
        if !texts.is_empty() {
            return true;
        }
    }
    false
}
