//! The parts of a printed index, out of its value.
ghost use Rattle.std.specs.Prelude.{◌≡◌, ◌≢◌, ◌↔◌, List, IsTrue, Some, None, IfOk, IfErr, IfSome};
ghost use Rattle.std.specs.Prelude.{IsNone};
ghost use Rattle.elasticlunr_text.specs.Text.{Bytes, bytes_of};
ghost use Rattle.elasticlunr_trie.specs.Table.{Table, IsTable};
ghost use Rattle.elasticlunr_trie.specs.Tree.{IsTrieValue};
ghost use Rattle.elasticlunr_store.specs.Contents.{Contents, IsConsistent};
ghost use Rattle.elasticlunr.specs.Printed.{texts};
ghost use Rattle.elasticlunr.specs.Shape.{HasFields, HasLanguage, HasStore};
ghost use Rattle.elasticlunr_search.specs.Fields.{HasStages, HasWholeTrie, HasWholeTries};
ghost use Rattle.elasticlunr_search.specs.Refusal.{IsUnread, NamesOther, StopsBy};
ghost use Rattle.elasticlunr_search.specs.Whole.{with_ones};
ghost use Rattle.elasticlunr_search.specs.declared.error.SearchError.TheVariants.{BadFields};
ghost use Rattle.elasticlunr_search.specs.declared.error.SearchError.TheVariants.{BadTries};
ghost use Rattle.elasticlunr_search.specs.declared.error.SearchError.TheVariants.{BadStore};
ghost use Rattle.serde_json.specs.Data.{array};
ghost use Rattle.serde_json.specs.Read.{read};
ghost use Rattle.serde_json.specs.View.{view};

use crate::error::SearchError;
use crate::levels::nests_deeper;
use crate::rounding::round;
use elasticlunr_store::DocumentStore;
use elasticlunr_text::IndexError;
use elasticlunr_trie::InvertedIndex;
use serde_json::Value;
use std::alloc::{AllocError, Global};

/// The JSON value that the text is.
pub(crate) fn value_of(alloc: Global, text: &str) -> Result<Value, SearchError>
    ensures ok { IfOk result (λ value. read text.now ≡ Some (view value)) }
    ensures err { IfErr result (IsUnread text.now) }
{
    match Value::from_str(alloc, text) {
        Ok(value) => Ok(value),
        Err(e) if e.is_memory() => Err(SearchError::Memory),
        Err(_) => Err(unread(alloc, text)),
    }
}

/// Why `serde_json` does not read a text.
fn unread(alloc: Global, text: &str) -> SearchError
    requires { read text.now ≡ None }
    ensures { IsUnread text.now result }
{
    match nests_deeper(alloc, text) {
        Ok(true) => SearchError::TooDeep,
        Ok(false) => SearchError::NotRead,
        Err(_) => SearchError::Memory,
    }
}

/// Whether the value names another language than this.
pub(crate) fn names_other(language: &str, value: &Value) -> bool
    ensures { IsTrue result ↔ NamesOther language.now (view value.now) }
{
    match language_of(value) {
        Some(name) => name != language,
        None => false,
    }
}

/// The name of the language that the value names, if it names one.
pub(crate) fn language_of(value: &Value) -> Option<&str>
    ensures named { IfSome result (λ name. HasLanguage (view value.now) name.now) }
    ensures none { IsNone result → (name : Bytes) → ¬ HasLanguage (view value.now) name }
{
    value.get("lang")?.as_str()
}

/// Whether these are the names of stages under `pipeline`, in order.
pub(crate) fn has_stages(
    alloc: Global,
    stages: &[String],
    value: &Value,
) -> Result<bool, AllocError>
    ensures { IfOk result (λ has. IsTrue has ↔ HasStages (view value.now) (bytes_of stages.now)) }
{
    let Some(pipeline) = value.get("pipeline") else {
        return Ok(false);
    };
    match names_of(alloc, pipeline) {
        Ok(names) => Ok(are_same(&names, stages)),
        Err(SearchError::Memory) => Err(AllocError),
        Err(_) => Ok(false),
    }
}

/// Whether the one names are the others, in order.
pub(crate) fn are_same(names: &[String], others: &[String]) -> bool
    ensures { IsTrue result ↔ (bytes_of names.now ≡ bytes_of others.now) }
{
    names == others
}

/// The names of the fields, in order.
pub(crate) fn fields_of(alloc: Global, value: &Value) -> Result<Vec<String>, SearchError>
    ensures ok { IfOk result (λ names. HasFields (view value.now) (bytes_of names.items)) }
    ensures err { IfErr result (StopsBy BadFields ((names : List Bytes)
        → ¬ HasFields (view value.now) names)) }
{
    match value.get("fields") {
        Some(fields) => names_of(alloc, fields),
        None => Err(SearchError::BadFields),
    }
}

/// The names in an array of names.
fn names_of(alloc: Global, value: &Value) -> Result<Vec<String>, SearchError>
    ensures ok { IfOk result (λ names. view value.now ≡ array (texts (bytes_of names.items))) }
    ensures err { IfErr result (StopsBy BadFields ((names : List Bytes)
        → view value.now ≢ array (texts names))) }
{
    let Some(items) = value.as_array() else {
        return Err(SearchError::BadFields);
    };
    let mut names = Vec::new(alloc);
    for item in items {
        let Some(name) = item.as_str() else {
            return Err(SearchError::BadFields);
        };
        names.push(String::from_str(alloc, name)?)?;
    }
    Ok(names)
}

/// The tries of the fields of these names, in order.
pub(crate) fn tries_of(
    alloc: Global,
    names: &[String],
    value: &Value,
) -> Result<Vec<InvertedIndex>, SearchError>
    ensures ok { IfOk result (λ tries. HasWholeTries (view value.now) (bytes_of names.now)
        tries.items) }
    ensures err { IfErr result (StopsBy BadTries ((tables : List Table)
        → ¬ HasWholeTries (view value.now) (bytes_of names.now) tables)) }
{
    let Some(index) = value.get("index") else {
        return Err(SearchError::BadTries);
    };
    let mut tries = Vec::new(alloc);
    for name in names {
        tries.push(trie_of(alloc, name.as_str(), index)?)?;
    }
    Ok(tries)
}

/// The trie under a name.
fn trie_of(alloc: Global, name: &str, index: &Value) -> Result<InvertedIndex, SearchError>
    ensures ok { IfOk result (HasWholeTrie (view index.now) name.now) }
    ensures err { IfErr result (StopsBy BadTries ((table : Table)
        → ¬ HasWholeTrie (view index.now) name.now table)) }
{
    let Some(value) = index.get(name) else {
        return Err(SearchError::BadTries);
    };
    match InvertedIndex::from_value(alloc, value) {
        Ok(trie) => Ok(trie),
        Err(IndexError::Memory) => Err(SearchError::Memory),
        Err(_) => rounded_trie(alloc, value),
    }
}

/// The trie that the value is with 1 instead of each number that is negative or a fraction, as
/// frequencies of others are.
fn rounded_trie(alloc: Global, value: &Value) -> Result<InvertedIndex, SearchError>
    ensures ok { IfOk result (λ trie. IsTrieValue trie (with_ones (view value.now))) }
    ensures table { IfOk result (λ trie. IsTable trie) }
    ensures err { IfErr result (StopsBy BadTries ((table : Table)
        → IsTable table → ¬ IsTrieValue table (with_ones (view value.now)))) }
{
    let rounded = round(alloc, value)?;
    match InvertedIndex::from_value(alloc, &rounded) {
        Ok(trie) => Ok(trie),
        Err(IndexError::Memory) => Err(SearchError::Memory),
        Err(_) => Err(SearchError::BadTries),
    }
}

/// The document store.
pub(crate) fn store_of(alloc: Global, value: &Value) -> Result<DocumentStore, SearchError>
    ensures ok { IfOk result (HasStore (view value.now)) }
    ensures consistent { IfOk result IsConsistent }
    ensures err { IfErr result (StopsBy BadStore ((contents : Contents)
        → IsConsistent contents → ¬ HasStore (view value.now) contents)) }
{
    let Some(documents) = value.get("documentStore") else {
        return Err(SearchError::BadStore);
    };
    match DocumentStore::from_value(alloc, documents) {
        Ok(store) => Ok(store),
        Err(IndexError::Memory) => Err(SearchError::Memory),
        Err(_) => Err(SearchError::BadStore),
    }
}
