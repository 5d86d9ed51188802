//! The members of the JSON value of a head.
ghost use Rattle.std.specs.Prelude.{◌≡◌, ◌≢◌, ℕ, Bool, List, Option, map, IfErr, IfOk, string_bytes};
ghost use Rattle.serde_json.specs.Data.{Items, array, boolean, string};
ghost use Rattle.serde_json.specs.View.{view, items_view};
ghost use Rattle.elasticlunr_error.specs.Text.{Bytes, bytes_of};
ghost use Rattle.elasticlunr_json.specs.Maps.{count};
ghost use Rattle.elasticlunr_piece_head.specs.Fault.{IsOfMember};
ghost use Rattle.elasticlunr_piece_head.specs.Values.{Has, array_of, items_of, length_value};

use crate::fault::HeadFault;
use serde_json::Value;
use std::alloc::Global;

/// The text under a key.
pub(crate) fn text_in(alloc: Global, value: &Value, key: &'static str) -> Result<String, HeadFault>
    ensures has { IfOk result (λ text. Has (view value.now) key.now (string (string_bytes text))) }
    ensures fault { IfErr result (IsOfMember key.now ((text : Bytes)
        → ¬ Has (view value.now) key.now (string text))) }
{
    let Some(member) = value.get(key) else {
        return Err(HeadFault::Member(key));
    };
    let Some(text) = member.as_str() else {
        return Err(HeadFault::Member(key));
    };
    Ok(String::from_str(alloc, text)?)
}

/// Whether it is true or false what stands under a key.
pub(crate) fn bool_in(value: &Value, key: &'static str) -> Result<bool, HeadFault>
    ensures has { IfOk result (λ is. Has (view value.now) key.now (boolean is)) }
    ensures fault { IfErr result (IsOfMember key.now ((is : Bool)
        → ¬ Has (view value.now) key.now (boolean is))) }
{
    let Some(member) = value.get(key) else {
        return Err(HeadFault::Member(key));
    };
    match member.as_bool() {
        Some(is) => Ok(is),
        None => Err(HeadFault::Member(key)),
    }
}

/// The items of the array under a key.
fn items_in<'a>(value: &'a Value, key: &'static str) -> Result<&'a [Value], HeadFault>
    ensures has { IfOk result (λ items.
        Has (view value.now) key.now (array (items_view items.now))) }
    ensures fault { IfErr result (IsOfMember key.now ((items : Items)
        → ¬ Has (view value.now) key.now (array items))) }
{
    let Some(member) = value.get(key) else {
        return Err(HeadFault::Member(key));
    };
    match member.as_array() {
        Some(items) => Ok(items.as_slice()),
        None => Err(HeadFault::Member(key)),
    }
}

/// The texts of the array under a key.
pub(crate) fn texts_in(
    alloc: Global,
    value: &Value,
    key: &'static str,
) -> Result<Vec<String>, HeadFault>
    ensures has { IfOk result (λ texts.
        Has (view value.now) key.now (array_of string (bytes_of texts.items))) }
    ensures fault { IfErr result (IsOfMember key.now ((texts : List Bytes)
        → ¬ Has (view value.now) key.now (array_of string texts))) }
{
    texts_of(alloc, items_in(value, key)?, key)
}

/// The texts that items are.
fn texts_of(alloc: Global, items: &[Value], key: &'static str) -> Result<Vec<String>, HeadFault>
    ensures are { IfOk result (λ texts.
        items_view items.now ≡ items_of string (bytes_of texts.items)) }
    ensures fault { IfErr result (IsOfMember key.now ((texts : List Bytes)
        → items_view items.now ≢ items_of string texts)) }
{
    let mut texts = Vec::with_capacity(alloc, items.len())?;
    for item in items {
        let Some(text) = item.as_str() else {
            return Err(HeadFault::Member(key));
        };
        texts.push(String::from_str(alloc, text)?)?;
    }
    Ok(texts)
}

/// The numbers of the array under a key.
pub(crate) fn numbers_in(
    alloc: Global,
    value: &Value,
    key: &'static str,
) -> Result<Vec<usize>, HeadFault>
    ensures has { IfOk result (λ numbers.
        Has (view value.now) key.now (array_of count numbers.items)) }
    ensures fault { IfErr result (IsOfMember key.now ((numbers : List ℕ)
        → ¬ Has (view value.now) key.now (array_of count numbers))) }
{
    numbers_of(alloc, items_in(value, key)?, key)
}

/// The numbers that items are.
fn numbers_of(alloc: Global, items: &[Value], key: &'static str) -> Result<Vec<usize>, HeadFault>
    ensures are { IfOk result (λ numbers. items_view items.now ≡ items_of count numbers.items) }
    ensures fault { IfErr result (IsOfMember key.now ((numbers : List ℕ)
        → items_view items.now ≢ items_of count numbers)) }
{
    let mut numbers = Vec::with_capacity(alloc, items.len())?;
    for item in items {
        let Some(number) = item.as_u64() else {
            return Err(HeadFault::Member(key));
        };
        numbers.push(number as usize)?;
    }
    Ok(numbers)
}

/// The lengths of each field in the array under a key.
pub(crate) fn lengths_in(
    alloc: Global,
    value: &Value,
    key: &'static str,
) -> Result<Vec<Vec<Option<usize>>>, HeadFault>
    ensures has { IfOk result (λ lengths. Has (view value.now) key.now
        (array_of (array_of length_value) (map (λ column. column.items) lengths.items))) }
    ensures fault { IfErr result (IsOfMember key.now ((columns : List (List (Option ℕ)))
        → ¬ Has (view value.now) key.now (array_of (array_of length_value) columns))) }
{
    columns_of(alloc, items_in(value, key)?, key)
}

/// The lengths of each field that items are.
fn columns_of(
    alloc: Global,
    items: &[Value],
    key: &'static str,
) -> Result<Vec<Vec<Option<usize>>>, HeadFault>
    ensures are { IfOk result (λ lengths. items_view items.now
        ≡ items_of (array_of length_value) (map (λ column. column.items) lengths.items)) }
    ensures fault { IfErr result (IsOfMember key.now ((columns : List (List (Option ℕ)))
        → items_view items.now ≢ items_of (array_of length_value) columns)) }
{
    let mut lengths = Vec::with_capacity(alloc, items.len())?;
    for item in items {
        lengths.push(column_of(alloc, item, key)?)?;
    }
    Ok(lengths)
}

/// The lengths of a field.
fn column_of(
    alloc: Global,
    column: &Value,
    key: &'static str,
) -> Result<Vec<Option<usize>>, HeadFault>
    ensures are { IfOk result (λ lengths. view column.now ≡ array_of length_value lengths.items) }
    ensures fault { IfErr result (IsOfMember key.now ((lengths : List (Option ℕ))
        → view column.now ≢ array_of length_value lengths)) }
{
    match column.as_array() {
        Some(items) => lengths_of(alloc, items.as_slice(), key),
        None => Err(HeadFault::Member(key)),
    }
}

/// The lengths that items are.
fn lengths_of(
    alloc: Global,
    items: &[Value],
    key: &'static str,
) -> Result<Vec<Option<usize>>, HeadFault>
    ensures are { IfOk result (λ lengths.
        items_view items.now ≡ items_of length_value lengths.items) }
    ensures fault { IfErr result (IsOfMember key.now ((lengths : List (Option ℕ))
        → items_view items.now ≢ items_of length_value lengths)) }
{
    let mut lengths = Vec::with_capacity(alloc, items.len())?;
    for item in items {
        lengths.push(length_of(item, key)?)?;
    }
    Ok(lengths)
}

/// The length of a field of a document, `None` where it has none.
fn length_of(value: &Value, key: &'static str) -> Result<Option<usize>, HeadFault>
    ensures is { IfOk result (λ length. view value.now ≡ length_value length) }
    ensures fault { IfErr result (IsOfMember key.now ((length : Option ℕ)
        → view value.now ≢ length_value length)) }
{
    match value {
        Value::Null => Ok(None),
        other => match other.as_u64() {
            Some(length) => Ok(Some(length as usize)),
            None => Err(HeadFault::Member(key)),
        },
    }
}
