//! Reading search options from a JSON value.
ghost use Rattle.std.specs.Prelude.{◌≡◌, ◌≢◌, ◌⊎◌, ◌<◌, ◌^◌, ℕ, Bool, Option, None, Some, IfOk};
ghost use Rattle.std.specs.Prelude.{IfErr, IfSome, codes};
ghost use Rattle.serde_json.specs.Data.{null, boolean};
ghost use Rattle.serde_json.specs.Find.{get};
ghost use Rattle.serde_json.specs.View.{view};
ghost use Rattle.elasticlunr_json.specs.Maps.{count};
ghost use Rattle.elasticlunr_json.specs.Refused.{IsRefused};
ghost use Rattle.elasticlunr_store.specs.Options.{FieldMap, field_map, bool_value, IsPart};
ghost use Rattle.elasticlunr_store.specs.Options.{ReadsField, ReadsFields};

use super::{FieldOptions, SearchBool, SearchOptionsField};
use elasticlunr_error::IndexError;
use serde_json::Value;
use std::alloc::Global;
use std::collections::BTreeMap;

// The truth value or the word of a value.
fn bool_of(value: &Value) -> Option<SearchBool>
    ensures found { IfSome result (λ bool. view value.now ≡ bool_value bool) }
    ensures none { result ≡ None → (bool : SearchBool) → view value.now ≢ bool_value bool }
{
    let text = value.as_str()?;
    if text == "OR" {
        return Some(SearchBool::Or);
    }
    if text == "AND" {
        return Some(SearchBool::And);
    }
    None
}

// What stands under `bool`.
pub(super) fn read_bool(value: &Value) -> Option<SearchBool>
    ensures found { IfSome result (λ bool. get (codes "bool") (view value.now)
        ≡ Some (bool_value bool)) }
    ensures none { result ≡ None → (bool : SearchBool)
        → get (codes "bool") (view value.now) ≢ Some (bool_value bool) }
{
    let value = value.get("bool")?;
    bool_of(value)
}

// What stands under `expand`.
pub(super) fn read_expand(value: &Value) -> Option<bool>
    ensures found { IfSome result (λ expand. get (codes "expand") (view value.now)
        ≡ Some (boolean expand)) }
    ensures none { result ≡ None → (expand : Bool)
        → get (codes "expand") (view value.now) ≢ Some (boolean expand) }
{
    let value = value.get("expand")?;
    value.as_bool()
}

// What stands under a key, where that is something else than null.
fn part<'a>(value: &'a Value, key: &str) -> Option<&'a Value>
    ensures some { IfSome result (λ v. (get key.now (view value.now) ≡ Some (view v.now))
        × (view v.now ≢ null)) }
    ensures none { result ≡ None
        → (get key.now (view value.now) ≡ None) ⊎ (get key.now (view value.now) ≡ Some null) }
{
    let part = value.get(key)?;
    if part.is_null() {
        return None;
    }
    Some(part)
}

fn read_boost_part(value: &Value) -> Result<Option<u8>, IndexError>
    ensures ok { IfOk result (λ boost. IsPart count (get (codes "boost") (view value.now)) boost) }
    ensures small { IfOk result (λ boost. IfSome boost (λ n. n < 2 ^ 8)) }
    ensures err { IfErr result (IsRefused ((boost : Option ℕ)
        → IfSome boost (λ n. n < 2 ^ 8)
        → ¬ (IsPart count (get (codes "boost") (view value.now)) boost))) }
{
    let Some(part) = part(value, "boost") else {
        return Ok(None);
    };
    let Some(boost) = part.as_u64() else {
        return Err(IndexError::ForeignValue);
    };
    if boost > 255 {
        return Err(IndexError::ForeignValue);
    }
    Ok(Some(boost as u8))
}

fn read_bool_part(value: &Value) -> Result<Option<SearchBool>, IndexError>
    ensures ok { IfOk result (λ bool. IsPart bool_value (get (codes "bool") (view value.now)) bool) }
    ensures err { IfErr result (IsRefused ((bool : Option SearchBool)
        → ¬ (IsPart bool_value (get (codes "bool") (view value.now)) bool))) }
{
    let Some(part) = part(value, "bool") else {
        return Ok(None);
    };
    let Some(bool) = bool_of(part) else {
        return Err(IndexError::ForeignValue);
    };
    Ok(Some(bool))
}

fn read_expand_part(value: &Value) -> Result<Option<bool>, IndexError>
    ensures ok { IfOk result (λ expand. IsPart boolean (get (codes "expand") (view value.now))
        expand) }
    ensures err { IfErr result (IsRefused ((expand : Option Bool)
        → ¬ (IsPart boolean (get (codes "expand") (view value.now)) expand))) }
{
    let Some(part) = part(value, "expand") else {
        return Ok(None);
    };
    let Some(expand) = part.as_bool() else {
        return Err(IndexError::ForeignValue);
    };
    Ok(Some(expand))
}

// The options of one field.
fn read_field(value: &Value) -> Result<SearchOptionsField, IndexError>
    ensures ok { IfOk result (λ field. ReadsField (view value.now) field) }
    ensures err { IfErr result (IsRefused ((field : SearchOptionsField)
        → ¬ (ReadsField (view value.now) field))) }
{
    if !value.is_object() {
        return Err(IndexError::ForeignValue);
    }
    let boost = read_boost_part(value)?;
    let bool = read_bool_part(value)?;
    let expand = read_expand_part(value)?;
    Ok(SearchOptionsField {
        boost,
        bool,
        expand,
    })
}

// The options of fields.
pub(super) fn read_fields(alloc: Global, value: &Value) -> Result<FieldOptions, IndexError>
    ensures ok { IfOk result (λ fields. ReadsFields (view value.now) (field_map fields.entries)) }
    ensures err { IfErr result (IsRefused ((fields : FieldMap)
        → ¬ (ReadsFields (view value.now) fields))) }
{
    let Some(members) = value.as_object() else {
        return Err(IndexError::ForeignValue);
    };
    let mut fields = BTreeMap::new(alloc);
    for (name, options) in members.iter() {
        let field = read_field(options)?;
        fields.insert(name.clone()?, field)?;
    }
    Ok(fields)
}
