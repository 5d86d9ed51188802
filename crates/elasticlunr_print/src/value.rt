//! The JSON value of an index.
ghost use Rattle.std.specs.Prelude.{◌≡◌, List, false, map, length, string_bytes, IfOk, OnOk};
ghost use Rattle.std.specs.Prelude.{IsOkUnless};
ghost use Rattle.std.specs.List.{zip, All};
ghost use Rattle.elasticlunr_trie.specs.Table.{IsTable};
ghost use Rattle.elasticlunr_error.specs.declared.error.IndexError.TheVariants.{Memory};
ghost use Rattle.elasticlunr_print.specs.Printed.{texts, object_of, AreTrieValues};
ghost use Rattle.elasticlunr_print.specs.Parts.{IsPrinted};
ghost use Rattle.serde_json.specs.Data.{Data, array};
ghost use Rattle.serde_json.specs.View.{view};
ghost use Rattle.serde_json.specs.Written.{has_float};

use crate::parts::{ELASTICLUNR_VERSION, Parts};
use elasticlunr_error::IndexError;
use elasticlunr_json::set_member;
use elasticlunr_trie::InvertedIndex;
use serde_json::{Map, Value};
use std::alloc::{AllocError, Global};

/// The JSON value of an index with these parts.
pub fn index_value(alloc: Global, parts: Parts<'_>) -> Result<Value, IndexError>
    ensures value { IfOk result (λ v. IsPrinted parts.entry (view v)) }
    ensures whole { IfOk result (λ v. has_float (view v) ≡ false) }
    ensures memory { IsOkUnless result Memory }
{
    let mut members = Map::new(alloc);
    let documents = parts.store.to_value()?;
    set_member(alloc, &mut members, "documentStore", documents)?;
    let fields = array_of_names(alloc, parts.fields)?;
    set_member(alloc, &mut members, "fields", fields)?;
    let tries = object_of_tries(alloc, parts.fields, parts.tries)?;
    set_member(alloc, &mut members, "index", tries)?;
    let language = Value::try_from_str(alloc, parts.language)?;
    set_member(alloc, &mut members, "lang", language)?;
    let stages = array_of_names(alloc, parts.stages)?;
    set_member(alloc, &mut members, "pipeline", stages)?;
    let reference = Value::try_from_str(alloc, parts.ref_field)?;
    set_member(alloc, &mut members, "ref", reference)?;
    let version = Value::try_from_str(alloc, ELASTICLUNR_VERSION)?;
    set_member(alloc, &mut members, "version", version)?;
    Ok(Value::Object(members))
}

// The array of some names.
fn array_of_names(alloc: Global, names: &[String]) -> Result<Value, AllocError>
    ensures { IfOk result (λ v. view v ≡ array (texts (map string_bytes names.now))) }
{
    let mut values = Vec::with_capacity(alloc, names.len())?;
    for name in names {
        values.push(Value::try_from_str(alloc, name.as_str())?)?;
    }
    Ok(Value::Array(values))
}

// The object of the fields' tries.
fn object_of_tries(
    alloc: Global,
    fields: &[String],
    tries: &[InvertedIndex],
) -> Result<Value, IndexError>
    requires { length tries.now ≡ length fields.now }
    ensures value { IfOk result (λ v. (values : List Data) × AreTrieValues tries.now values
        × (view v ≡ object_of (zip (map string_bytes fields.now) values))) }
    ensures tables { OnOk result (All IsTable tries.now) }
    ensures memory { IsOkUnless result Memory }
{
    let mut members = Map::new(alloc);
    for (name, trie) in fields.iter().zip(tries) {
        set_member(alloc, &mut members, name, trie.to_value()?)?;
    }
    Ok(Value::Object(members))
}
