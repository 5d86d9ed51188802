//! The JSON value of search options.
ghost use Rattle.std.specs.Prelude.{◌≡◌, IfOk, OnOk, option_map};
ghost use Rattle.serde_json.specs.Data.{boolean};
ghost use Rattle.serde_json.specs.View.{view, members_view};
ghost use Rattle.elasticlunr_json.specs.Maps.{keyed, count};
ghost use Rattle.elasticlunr_store.specs.Options.{field_map, bool_value, field_value};
ghost use Rattle.elasticlunr_store.specs.Options.{options_object};
ghost use Rattle.elasticlunr_store.specs.OptionalMembers.{put_part};

use super::{FieldOptions, SearchBool, SearchOptionsField};
use elasticlunr_json::set_member;
use serde_json::{Map, Value};
use std::alloc::{AllocError, Global};

pub(super) fn bool_value(alloc: Global, bool: SearchBool) -> Result<Value, AllocError>
    ensures { IfOk result (λ v. view v ≡ bool_value bool) }
{
    let name = match bool {
        SearchBool::Or => "OR",
        SearchBool::And => "AND",
    };
    Ok(Value::String(String::from_str(alloc, name)?))
}

// Sets a member of an object, if there is a value for it.
pub(super) fn put_part(
    alloc: Global,
    members: &mut Map<String, Value>,
    key: &str,
    value: Option<Value>,
) -> Result<(), AllocError>
    ensures { OnOk result (members_view members.new.entries
        ≡ put_part key.now (option_map view value) (members_view members.old.entries)) }
{
    match value {
        Some(value) => set_member(alloc, members, key, value),
        None => Ok(()),
    }
}

fn bool_part(alloc: Global, bool: Option<SearchBool>) -> Result<Option<Value>, AllocError>
    ensures { IfOk result (λ v. option_map view v ≡ option_map bool_value bool) }
{
    match bool {
        Some(bool) => {
            let value = bool_value(alloc, bool)?;
            Ok(Some(value))
        }
        None => Ok(None),
    }
}

fn boost_part(boost: Option<u8>) -> Option<Value>
    ensures { option_map view result ≡ option_map count boost }
{
    match boost {
        Some(boost) => Some(Value::from(boost)),
        None => None,
    }
}

fn expand_part(expand: Option<bool>) -> Option<Value>
    ensures { option_map view result ≡ option_map boolean expand }
{
    match expand {
        Some(expand) => Some(Value::Bool(expand)),
        None => None,
    }
}

// The object of the options for all fields, and of those of some.
pub(super) fn whole_value(
    alloc: Global,
    bool: SearchBool,
    expand: bool,
    fields: Value,
) -> Result<Value, AllocError>
    ensures { IfOk result (λ v. view v ≡ options_object (bool_value bool) (boolean expand)
        (view fields)) }
{
    let mut members = Map::new(alloc);
    let bool = bool_value(alloc, bool)?;
    set_member(alloc, &mut members, "bool", bool)?;
    set_member(alloc, &mut members, "expand", Value::Bool(expand))?;
    set_member(alloc, &mut members, "fields", fields)?;
    Ok(Value::Object(members))
}

// The value of the options of one field.
pub(super) fn field_value(alloc: Global, field: &SearchOptionsField) -> Result<Value, AllocError>
    ensures { IfOk result (λ v. view v ≡ field_value field.now) }
{
    let mut members = Map::new(alloc);
    let bool = bool_part(alloc, field.bool)?;
    put_part(alloc, &mut members, "bool", bool)?;
    put_part(alloc, &mut members, "boost", boost_part(field.boost))?;
    put_part(alloc, &mut members, "expand", expand_part(field.expand))?;
    Ok(Value::Object(members))
}

// The value of the options of fields.
pub(super) fn fields_value(alloc: Global, fields: &FieldOptions) -> Result<Value, AllocError>
    ensures { IfOk result (λ v. view v ≡ keyed field_value (field_map fields.now.entries)) }
{
    let mut members = Map::new(alloc);
    for (name, field) in fields.iter() {
        set_member(alloc, &mut members, name, field_value(alloc, field)?)?;
    }
    Ok(Value::Object(members))
}
