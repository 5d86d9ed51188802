//! A value with a natural number instead of each other number.
ghost use Rattle.std.specs.Prelude.{◌≡◌, IfOk};
ghost use Rattle.elasticlunr_search.specs.Whole.{with_ones, items_with_ones, members_with_ones};
ghost use Rattle.serde_json.specs.View.{view, items_view, members_view};

use serde_json::{Map, Value};
use std::alloc::{AllocError, Global};

/// The value with 1 instead of each number that is negative or a fraction. Each level of it takes a
/// call.
#[cycle(round)]
pub(crate) fn round(alloc: Global, value: &Value) -> Result<Value, AllocError>
    ensures { IfOk result (λ v. view v ≡ with_ones (view value.now)) }
{
    match value {
        Value::Null => Ok(Value::Null),
        Value::Bool(b) => Ok(Value::Bool(*b)),
        Value::Number(n) if n.is_u64() => Ok(Value::Number(*n)),
        Value::Number(_) => Ok(Value::from(1u64)),
        Value::String(text) => Ok(Value::String(text.clone()?)),
        Value::Array(items) => Ok(Value::Array(round_items(alloc, items)?)),
        Value::Object(members) => Ok(Value::Object(round_members(alloc, members)?)),
    }
}

#[cycle(round)]
fn round_items(alloc: Global, items: &Vec<Value>) -> Result<Vec<Value>, AllocError>
    ensures { IfOk result (λ v. items_view v.items ≡ items_with_ones (items_view items.now.items)) }
{
    let mut rounded = Vec::with_capacity(alloc, items.len())?;
    for item in items {
        rounded.push(round(alloc, item)?)?;
    }
    Ok(rounded)
}

#[cycle(round)]
fn round_members(
    alloc: Global,
    members: &Map<String, Value>,
) -> Result<Map<String, Value>, AllocError>
    ensures { IfOk result (λ m. members_view m.entries
        ≡ members_with_ones (members_view members.now.entries)) }
{
    let mut rounded = Map::new(alloc);
    for (key, member) in members.iter() {
        let name = key.clone()?;
        drop(rounded.insert(name, round(alloc, member)?)?);
    }
    Ok(rounded)
}
