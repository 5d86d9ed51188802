//! The reference as a field of its own.
ghost use Rattle.std.specs.Prelude.{◌≡◌, string_bytes, IfOk, true, false};
ghost use Rattle.elasticlunr.specs.Fields.{borrowed, has_name};
ghost use Rattle.elasticlunr_input.specs.References.{free_name, numbered_name, reference_name};
ghost use Rattle.elasticlunr_input.specs.References.{with_reference};

use elasticlunr_job::kept::has_name;
use std::alloc::{AllocError, Global};

/// The name with this number, from 1: `id`, `id2`, `id3` and so on.
fn numbered_name(alloc: Global, number: usize) -> Result<String, AllocError>
    ensures { IfOk result (λ name. string_bytes name ≡ numbered_name number) }
{
    if number == 1 {
        return String::from_str(alloc, "id");
    }
    format!(in alloc; "id{number}")
}

/// The first of these names that no field has.
fn free_name(alloc: Global, fields: &[&str]) -> Result<String, AllocError>
    ensures first { IfOk result (λ name. string_bytes name ≡ free_name (borrowed fields.now)) }
    ensures free { IfOk result (λ name.
        has_name (string_bytes name) (borrowed fields.now) ≡ false) }
{
    for number in 1..fields.len() + 2 {
        let name = numbered_name(alloc, number)?;
        if !has_name(name.as_str(), fields) {
            return Ok(name);
        }
    }
    String::from_str(alloc, "id")
}

/// The name under which an index with these fields has the references, where the field with the
/// reference's key is indexed: a free one if there is such a field. It costs the square of the
/// fields at most.
pub(crate) fn reference_name(
    alloc: Global,
    key: &str,
    fields: &[&str],
) -> Result<String, AllocError>
    ensures { IfOk result (λ name. string_bytes name
        ≡ reference_name true key.now (borrowed fields.now)) }
{
    if has_name(key, fields) {
        return free_name(alloc, fields);
    }
    String::from_str(alloc, key)
}

/// The fields, and after them the key of the reference where it is indexed and none of them.
pub(crate) fn with_reference<'a>(
    is_indexed: bool,
    key: &'a str,
    fields: Vec<&'a str>,
) -> Result<Vec<&'a str>, AllocError>
    ensures { IfOk result (λ all. borrowed all.items
        ≡ with_reference is_indexed key.now (borrowed fields.entry.items)) }
{
    let mut all = fields;
    if is_indexed && !has_name(key, &all) {
        all.push(key)?;
    }
    Ok(all)
}
