//! Where a value stands in a text of JSON: it is looked for, and what is found is checked.
ghost use Rattle.std.specs.Prelude.{◌≡◌, ◌≤◌, ℕ, true, false, Some, codes, map, option_map};
ghost use Rattle.std.specs.Prelude.{slice_get, IfOk, IfSome};
ghost use Rattle.serde_json.specs.Data.{boolean, depth, null};
ghost use Rattle.serde_json.specs.Read.{max_depth};
ghost use Rattle.serde_json.specs.View.{view};
ghost use Rattle.elasticlunr_job_format.specs.Lines.{filled_lines, is_space};
ghost use Rattle.elasticlunr_json_place.specs.Members.{follow, move, move_told, part_of};
ghost use Rattle.elasticlunr_json_place.specs.Members.{path_told, value_of, value_at, with_word};
ghost use Rattle.elasticlunr_json_place.specs.Members.{HasValue, IsPlaceOf, StandsAt};

use crate::place::{Place, place_at};
use crate::seek::{Span, seek};
use elasticlunr_job_format::lines::{is_blank, is_space};
use serde_json::Value;
use std::alloc::{AllocError, Global};

/// A step from a value to a member of it.
#[derive(Clone, Copy)]
pub enum Step<'a> {
    /// To the member under a key.
    Key(&'a str),
    /// To the item with a number, from 0.
    Item(usize),
}

/// The place of the value that a path leads to in a text, or in the line with this number, from 0,
/// of those that are not blank. Reads the text three times again.
pub fn place_of(
    alloc: Global,
    text: &[u8],
    line: Option<usize>,
    path: &[Step<'_>],
) -> Result<Option<Place>, AllocError>
    ensures { IfOk result (λ found. IfSome found (IsPlaceOf line (path_told path.now) text.now)) }
{
    match seek(alloc, text, line, path)? {
        Some(span) if stands_at(alloc, text, line, path, span)? => {
            Ok(Some(place_at(text, span.start)))
        }
        _ => Ok(None),
    }
}

/// Whether this is where the value stands that a path leads to.
fn stands_at(
    alloc: Global,
    text: &[u8],
    line: Option<usize>,
    path: &[Step<'_>],
    span: Span,
) -> Result<bool, AllocError>
    ensures { IfOk result (λ stands.
        stands ≡ true → StandsAt line (path_told path.now) text.now span.start span.end) }
{
    Ok(
        begins_at(text, span.start)
            && has_value(alloc, text, line, path, span)?
            && gives_null(alloc, text, line, path, span)?
            && gives_true(alloc, text, line, path, span)?,
    )
}

/// Whether the text has no white space at an offset.
fn begins_at(text: &[u8], start: usize) -> bool
    ensures { result ≡ true → (first : ℕ) × (slice_get text.now start ≡ Some first)
        × (is_space first ≡ false) }
{
    match text.get(start) {
        Some(byte) => !is_space(*byte),
        None => false,
    }
}

/// Whether these bytes are read as what the path leads to.
fn has_value(
    alloc: Global,
    text: &[u8],
    line: Option<usize>,
    path: &[Step<'_>],
    span: Span,
) -> Result<bool, AllocError>
    ensures { IfOk result (λ has. has ≡ true → HasValue line (path_told path.now) text.now
        span.start span.end) }
{
    let Some(bytes) = text.get(span.start..span.end) else {
        return Ok(false);
    };
    let Some(found) = value_in(alloc, bytes, None)? else {
        return Ok(false);
    };
    let Some(whole) = value_in(alloc, text, line)? else {
        return Ok(false);
    };
    match follow(&whole, path) {
        Some(value) => is_same(alloc, &found, value),
        None => Ok(false),
    }
}

/// Whether two values are printed alike.
fn is_same(alloc: Global, value: &Value, other: &Value) -> Result<bool, AllocError>
    ensures { IfOk result (λ same. same ≡ true → depth (view value.now) ≤ max_depth
        → depth (view other.now) ≤ max_depth → view value.now ≡ view other.now) }
{
    let (printed, others) = (value.to_string(alloc)?, other.to_string(alloc)?);
    Ok(printed.as_str() == others.as_str())
}

/// Whether the path leads to null where that stands instead of these bytes.
fn gives_null(
    alloc: Global,
    text: &[u8],
    line: Option<usize>,
    path: &[Step<'_>],
    span: Span,
) -> Result<bool, AllocError>
    ensures { IfOk result (λ gives. gives ≡ true
        → value_at line (path_told path.now)
        (with_word text.now span.start span.end (codes "null")) ≡ Some null) }
{
    let changed = with_word(alloc, text, span, "null")?;
    match value_in(alloc, &changed, line)? {
        Some(value) => Ok(follow(&value, path).is_some_and(Value::is_null)),
        None => Ok(false),
    }
}

/// Whether the path leads to true where that stands instead of these bytes.
fn gives_true(
    alloc: Global,
    text: &[u8],
    line: Option<usize>,
    path: &[Step<'_>],
    span: Span,
) -> Result<bool, AllocError>
    ensures { IfOk result (λ gives. gives ≡ true
        → value_at line (path_told path.now)
        (with_word text.now span.start span.end (codes "true"))
        ≡ Some (boolean true)) }
{
    let changed = with_word(alloc, text, span, "true")?;
    match value_in(alloc, &changed, line)? {
        Some(value) => Ok(follow(&value, path).and_then(Value::as_bool) == Some(true)),
        None => Ok(false),
    }
}

/// The text with a word instead of these bytes.
fn with_word(alloc: Global, text: &[u8], span: Span, word: &str) -> Result<Vec<u8>, AllocError>
    ensures { IfOk result (λ bytes. bytes.items ≡ with_word text.now span.start span.end word.now) }
{
    let mut changed = Vec::with_capacity(alloc, text.len())?;
    changed.extend_from_slice(&text[..span.start.min(text.len())])?;
    changed.extend_from_slice(word.as_bytes())?;
    changed.extend_from_slice(&text[span.end.min(text.len())..])?;
    Ok(changed)
}

/// The value of a text, or of the line with this number.
fn value_in(alloc: Global, text: &[u8], line: Option<usize>) -> Result<Option<Value>, AllocError>
    ensures { IfOk result (λ found. option_map view found ≡ value_of line text.now) }
{
    let Some(part) = part_of(alloc, text, line)? else {
        return Ok(None);
    };
    match Value::from_slice(alloc, part) {
        Ok(value) => Ok(Some(value)),
        Err(e) if e.is_memory() => Err(AllocError),
        Err(_) => Ok(None),
    }
}

/// The text, or the line with this number.
fn part_of(alloc: Global, text: &[u8], line: Option<usize>) -> Result<Option<&[u8]>, AllocError>
    ensures { IfOk result (λ part. option_map (λ bytes. bytes.now) part ≡ part_of line text.now) }
{
    let Some(number) = line else {
        return Ok(Some(text));
    };
    let lines = filled_lines(alloc, text)?;
    Ok(lines.get(number).copied())
}

/// The lines that are not blank.
fn filled_lines(alloc: Global, text: &[u8]) -> Result<Vec<&[u8]>, AllocError>
    ensures { IfOk result (λ lines. map (λ line. line.now) lines.items ≡ filled_lines text.now) }
{
    text.split(|byte| *byte == b'\n')
        .filter(|line| !is_blank(line))
        .collect(alloc)
}

/// What a path leads to.
fn follow<'v>(value: &'v Value, path: &[Step<'_>]) -> Option<&'v Value>
    ensures { option_map (λ found. view found.now) result
        ≡ follow (path_told path.now) (view value.now) }
{
    let mut here = value;
    for step in path {
        here = moved(here, *step)?;
    }
    Some(here)
}

/// What a step leads to.
fn moved<'v>(value: &'v Value, step: Step<'_>) -> Option<&'v Value>
    ensures { option_map (λ found. view found.now) result
        ≡ move (move_told step.entry) (view value.now) }
{
    match step {
        Step::Key(key) => value.get(key),
        Step::Item(number) => value.get(number),
    }
}
