//! What is wrong in an input: where, what, and what to do.
ghost use Rattle.std.specs.Prelude.{◌≡◌, None, IfOk, IfSome, IsSome, string_bytes};
ghost use Rattle.elasticlunr_json_place.specs.Members.{path_told, IsPlaceOf};
ghost use Rattle.elasticlunr_json_place.specs.Places.{IsOffsetOf, IsPlaceIn};
ghost use Rattle.elasticlunr_diagnostics.specs.Messages.{counted_text, IsLowered};

use elasticlunr_job_format::kind::{Kind, kind_of};
use elasticlunr_job_format::lines::is_blank;
use elasticlunr_json_place::member::{Step, place_of};
use elasticlunr_json_place::place::{Place, below, line_start, place_at};
use serde_json::{Error, Value};
use std::alloc::{AllocError, AllocFailed, Global};
use std::io;

/// A line for the user, and the place that it speaks of.
#[derive(Drop)]
pub struct Message {
    /// Where that stands in the input, if it is there and was found.
    pub place: Option<Place>,
    /// What is wrong, and what to do.
    pub text: String,
}

/// Why there is no index.
#[derive(Drop)]
pub enum InputError {
    /// The input is refused.
    Refused(Message),
    /// The input could not be read.
    Device(io::Error),
    /// It has more lines than a `usize` can number.
    TooManyLines,
    /// Out of memory.
    Memory,
}

impl From<AllocError> for InputError {
    ghost use Rattle.elasticlunr_diagnostics.specs.declared.message.InputError.TheVariants.{Memory};
    ghost use Rattle.std.specs.Prelude.{◌≡◌};

    ghost from_gives = { λ _ e. e ≡ Memory };

    fn from(_refused: AllocError) -> InputError {
        InputError::Memory
    }
}

impl<T: Drop> From<AllocFailed<T>> for InputError {
    ghost use Rattle.elasticlunr_diagnostics.specs.declared.message.InputError.TheVariants.{Memory};
    ghost use Rattle.std.specs.Prelude.{◌≡◌};

    ghost from_gives = { λ _ e. e ≡ Memory };

    fn from(_refused: AllocFailed<T>) -> InputError {
        InputError::Memory
    }
}

impl From<io::Error> for InputError {
    ghost use Rattle.elasticlunr_diagnostics.specs.declared.message.InputError.TheVariants.{Device};
    ghost use Rattle.std.specs.Prelude.{◌≡◌};

    ghost from_gives = { λ failed e. e ≡ Device failed };

    fn from(failed: io::Error) -> InputError {
        InputError::Device(failed)
    }
}

/// A message about the value that a path leads to in a text.
pub fn message_at(
    alloc: Global,
    text: &[u8],
    path: &[Step<'_>],
    said: String,
) -> Result<Message, AllocError>
    ensures place { IfOk result (λ message. IfSome message.place
        (IsPlaceOf None (path_told path.now) text.now)) }
    ensures text { IfOk result (λ message. message.text ≡ said) }
{
    let place = place_of(alloc, text, None, path)?;
    Ok(Message { place, text: said })
}

/// A message about no place.
pub fn unplaced(said: String) -> Message
    ensures place { result.place ≡ None }
    ensures text { result.text ≡ said }
{
    Message {
        place: None,
        text: said,
    }
}

/// So many things of this name, as `1 field` or `2 fields`.
pub fn counted(alloc: Global, count: usize, name: &str) -> Result<String, AllocError>
    ensures { IfOk result (λ said. string_bytes said ≡ counted_text count name.now) }
{
    let ending = if count == 1 { "" } else { "s" };
    format!(in alloc; "{count} {name}{ending}")
}

/// What a value is, in words.
pub fn kind_words(kind: Kind) -> &'static str {
    match kind {
        Kind::Null => "null",
        Kind::Boolean => "a boolean",
        Kind::Number => "a number",
        Kind::Text => "a string",
        Kind::Array => "an array",
        Kind::Object => "an object",
    }
}

/// A message that a value is of the wrong kind.
pub fn wants(
    alloc: Global,
    text: &[u8],
    path: &[Step<'_>],
    label: &str,
    value: &Value,
    wanted: &str,
) -> Result<Message, AllocError>
    ensures { IfOk result (λ message. IfSome message.place
        (IsPlaceOf None (path_told path.now) text.now)) }
{
    unfit(alloc, text, path, label, kind_of(value), wanted)
}

/// A message that another kind of value was expected than this one.
pub fn unfit(
    alloc: Global,
    text: &[u8],
    path: &[Step<'_>],
    label: &str,
    found: Kind,
    wanted: &str,
) -> Result<Message, AllocError>
    ensures { IfOk result (λ message. IfSome message.place
        (IsPlaceOf None (path_told path.now) text.now)) }
{
    let found = kind_words(found);
    let said = format!(in alloc; "{label}: expected {wanted}, found {found}")?;
    message_at(alloc, text, path, said)
}

/// A message that a text is not JSON.
pub fn not_json(alloc: Global, text: &[u8], error: &Error) -> Result<Message, AllocError>
    ensures place { IfOk result (λ message. IfSome message.place (IsPlaceIn text.now)) }
    ensures placed { IfOk result (λ message. IsSome message.place) }
{
    let offset = offset_of(text, error.line(), error.column());
    let said = String::from_str(alloc, json_fault(text, offset, error))?;
    Ok(Message {
        place: Some(place_at(text, offset)),
        text: said,
    })
}

/// The same message, about the place so many lines below.
pub fn lowered(message: Message, lines: usize) -> Message
    ensures place { IsLowered message.place lines result.place }
    ensures text { result.text ≡ message.text }
{
    Message {
        place: match message.place {
            Some(place) => below(lines, place),
            None => None,
        },
        text: message.text,
    }
}

/// What keeps a text from being JSON.
fn json_fault(text: &[u8], offset: usize, error: &Error) -> &'static str {
    if text.starts_with(&[0xef, 0xbb, 0xbf]) {
        "not JSON: a byte order mark stands before it; save the file as UTF-8 without one"
    } else if is_blank(text) {
        "not JSON: it is empty"
    } else if error.is_eof() {
        "not JSON: it ends in the middle of a value"
    } else if has_half_escape(text, offset) {
        "not JSON: an escape of half a character; `\\ud83d` needs its other half after it"
    } else if std::str::from_utf8(text).is_err() {
        "not JSON: it is not UTF-8"
    } else {
        "not JSON"
    }
}

/// Half of a character of four bytes, as an escape has it.
#[derive(Clone, Copy, PartialEq, Eq)]
enum Half {
    First,
    Second,
}

/// Whether the text of JSON at an offset has an escape of half a character without the other half.
fn has_half_escape(text: &[u8], offset: usize) -> bool {
    for at in offset.saturating_add(1)..text.len() {
        let is_alone = match half_at(text, at) {
            Some(Half::First) => half_at(text, at.saturating_add(6)) != Some(Half::Second),
            Some(Half::Second) => half_at(text, at.saturating_sub(6)) != Some(Half::First),
            None => text[at] == b'"',
        };
        if is_alone {
            return text[at] != b'"';
        }
    }
    false
}

/// The half that the escape at an offset represents.
fn half_at(text: &[u8], at: usize) -> Option<Half> {
    let Some([b'\\', b'u', b'd' | b'D', digit]) = text.get(at..at.saturating_add(4)) else {
        return None;
    };
    match *digit {
        b'8' | b'9' | b'a' | b'b' | b'A' | b'B' => Some(Half::First),
        b'c'..=b'f' | b'C'..=b'F' => Some(Half::Second),
        _ => None,
    }
}

/// The offset of a line and a column, both from 1, which counts bytes.
fn offset_of(text: &[u8], line: usize, column: usize) -> usize
    ensures { IsOffsetOf text.now line column result }
{
    let start = line_start(text, line);
    start
        .saturating_add(column.saturating_sub(1))
        .min(text.len())
}
