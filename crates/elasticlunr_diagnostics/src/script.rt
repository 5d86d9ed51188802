//! The text of an index as a script, and the index in a script.
ghost use Rattle.std.specs.Prelude.{◌≡◌, ℕ, string_bytes, IfOk, IfSome, IfNone};
ghost use Rattle.elasticlunr_text.specs.Text.{Bytes};
ghost use Rattle.elasticlunr_diagnostics.specs.Script.{begins_object, HasIndex, IsEnd, IsIndexIn};
ghost use Rattle.elasticlunr_diagnostics.specs.Script.{IsObjectStart, IsScript, IsWithoutFeed};

use crate::form::first_byte;
use elasticlunr_job_format::lines::is_space;
use std::alloc::{AllocError, Global};

/// The line of an index with a text before it, and a semicolon after it.
pub fn script_of(alloc: Global, before: &str, line: &str) -> Result<String, AllocError>
    ensures { IfOk result (λ script. IsScript before.now line.now (string_bytes script)) }
{
    let index = without_feed(line);
    let mut script = String::from_str(alloc, before)?;
    script.push_str(index)?;
    script.push_str(";\n")?;
    Ok(script)
}

/// A line without the line feed at its end.
fn without_feed(line: &str) -> &str
    ensures { IsWithoutFeed line.now result.now }
{
    line.strip_suffix('\n').unwrap_or(line)
}

/// The index in a script: from its first object with a member up to the `;` at its end. A text that
/// is no script is given back as it is.
pub fn index_in(text: &[u8]) -> &[u8]
    ensures { IsIndexIn text.now result.now }
{
    match script_index(text) {
        Some(index) => index,
        None => text,
    }
}

/// The index in a script, if the text is one.
fn script_index(text: &[u8]) -> Option<&[u8]>
    ensures some { IfSome result (λ index. HasIndex text.now index.now) }
    ensures none { IfNone result ((index : Bytes) → ¬ HasIndex text.now index) }
{
    let end = script_end(text)?;
    let script = &text[..end];
    let start = object_start(script)?;
    Some(&script[start..])
}

/// Where the `;` stands that ends a script.
fn script_end(text: &[u8]) -> Option<usize>
    ensures some { IfSome result (IsEnd text.now) }
    ensures none { IfNone result ((end : ℕ) → ¬ IsEnd text.now end) }
{
    let mut end = text.len();
    while end > 0 {
        end -= 1;
        if text[end] == b';' {
            return Some(end);
        }
        if !is_space(text[end]) {
            return None;
        }
    }
    None
}

/// Where the first object with a member begins.
fn object_start(script: &[u8]) -> Option<usize>
    ensures some { IfSome result (IsObjectStart script.now) }
    ensures none { IfNone result ((start : ℕ) → ¬ IsObjectStart script.now start) }
{
    for start in 0..script.len() {
        if begins_object(&script[start..]) {
            return Some(start);
        }
    }
    None
}

/// Whether a text begins with `{`, and a string after that.
fn begins_object(text: &[u8]) -> bool
    ensures { result ≡ begins_object text.now }
{
    match text {
        [b'{', rest @ ..] => first_byte(rest) == Some(b'"'),
        _ => false,
    }
}
