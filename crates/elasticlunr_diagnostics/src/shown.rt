//! Texts that a terminal shows and does not obey.
ghost use Rattle.std.specs.Prelude.{◌≡◌, ◌++◌, string_bytes, IfOk, OnOk};
ghost use Rattle.std.specs.List.{flat_map};
ghost use Rattle.std.specs.Str.{chars};
ghost use Rattle.elasticlunr_diagnostics.specs.Shown.{escape, shown_char, shown_in_lines};

use std::alloc::{AllocError, Global};

/// The text with an escape instead of each control character, as `\u{1b}`: one line, none of which
/// a terminal takes for a command.
pub fn shown(alloc: Global, text: &str) -> Result<String, AllocError>
    ensures { IfOk result (λ line. string_bytes line ≡ flat_map shown_char (chars text.now)) }
{
    let mut line = String::with_capacity(alloc, text.len())?;
    for c in text.chars() {
        push_shown(alloc, &mut line, c)?;
    }
    Ok(line)
}

/// The same of each line of a text: line feeds stay.
pub fn shown_lines(alloc: Global, text: &str) -> Result<String, AllocError>
    ensures { IfOk result (λ lines. string_bytes lines ≡ flat_map shown_in_lines (chars text.now)) }
{
    let mut lines = String::with_capacity(alloc, text.len())?;
    for c in text.chars() {
        push_in_lines(alloc, &mut lines, c)?;
    }
    Ok(lines)
}

/// Appends a character, or its escape where it is a control character.
fn push_shown(alloc: Global, text: &mut String, c: char) -> Result<(), AllocError>
    ensures { OnOk result (string_bytes text.new ≡ string_bytes text.old ++ shown_char c) }
{
    if c.is_control() {
        let escape = escape(alloc, c)?;
        text.push_str(escape.as_str())
    } else {
        text.push(c)
    }
}

/// Appends a line feed, or another character as it is shown.
fn push_in_lines(alloc: Global, text: &mut String, c: char) -> Result<(), AllocError>
    ensures { OnOk result (string_bytes text.new ≡ string_bytes text.old ++ shown_in_lines c) }
{
    if c == '\n' {
        text.push(c)
    } else {
        push_shown(alloc, text, c)
    }
}

/// The escape of a character.
fn escape(alloc: Global, c: char) -> Result<String, AllocError>
    ensures { IfOk result (λ text. string_bytes text ≡ escape c) }
{
    let code = u32::from(c);
    format!(in alloc; "\\u{{{code:x}}}")
}
