//! In which form the documents come.
ghost use Rattle.std.specs.Prelude.{◌≡◌, ◌≢◌, Some, None, not, IfOk, IfErr, IfSome, IfNone, find};
ghost use Rattle.std.specs.Prelude.{option_map};
ghost use Rattle.elasticlunr_job_format.specs.Lines.{is_filled, is_space, lines_of};
ghost use Rattle.elasticlunr_diagnostics.specs.Forms.{asked_or_told, begins_an_array, form_word};
ghost use Rattle.elasticlunr_diagnostics.specs.Forms.{has, is_object_line, line_form, told_form};
ghost use Rattle.elasticlunr_diagnostics.specs.Forms.{value_form};
ghost use Rattle.elasticlunr_job_format.specs.Reading.{reading};
ghost use Rattle.elasticlunr_json_place.specs.Places.{IsPlaceIn};
ghost use Rattle.elasticlunr_diagnostics.specs.Messages.{IfPlaced, IsMemoryOr, IsMemoryOrPlaced};
ghost use Rattle.elasticlunr_diagnostics.specs.declared.form.Form.{Form};
ghost use Rattle.serde_json.specs.View.{view};

use crate::message::{InputError, not_json};
use elasticlunr_job_format::lines::{is_blank, is_space};
use serde_json::Value;
use std::alloc::{AllocError, Global};

/// The form of an input.
#[derive(Clone, Copy)]
pub enum Form {
    /// One object with fields and documents.
    Job,
    /// An array of objects, each a document.
    Objects,
    /// A line for each object.
    Lines,
}

/// The form that a word names.
pub fn form_of(word: &str) -> Option<Form>
    ensures some { IfSome result (λ form. form_word form ≡ word.now) }
    ensures none { IfNone result ((form : Form) → form_word form ≢ word.now) }
{
    match word {
        "job" => Some(Form::Job),
        "objects" => Some(Form::Objects),
        "lines" => Some(Form::Lines),
        _ => None,
    }
}

/// The form that was asked for, or else that of the text, by its first line that isn't blank: one
/// that begins with `[` begins an array of objects; an object with neither `docs` nor `fields` is
/// the first of lines, and all else is a job, or begins one. So documents as lines, the first of
/// which has a key `docs` or `fields`, have to be asked for.
pub fn asked_or_told(alloc: Global, text: &[u8], asked: Option<Form>) -> Result<Form, AllocError>
    ensures { IfOk result (λ form. form ≡ asked_or_told asked text.now) }
{
    match asked {
        Some(form) => Ok(form),
        None => told_form(alloc, text),
    }
}

/// The form of a text.
fn told_form(alloc: Global, text: &[u8]) -> Result<Form, AllocError>
    ensures { IfOk result (λ form. form ≡ told_form text.now) }
{
    match first_filled(text) {
        Some(line) => line_form(alloc, line),
        None => Ok(Form::Job),
    }
}

/// The form by a first line.
fn line_form(alloc: Global, line: &[u8]) -> Result<Form, AllocError>
    ensures { IfOk result (λ form. form ≡ line_form line.now) }
{
    if begins_an_array(line) {
        return Ok(Form::Objects);
    }
    match Value::from_slice(alloc, line) {
        Ok(value) => Ok(value_form(&value)),
        Err(e) if e.is_memory() => Err(AllocError),
        Err(_) => Ok(Form::Job),
    }
}

/// Whether the first byte that is no space is `[`.
fn begins_an_array(line: &[u8]) -> bool
    ensures { result ≡ begins_an_array line.now }
{
    match first_byte(line) {
        Some(byte) => byte == b'[',
        None => false,
    }
}

/// The first byte that is no space.
pub(crate) fn first_byte(line: &[u8]) -> Option<u8>
    ensures { result ≡ find (λ b. not (is_space b)) line.now }
{
    line.iter().copied().find(|byte| !is_space(*byte))
}

/// The form by a first line with this value.
fn value_form(value: &Value) -> Form
    ensures { result ≡ value_form (view value.now) }
{
    if is_object_line(value) {
        Form::Lines
    } else {
        Form::Job
    }
}

/// Whether a value is an object with neither documents nor fields.
fn is_object_line(value: &Value) -> bool
    ensures { result ≡ is_object_line (view value.now) }
{
    value.is_object() && !(has(value, "docs") || has(value, "fields"))
}

/// Whether a value has a member under this key.
fn has(value: &Value, key: &str) -> bool
    ensures { result ≡ has key.now (view value.now) }
{
    value.get(key).is_some()
}

/// The first line that isn't blank.
fn first_filled(text: &[u8]) -> Option<&[u8]>
    ensures { option_map (λ line. line.now) result ≡ find is_filled (lines_of text.now) }
{
    text.split(|byte| *byte == b'\n')
        .find(|line| !is_blank(line))
}

/// Reads the value that a whole text is.
pub fn read_value(alloc: Global, text: &[u8]) -> Result<Value, InputError>
    ensures ok { IfOk result (λ value. reading text.now ≡ Some (view value)) }
    ensures err { IfErr result (IsMemoryOr (reading text.now ≡ None)) }
    ensures place { IfErr result (IfPlaced (IsPlaceIn text.now)) }
    ensures placed { IfErr result IsMemoryOrPlaced }
{
    match Value::from_slice(alloc, text) {
        Ok(value) => Ok(value),
        Err(e) if e.is_memory() => Err(InputError::Memory),
        Err(e) => Err(InputError::Refused(not_json(alloc, text, &e)?)),
    }
}
