//! Documents as JSON objects, in the form that `addDoc` of elasticlunr.js takes.
//!
//! The member under the reference key is the reference, a text or a whole number. The member under
//! a field's name is its text, the empty text where it is absent. Where the reference is a field,
//! its text is the reference. Other members are passed over.

ghost use Rattle.std.specs.Prelude.{◌≡◌, ◌&&◌, not, IfOk, IfErr, option_map, string_bytes};
ghost use Rattle.std.specs.Prelude.{bytes_eq};
ghost use Rattle.serde_json.specs.View.{view};
ghost use Rattle.elasticlunr_job_format.specs.Objects.{HasNoText, HasProblem};
ghost use Rattle.elasticlunr_job_format.specs.Objects.{IsDocumentOf, is_reference, reference_of};
ghost use Rattle.elasticlunr_job_format.specs.ObjectsTold.{HasFieldProblem, HasTextOr};
ghost use Rattle.elasticlunr_job_format.specs.ObjectsTold.{HaveTextsOr, IsMemoryOr, IsNoTextUnder};
ghost use Rattle.elasticlunr_job_format.specs.ObjectsTold.{IsUnder};
ghost use Rattle.elasticlunr_job_format.specs.ObjectsTold.{object_told, options_told, texts_told};

use crate::kind::{Kind, kind_of};
use crate::rules::WordRules;
use serde_json::Value;
use std::alloc::{AllocError, AllocFailed, Global};

/// How documents are read of objects, and how their index is built and printed. The language goes
/// by its name, as `German`.
#[derive(Drop)]
pub struct Options<'a> {
    /// The key under which an object has its reference.
    pub reference_key: &'a str,
    /// The name under which the index has it: that key, unless the reference is a field.
    pub reference_field: &'a str,
    pub fields: Vec<&'a str>,
    pub language: &'a str,
    pub save: bool,
    pub pretty: bool,
    /// Which words are indexed.
    pub rules: Option<WordRules<'a>>,
}

impl Options<'_> {
    /// Whether the reference is a field, this one.
    fn is_reference(&self, field: &str) -> bool
        ensures { result ≡ is_reference (options_told self.now) field.now }
    {
        self.reference_key == field && self.reference_key != self.reference_field
    }
}

/// What is wrong with a document: the first check that it fails.
#[derive(Clone, Copy)]
pub enum ObjectFault {
    /// It is a line that is not JSON.
    NotJson,
    /// It is of this kind, and no object.
    NotAnObject(Kind),
    /// It has no member under the reference key.
    NoReference,
    /// That member is of this kind, and neither a text nor a whole number of 64 bits.
    NotAReference(Kind),
    /// The member of the field with this place is of this kind, and no text.
    NotAText(usize, Kind),
}

/// Why a document was not added.
#[derive(Clone, Copy)]
pub enum AddError {
    ObjectFault(ObjectFault),
    Memory,
}

impl From<AllocError> for AddError {
    ghost use Rattle.elasticlunr_job_format.specs.declared.objects.AddError.TheVariants.{Memory};
    ghost use Rattle.std.specs.Prelude.{◌≡◌};

    ghost from_gives = { λ _ e. e ≡ Memory };

    fn from(_refused: AllocError) -> AddError {
        AddError::Memory
    }
}

impl<T: Drop> From<AllocFailed<T>> for AddError {
    ghost use Rattle.elasticlunr_job_format.specs.declared.objects.AddError.TheVariants.{Memory};
    ghost use Rattle.std.specs.Prelude.{◌≡◌};

    ghost from_gives = { λ _ e. e ≡ Memory };

    fn from(_refused: AllocFailed<T>) -> AddError {
        AddError::Memory
    }
}

/// A document, as read of an object: its reference, its texts in the order of the fields, and the
/// object itself.
#[derive(Drop)]
pub struct Object<'a> {
    pub reference: String,
    /// The text of each field; none where it is the reference.
    texts: Vec<Option<&'a str>>,
    pub value: &'a Value,
}

impl Object<'_> {
    /// The texts of the fields, in order.
    pub fn values(&self, alloc: Global) -> Result<Vec<&str>, AllocError>
        ensures { IfOk result (λ values. texts_told values.items ≡ (object_told self.now).values) }
    {
        let mut values = Vec::with_capacity(alloc, self.texts.len())?;
        for text in &self.texts {
            values.push((*text).unwrap_or(self.reference.as_str()))?;
        }
        Ok(values)
    }
}

/// The reference that a member is, if it is one.
fn reference_of(alloc: Global, member: &Value) -> Result<Option<String>, AllocError>
    ensures { IfOk result (λ found. option_map string_bytes found ≡ reference_of (view member.now)) }
{
    if let Some(text) = member.as_str() {
        return Ok(Some(String::from_str(alloc, text)?));
    }
    match member.as_u64() {
        Some(n) => Ok(Some(format!(in alloc; "{n}")?)),
        None => Ok(None),
    }
}

/// The text under the key of a field, or the kind of what is there.
fn text_under<'a>(value: &'a Value, field: &str) -> Result<&'a str, Kind>
    ensures ok { IfOk result (λ text. IsUnder (view value.now) field.now text.now) }
    ensures err { IfErr result (IsNoTextUnder (view value.now) field.now) }
{
    match value.get(field) {
        Some(member) => member.as_str().ok_or(kind_of(member)),
        None => Ok(""),
    }
}

/// The text of a field, none where it is the reference; or the kind of what is there.
fn text_of<'a>(
    options: &Options<'_>,
    value: &'a Value,
    field: &str,
) -> Result<Option<&'a str>, Kind>
    ensures ok { IfOk result (HasTextOr (options_told options.now) (view value.now) field.now) }
    ensures err { IfErr result (HasNoText (options_told options.now) (view value.now) field.now) }
{
    if options.is_reference(field) {
        return Ok(None);
    }
    match text_under(value, field) {
        Ok(text) => Ok(Some(text)),
        Err(kind) => Err(kind),
    }
}

/// The texts of the fields, in order; none where the field is the reference.
fn texts_of<'a>(
    alloc: Global,
    options: &Options<'_>,
    value: &'a Value,
) -> Result<Vec<Option<&'a str>>, AddError>
    ensures ok { IfOk result (λ found. HaveTextsOr (options_told options.now) (view value.now)
        (options_told options.now).fields found.items) }
    ensures err { IfErr result (IsMemoryOr (HasFieldProblem (options_told options.now)
        (view value.now) (options_told options.now).fields)) }
{
    let mut found = Vec::with_capacity(alloc, options.fields.len())?;
    for (i, field) in options.fields.iter().enumerate() {
        match text_of(options, value, *field) {
            Ok(text) => found.push(text)?,
            Err(kind) => return Err(AddError::ObjectFault(ObjectFault::NotAText(i, kind))),
        }
    }
    Ok(found)
}

/// The document that a value is. Its reference alone is copied.
pub fn object_of<'a>(
    alloc: Global,
    options: &Options<'_>,
    value: &'a Value,
) -> Result<Object<'a>, AddError>
    ensures ok { IfOk result (λ object. IsDocumentOf (options_told options.now) (view value.now)
        (object_told object)) }
    ensures whole { IfOk result (λ object. object.value.now ≡ value.now) }
    ensures err { IfErr result (IsMemoryOr
        (HasProblem (options_told options.now) (view value.now))) }
{
    if !value.is_object() {
        return Err(AddError::ObjectFault(ObjectFault::NotAnObject(kind_of(value))));
    }
    let Some(member) = value.get(options.reference_key) else {
        return Err(AddError::ObjectFault(ObjectFault::NoReference));
    };
    let Some(reference) = reference_of(alloc, member)? else {
        return Err(AddError::ObjectFault(ObjectFault::NotAReference(kind_of(member))));
    };
    let texts = texts_of(alloc, options, value)?;
    Ok(Object {
        reference,
        texts,
        value,
    })
}
