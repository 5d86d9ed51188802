//! The index of documents that are objects in an array, and what is wrong with documents.
ghost use Rattle.std.specs.Prelude.{◌≡◌, ◌-◌, ◌∷◌, List, None, map, take, length};
ghost use Rattle.std.specs.Prelude.{if◌then◌else◌, IfOk, IfErr, IfSome, OnOk};
ghost use Rattle.elasticlunr_documents.specs.Objects.{IsMadeOfObjects};
ghost use Rattle.elasticlunr_job_format.specs.Job.{Document};
ghost use Rattle.elasticlunr_job_format.specs.Objects.{AreDocumentsOf, IsDocumentOf};
ghost use Rattle.elasticlunr_job_format.specs.ObjectsTold.{options_told, texts_told};
ghost use Rattle.elasticlunr_input.specs.FaultPlaces.{is_of_member, object_fault_key};
ghost use Rattle.elasticlunr_input.specs.FaultPlaces.{object_fault_path, IsPlaceInObjects};
ghost use Rattle.elasticlunr_json_place.specs.Members.{item, IsPlaceOf};
ghost use Rattle.elasticlunr_input.specs.Fields.{is_field, text_keys};
ghost use Rattle.elasticlunr_input.specs.NotedAll.{AreNotedWith, AreToldOf, IsNoted};
ghost use Rattle.elasticlunr_input.specs.NotedAll.{IsToldOf, Told};
ghost use Rattle.elasticlunr_input.specs.Refused.{IsRefusedObjects};
ghost use Rattle.elasticlunr_diagnostics.specs.Messages.{IfPlaced};
ghost use Rattle.serde_json.specs.View.{view};

use crate::jobs::duplicate_field;
use crate::notes::Notes;
use elasticlunr_diagnostics::language::unknown_language;
use elasticlunr_diagnostics::message::{InputError, Message, kind_words, unplaced};
use elasticlunr_documents::objects::{
    AddError, ObjectFault, ObjectsError, Options, object_of, objects_made,
};
use elasticlunr_job::make::Make;
use elasticlunr_job::outcome::Refusal;
use elasticlunr_json_place::member::{Step, place_of};
use elasticlunr_json_place::place::Place;
use serde_json::Value;
use std::alloc::{AllocError, Global};

/// What is made of the index of objects.
pub(crate) fn objects_made_of<M: Make>(
    alloc: Global,
    text: &[u8],
    items: &[Value],
    options: &Options<'_>,
    maker: &M,
) -> Result<M::Made, InputError>
    ensures ok { IfOk result (λ made.
        IsMadeOfObjects (options_told options.now) (map view items.now) (M.makes maker.now made)) }
    ensures err { IfErr result (IsRefusedObjects (options_told options.now) (map view items.now)) }
    ensures place { IfErr result (IfPlaced (IsPlaceInObjects text.now
        (options_told options.now) (map view items.now))) }
{
    match objects_made(alloc, options, items, maker) {
        Ok(made) => Ok(made),
        Err(ObjectsError::Memory) => Err(InputError::Memory),
        Err(ObjectsError::Refused(refusal)) => {
            Err(InputError::Refused(unplaced(settings_fault(alloc, options, refusal)?)))
        }
        Err(ObjectsError::Document(number, problem)) => {
            let item = items.get(number.saturating_sub(1));
            let place = object_fault_place(alloc, text, options, number, problem)?;
            let text = object_fault_text(alloc, options, number, item, problem)?;
            Err(InputError::Refused(Message { place, text }))
        }
    }
}

/// What is wrong with the settings of an index of objects.
pub(crate) fn settings_fault(
    alloc: Global,
    options: &Options<'_>,
    refusal: Refusal,
) -> Result<String, AllocError> {
    match refusal {
        Refusal::DuplicateField => duplicate_field(alloc, &options.fields),
        Refusal::UnknownLanguage => unknown_language(alloc, options.language),
        _ => String::from_str(alloc, "not objects"),
    }
}

/// The place of what is wrong with the document of this number in an array.
fn object_fault_place(
    alloc: Global,
    text: &[u8],
    options: &Options<'_>,
    number: usize,
    problem: ObjectFault,
) -> Result<Option<Place>, AllocError>
    ensures { IfOk result (λ place. IfSome place
        (IsPlaceOf None (item (number - 1) ∷ object_fault_path (options_told options.now) problem)
        text.now)) }
{
    let item = Step::Item(number.saturating_sub(1));
    let key = Step::Key(object_fault_key(options, problem));
    place_of(alloc, text, None, path_of(&[item, key], problem))
}

/// The steps to what a problem is about: the document, or a member of it.
pub(crate) fn path_of<'p, 'a>(path: &'p [Step<'a>], problem: ObjectFault) -> &'p [Step<'a>]
    ensures { result.now ≡ (if is_of_member problem then path.now else take (length path.now - 1)
        path.now) }
{
    match problem {
        ObjectFault::NotAReference(_) | ObjectFault::NotAText(_, _) => path,
        _ => &path[..path.len().saturating_sub(1)],
    }
}

/// The key of the member that a problem is about.
pub(crate) fn object_fault_key<'a>(options: &Options<'a>, problem: ObjectFault) -> &'a str
    ensures { result.now ≡ object_fault_key (options_told options.now) problem }
{
    match problem {
        ObjectFault::NotAText(number, _) => match options.fields.get(number) {
            Some(field) => *field,
            None => "",
        },
        _ => options.reference_key,
    }
}

/// What is wrong with a document.
pub(crate) fn object_fault_text(
    alloc: Global,
    options: &Options<'_>,
    number: usize,
    value: Option<&Value>,
    problem: ObjectFault,
) -> Result<String, AllocError> {
    let key = object_fault_key(options, problem);
    match problem {
        ObjectFault::NotJson => format!(in alloc; "document {number}: not JSON"),
        ObjectFault::NotAnObject(kind) => {
            let found = kind_words(kind);
            format!(in alloc; "document {number}: expected an object, found {found}")
        }
        ObjectFault::NoReference => {
            format!(in alloc;
                "document {number}: no member \"{key}\", which is its reference; `--ref` names another key"
            )
        }
        ObjectFault::NotAReference(kind) => {
            let found = kind_words(kind);
            format!(in alloc;
                "document {number}, reference \"{key}\": expected a string or a whole number, found {found}"
            )
        }
        ObjectFault::NotAText(_, kind) => {
            let found = kind_words(kind);
            let label = document_label(alloc, options, number, value)?;
            format!(in alloc; "{label}, field \"{key}\": expected a string, found {found}")
        }
    }
}

/// A document by its number, and its reference where that is a text.
fn document_label(
    alloc: Global,
    options: &Options<'_>,
    number: usize,
    value: Option<&Value>,
) -> Result<String, AllocError> {
    let reference = value
        .and_then(|object| object.get(options.reference_key))
        .and_then(Value::as_str);
    match reference {
        Some(reference) => format!(in alloc; "document {number} (\"{reference}\")"),
        None => format!(in alloc; "document {number}"),
    }
}

/// The keys of the first object whose members are texts, but for that of the reference: the fields
/// where none are named.
pub(crate) fn first_fields<'v>(
    alloc: Global,
    value: &'v Value,
    reference_key: &str,
) -> Result<Vec<&'v str>, AllocError>
    ensures { IfOk result (λ fields. texts_told fields.items
        ≡ text_keys reference_key.now (view value.now)) }
{
    let mut fields = Vec::new(alloc);
    let Some(members) = value.as_object() else {
        return Ok(fields);
    };
    for (key, member) in members.iter() {
        if is_field(key.as_str(), member, reference_key) {
            fields.push(key.as_str())?;
        }
    }
    Ok(fields)
}

/// Whether a member is a text under another key than that of the reference.
fn is_field(key: &str, member: &Value, reference_key: &str) -> bool
    ensures { result ≡ is_field reference_key.now (key.now, view member.now) }
{
    member.is_string() && key != reference_key
}

/// Notes what is suspicious in objects that are documents.
pub(crate) fn note_objects(
    alloc: Global,
    options: &Options<'_>,
    items: &[Value],
    notes: &mut Notes,
) -> Result<(), AllocError>
    ensures { OnOk result ((docs : List Document)
        → AreDocumentsOf (options_told options.now) (map view items.now) docs
        → (told : List Told) × AreToldOf (options_told options.now) (map view items.now) told
        × AreNotedWith (options_told options.now).fields told notes.old notes.new) }
{
    for item in items {
        note_object(alloc, options, item, notes)?;
    }
    notes.end(&options.fields)
}

/// Notes what is suspicious in an object that is a document.
pub(crate) fn note_object(
    alloc: Global,
    options: &Options<'_>,
    item: &Value,
    notes: &mut Notes,
) -> Result<(), AllocError>
    ensures { OnOk result ((doc : Document)
        → IsDocumentOf (options_told options.now) (view item.now) doc
        → (told : Told) × IsToldOf (options_told options.now) (view item.now) told
        × IsNoted notes.old notes.new told) }
{
    match object_of(alloc, options, item) {
        Ok(object) => notes.object(&object),
        Err(AddError::Memory) => Err(AllocError),
        Err(AddError::ObjectFault(_)) => Ok(()),
    }
}
