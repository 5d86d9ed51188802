//! What keeps a JSON value from being a job, in words.
ghost use Rattle.std.specs.Prelude.{None, [], ◌∷◌, IfOk, IfSome};
ghost use Rattle.elasticlunr_job_format.specs.JobKeys.{key_name};
ghost use Rattle.elasticlunr_diagnostics.specs.FaultPaths.{document_fault_path, fault_path};
ghost use Rattle.elasticlunr_json_place.specs.Members.{item, under, IsPlaceOf};

use crate::message::{Message, message_at, unfit};
use crate::nearest::nearest;
use elasticlunr_job_format::fault::{DocumentFault, Fault, MemberFault};
use elasticlunr_job_format::key::{Key, Wanted, job_keys};
use elasticlunr_job_format::kind::Kind;
use elasticlunr_json_place::member::Step;
use serde_json::Value;
use std::alloc::{AllocError, Global};

const A_JOB: &str = "a job (an object with \"fields\" and \"docs\")";

/// The message of a fault of a value.
pub fn fault_message(
    alloc: Global,
    text: &[u8],
    value: &Value,
    fault: Fault<'_>,
) -> Result<Message, AllocError>
    ensures { IfOk result (λ message. IfSome message.place
        (IsPlaceOf None (fault_path fault.entry) text.now)) }
{
    match fault {
        Fault::NotAnObject(found) => unfit(alloc, text, &[], "the input", found, A_JOB),
        Fault::UnknownKey(key) => unknown_key(alloc, text, key),
        Fault::Member(key, MemberFault::Other(found)) => other_kind(alloc, text, key, found),
        Fault::Member(key, MemberFault::Item(number, found)) => {
            no_text(alloc, text, key, number, found)
        }
        Fault::Member(key, MemberFault::Document(number, fault)) => {
            no_document(alloc, text, value, key, number, fault)
        }
        Fault::Missing(key) => missing(alloc, text, key),
    }
}

/// That a key is none of a job.
fn unknown_key(alloc: Global, text: &[u8], key: &str) -> Result<Message, AllocError>
    ensures { IfOk result (λ message. IfSome message.place
        (IsPlaceOf None (under key.now ∷ []) text.now)) }
{
    let near = nearest(alloc, key, &job_keys())?;
    let said = match near {
        Some(near) => format!(in alloc;
            "\"{key}\" is not a key of a job; did you mean \"{near}\"?"
        )?,
        None => format!(in alloc; "\"{key}\" is not a key of a job")?,
    };
    message_at(alloc, text, &[Step::Key(key)], said)
}

/// What a member has to be, in words.
fn wanted_words(wanted: Wanted) -> &'static str {
    match wanted {
        Wanted::Text => "a string",
        Wanted::Truth => "true or false",
        Wanted::Texts => "an array of strings",
        Wanted::Documents => "an array of documents",
    }
}

/// That the member under a key is of this kind, where another is expected.
fn other_kind(alloc: Global, text: &[u8], key: Key, found: Kind) -> Result<Message, AllocError>
    ensures { IfOk result (λ message. IfSome message.place
        (IsPlaceOf None (under (key_name key) ∷ []) text.now)) }
{
    let name = key.name();
    let wanted = wanted_words(key.wanted());
    let label = format!(in alloc; "\"{name}\"")?;
    unfit(
        alloc,
        text,
        &[Step::Key(name)],
        label.as_str(),
        found,
        wanted,
    )
}

/// That an item of the member under a key is no text.
fn no_text(
    alloc: Global,
    text: &[u8],
    key: Key,
    number: usize,
    found: Kind,
) -> Result<Message, AllocError>
    ensures { IfOk result (λ message. IfSome message.place
        (IsPlaceOf None (under (key_name key) ∷ item number ∷ []) text.now)) }
{
    let name = key.name();
    let count = number.saturating_add(1);
    let label = format!(in alloc; "\"{name}\", item {count}")?;
    let path = [Step::Key(name), Step::Item(number)];
    unfit(alloc, text, &path, label.as_str(), found, "a string")
}

/// What keeps the document with a number from being one.
fn no_document(
    alloc: Global,
    text: &[u8],
    value: &Value,
    key: Key,
    number: usize,
    fault: DocumentFault,
) -> Result<Message, AllocError>
    ensures { IfOk result (λ message. IfSome message.place
        (IsPlaceOf None (under (key_name key) ∷ item number ∷ document_fault_path fault) text.now)) }
{
    let count = number.saturating_add(1);
    let (docs, item) = (Step::Key(key.name()), Step::Item(number));
    match fault {
        DocumentFault::NotAList(found) => {
            let label = format!(in alloc; "document {count}")?;
            let wanted = "an array of a reference and values";
            unfit(alloc, text, &[docs, item], label.as_str(), found, wanted)
        }
        DocumentFault::Empty => {
            let said = format!(in alloc;
                "document {count}: expected a reference and values, found an empty array"
            )?;
            message_at(alloc, text, &[docs, item], said)
        }
        DocumentFault::Item(place, found) => {
            let label = value_label(alloc, value, number, place)?;
            let path = [docs, item, Step::Item(place)];
            unfit(alloc, text, &path, label.as_str(), found, "a string")
        }
    }
}

/// The words for an item of a document: its reference, or the value of a field.
fn value_label(
    alloc: Global,
    job: &Value,
    number: usize,
    place: usize,
) -> Result<String, AllocError> {
    let count = number.saturating_add(1);
    let Some(before) = place.checked_sub(1) else {
        return format!(in alloc; "document {count}, the reference");
    };
    let reference = job
        .get("docs")
        .and_then(|docs| docs.get(number))
        .and_then(|doc| doc.get(0))
        .and_then(Value::as_str)
        .unwrap_or("");
    let field = job
        .get("fields")
        .and_then(|fields| fields.get(before))
        .and_then(Value::as_str);
    match field {
        Some(field) => format!(in alloc; "document {count} (\"{reference}\"), field \"{field}\""),
        None => format!(in alloc; "document {count} (\"{reference}\"), value {place}"),
    }
}

/// That a member is missing that a job has.
fn missing(alloc: Global, text: &[u8], key: Key) -> Result<Message, AllocError>
    ensures { IfOk result (λ message. IfSome message.place (IsPlaceOf None [] text.now)) }
{
    let name = key.name();
    let said = format!(in alloc; "no \"{name}\": a job is an object with \"fields\" and \"docs\"")?;
    message_at(alloc, text, &[], said)
}
