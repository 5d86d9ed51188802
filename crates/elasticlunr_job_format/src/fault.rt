//! What keeps a JSON value from being a job.

ghost use Rattle.std.specs.Prelude.{◌≡◌, map, not, find, string_bytes, option_copied, IfSome};
ghost use Rattle.std.specs.Prelude.{IfNone, OnSome};
ghost use Rattle.std.specs.BTreeMap.{keys};
ghost use Rattle.serde_json.specs.View.{view};
ghost use Rattle.elasticlunr_job_format.specs.Job.{IsNoJob};
ghost use Rattle.elasticlunr_job_format.specs.FaultSteps.{AreDocuments, AreTexts, HasJobKeys};
ghost use Rattle.elasticlunr_job_format.specs.FaultSteps.{HasNeeded, IsADocument, IsFirstMissing};
ghost use Rattle.elasticlunr_job_format.specs.FaultSteps.{IsFitUnder};
ghost use Rattle.elasticlunr_job_format.specs.JobFaults.{turn_of, HasDocumentFault, HasFault};
ghost use Rattle.elasticlunr_job_format.specs.JobFaults.{HasFirstFault, HasMemberFault, IsAJob};
ghost use Rattle.elasticlunr_job_format.specs.JobFaults.{IsFirstNoDocument, IsFirstNoText};
ghost use Rattle.elasticlunr_job_format.specs.JobKeys.{IsWanted};
ghost use Rattle.elasticlunr_job_format.specs.Keys.{is_job_key};
ghost use Rattle.elasticlunr_job_format.specs.Kinds.{kind_of};
ghost use Rattle.elasticlunr_job_format.specs.declared.fault.Fault.{Fault};
ghost use Rattle.elasticlunr_job_format.specs.declared.key.Wanted.TheVariants as wanted;

use crate::key::{Key, Wanted, is_job_key, keys_in_order};
use crate::kind::{Kind, kind_of};
use serde_json::{Map, Value};

/// What keeps a value from being a job.
#[derive(Clone, Copy)]
pub enum Fault<'a> {
    /// It is of this kind, and no object.
    NotAnObject(Kind),
    /// It has this key, which is none of a job.
    UnknownKey(&'a str),
    /// The member under this key is not what has to stand there.
    Member(Key, MemberFault),
    /// It is an object without this key, which a job has.
    Missing(Key),
}

/// Why a member is not what it has to be. Items are numbered from 0.
#[derive(Clone, Copy)]
pub enum MemberFault {
    /// It is of this kind, where another has to stand.
    Other(Kind),
    /// The first item that is no text, and what it is.
    Item(usize, Kind),
    /// The first item that is no document, and what is wrong with it.
    Document(usize, DocumentFault),
}

/// What keeps an item from being a document. Items are numbered from 0.
#[derive(Clone, Copy)]
pub enum DocumentFault {
    /// It is of this kind, and no array.
    NotAList(Kind),
    /// It is an empty array: the reference is missing.
    Empty,
    /// The first item that is no text, and what it is.
    Item(usize, Kind),
}

/// The number of the first value that is no text, and what it is.
fn first_no_text(items: &[Value]) -> Option<(usize, Kind)>
    ensures some { IfSome result (λ found. IsFirstNoText (map view items.now) found.0 found.1) }
    ensures none { IfNone result (AreTexts (map view items.now)) }
{
    for (i, item) in items.iter().enumerate() {
        if !item.is_string() {
            return Some((i, kind_of(item)));
        }
    }
    None
}

/// What keeps a value from being a document.
fn document_fault(value: &Value) -> Option<DocumentFault>
    ensures some { IfSome result (HasDocumentFault (view value.now)) }
    ensures none { IfNone result (IsADocument (view value.now)) }
{
    let Some(items) = value.as_array() else {
        return Some(DocumentFault::NotAList(kind_of(value)));
    };
    if items.is_empty() {
        return Some(DocumentFault::Empty);
    }
    let (number, found) = first_no_text(items)?;
    Some(DocumentFault::Item(number, found))
}

/// The number of the first value that is no document, and what keeps it from being one.
fn first_no_document(items: &[Value]) -> Option<(usize, DocumentFault)>
    ensures some { IfSome result (λ found. IsFirstNoDocument (map view items.now) found.0 found.1) }
    ensures none { IfNone result (AreDocuments (map view items.now)) }
{
    for (i, item) in items.iter().enumerate() {
        if let Some(fault) = document_fault(item) {
            return Some((i, fault));
        }
    }
    None
}

/// What keeps a value from being an array of texts.
fn texts_fault(value: &Value) -> Option<MemberFault>
    ensures some { IfSome result (HasMemberFault wanted.Texts (view value.now)) }
    ensures none { IfNone result (IsWanted wanted.Texts (view value.now)) }
{
    let Some(items) = value.as_array() else {
        return Some(MemberFault::Other(kind_of(value)));
    };
    let (number, found) = first_no_text(items)?;
    Some(MemberFault::Item(number, found))
}

/// What keeps a value from being an array of documents.
fn documents_fault(value: &Value) -> Option<MemberFault>
    ensures some { IfSome result (HasMemberFault wanted.Documents (view value.now)) }
    ensures none { IfNone result (IsWanted wanted.Documents (view value.now)) }
{
    let Some(items) = value.as_array() else {
        return Some(MemberFault::Other(kind_of(value)));
    };
    let (number, fault) = first_no_document(items)?;
    Some(MemberFault::Document(number, fault))
}

/// Why a value is not what it has to be.
fn member_fault(value: &Value, wanted: Wanted) -> Option<MemberFault>
    ensures some { IfSome result (HasMemberFault wanted (view value.now)) }
    ensures none { IfNone result (IsWanted wanted (view value.now)) }
{
    match wanted {
        Wanted::Text if value.is_string() => None,
        Wanted::Truth if value.is_boolean() => None,
        Wanted::Text | Wanted::Truth => Some(MemberFault::Other(kind_of(value))),
        Wanted::Texts => texts_fault(value),
        Wanted::Documents => documents_fault(value),
    }
}

/// What is wrong with the member under a key, if there is one.
fn fault_under(value: &Value, key: Key) -> Option<MemberFault>
    ensures some { IfSome result (λ fault. HasFault (view value.now) (Fault.Member key fault)) }
    ensures none { IfNone result (IsFitUnder (view value.now) key) }
{
    match value.get(key.name()) {
        Some(member) => member_fault(member, key.wanted()),
        None => None,
    }
}

/// The first key of an object that is none of a job.
fn unknown_key(members: &Map<String, Value>) -> Option<&String>
    ensures { option_copied result ≡ find (λ key. not (is_job_key (string_bytes key)))
        (keys members.now) }
{
    members.keys().find(|key| !is_job_key(key.as_str()))
}

/// That a value is no object, or a key of it that is none of a job.
fn key_fault(value: &Value) -> Option<Fault<'_>>
    ensures some { IfSome result (λ fault. HasFault (view value.now) fault × (turn_of fault ≡ 0)) }
    ensures none { IfNone result (HasJobKeys (view value.now)) }
{
    let Some(members) = value.as_object() else {
        return Some(Fault::NotAnObject(kind_of(value)));
    };
    let key = unknown_key(members)?;
    Some(Fault::UnknownKey(key.as_str()))
}

/// The first key that a job has and an object has not.
fn missing(value: &Value) -> Option<Key>
    ensures some { IfSome result (IsFirstMissing (view value.now)) }
    ensures none { IfNone result (HasNeeded (view value.now)) }
{
    if value.get("fields").is_none() {
        return Some(Key::Fields);
    }
    if value.get("docs").is_none() {
        return Some(Key::Docs);
    }
    None
}

/// The first fault of a value: a key that is none of a job, then a member that is not what is
/// wanted, in the order fields, docs, ref, lang, save, pretty, compact and remove, then a member
/// that is missing.
pub fn first_fault(value: &Value) -> Option<Fault<'_>>
    ensures some { IfSome result (HasFirstFault (view value.now)) }
    ensures no_job { OnSome result (IsNoJob (view value.now)) }
    ensures job { IfNone result (IsAJob (view value.now)) }
{
    if let Some(fault) = key_fault(value) {
        return Some(fault);
    }
    for key in keys_in_order() {
        if let Some(fault) = fault_under(value, key) {
            return Some(Fault::Member(key, fault));
        }
    }
    let key = missing(value)?;
    Some(Fault::Missing(key))
}
