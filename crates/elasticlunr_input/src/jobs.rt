//! The index of a job.
ghost use Rattle.std.specs.Prelude.{◌≡◌, true, IfOk, IfErr, IfSome, IfNone, OnOk};
ghost use Rattle.elasticlunr.specs.Fields.{all_differ, borrowed};
ghost use Rattle.elasticlunr_job_format.specs.JobTold.{job_told};
ghost use Rattle.elasticlunr_job_format.specs.JobError.{StopsWithReason};
ghost use Rattle.elasticlunr_job_format.specs.declared.outcome.Refusal.{Refusal};
ghost use Rattle.elasticlunr_input.specs.FaultPlaces.{IsPlaceInJob, IsPlaceOfField};
ghost use Rattle.elasticlunr_input.specs.FaultPlaces.{IsPlaceOfLanguage, IsPlaceOfRefusal};
ghost use Rattle.elasticlunr_input.specs.FaultPlaces.{IsPlaceOfTooLong};
ghost use Rattle.elasticlunr_input.specs.FirstFaults.{AllFit, IsFirstTooLong, IsFirstTwice};
ghost use Rattle.elasticlunr_input.specs.NotedAll.{AreNotedUnder, IsNotedJob};
ghost use Rattle.elasticlunr_input.specs.Settled.{IsMadeWith, IsRefusedWith, settings_told};
ghost use Rattle.serde_json.specs.View.{view};

use crate::notes::Notes;
use crate::settings::{Settings, job_reference, rules_of, settle};
use elasticlunr_diagnostics::job_fault::fault_message;
use elasticlunr_diagnostics::language::unknown_language;
use elasticlunr_diagnostics::message::{InputError, Message, counted, message_at, unplaced};
use elasticlunr_job::answer::job_made_by;
use elasticlunr_job::fault::first_fault;
use elasticlunr_job::job::{Document, Job, parse};
use elasticlunr_job::make::Make;
use elasticlunr_job::outcome::{JobError, Refusal};
use elasticlunr_json_place::member::Step;
use serde_json::Value;
use std::alloc::{AllocError, Global};

/// What is made of the index that a job asks for, with the settings instead of its members; what is
/// suspicious in its documents goes to the notes.
pub(crate) fn job_made_of<'a, M: Make>(
    alloc: Global,
    value: &'a Value,
    settings: &'a Settings,
    notes: &mut Notes,
    maker: &M,
) -> Result<M::Made, JobError>
    ensures ok { IfOk result (λ made.
        IsMadeWith (settings_told settings.now) (view value.now) (M.makes maker.now made)) }
    ensures noted { OnOk result
        (IsNotedJob (settings_told settings.now) (view value.now) notes.old notes.new) }
    ensures err { IfErr result (StopsWithReason
        (IsRefusedWith (settings_told settings.now) (view value.now))) }
{
    let own = parse(alloc, value)?;
    let reference = job_reference(alloc, &own, settings)?;
    let job = settle(alloc, own, settings, reference.as_str())?;
    let rules = rules_of(alloc, &settings.rules)?;
    let made = job_made_by(alloc, &job, &rules, maker)?;
    note_documents(&job, settings, notes)?;
    Ok(made)
}

/// Notes what is suspicious in the documents of a job.
fn note_documents(job: &Job<'_>, settings: &Settings, notes: &mut Notes) -> Result<(), AllocError>
    ensures { OnOk result (AreNotedUnder (settings_told settings.now).rules (job_told job.now)
        notes.old notes.new) }
{
    notes.rules(&job.fields, settings)?;
    for doc in &job.docs {
        notes.document(doc.reference, &doc.values)?;
    }
    notes.end(&job.fields)
}

/// The message of a refusal of a job, with the settings instead of its members.
pub(crate) fn job_refused<'a>(
    alloc: Global,
    text: &[u8],
    value: &'a Value,
    settings: &'a Settings,
    refusal: Refusal,
) -> Result<Message, AllocError>
    ensures { IfOk result (λ message. IfSome message.place
        (IsPlaceInJob (settings_told settings.now) text.now (view value.now) refusal)) }
{
    if let Some(fault) = first_fault(value) {
        return fault_message(alloc, text, value, fault);
    }
    match parse(alloc, value) {
        Ok(own) => {
            let reference = job_reference(alloc, &own, settings)?;
            let job = settle(alloc, own, settings, reference.as_str())?;
            job_fault(alloc, text, &job, settings, refusal)
        }
        Err(JobError::Memory) => Err(AllocError),
        Err(JobError::Refused(_)) => Ok(unplaced(String::from_str(alloc, "not a job")?)),
    }
}

/// What is wrong with a job with these settings. What the settings say has no place in the text.
fn job_fault(
    alloc: Global,
    text: &[u8],
    job: &Job<'_>,
    settings: &Settings,
    refusal: Refusal,
) -> Result<Message, AllocError>
    ensures { IfOk result (λ message. IfSome message.place
        (IsPlaceOfRefusal (settings_told settings.now) text.now (job_told job.now) refusal)) }
{
    match refusal {
        Refusal::UnknownLanguage => unknown_in(alloc, text, job, settings),
        Refusal::DuplicateField => field_twice(alloc, text, job, settings),
        Refusal::TooManyValues => too_many_values(alloc, text, job),
        _ => Ok(unplaced(String::from_str(alloc, "not a job")?)),
    }
}

/// That the language of a job is unknown.
fn unknown_in(
    alloc: Global,
    text: &[u8],
    job: &Job<'_>,
    settings: &Settings,
) -> Result<Message, AllocError>
    ensures { IfOk result (λ message. IfSome message.place
        (IsPlaceOfLanguage (settings_told settings.now) text.now)) }
{
    let said = unknown_language(alloc, job.language)?;
    match settings.language {
        None => message_at(alloc, text, &[Step::Key("lang")], said),
        Some(_) => Ok(unplaced(said)),
    }
}

/// That a job has a field twice.
fn field_twice(
    alloc: Global,
    text: &[u8],
    job: &Job<'_>,
    settings: &Settings,
) -> Result<Message, AllocError>
    ensures { IfOk result (λ message. IfSome message.place
        (IsPlaceOfField (settings_told settings.now) text.now (job_told job.now))) }
{
    let said = duplicate_field(alloc, &job.fields)?;
    match (&settings.fields, second_of(&job.fields)) {
        (None, Some(number)) => {
            let path = [Step::Key("fields"), Step::Item(number)];
            message_at(alloc, text, &path, said)
        }
        _ => Ok(unplaced(said)),
    }
}

/// The number of the first field that has the name of one before it.
fn second_of(fields: &[&str]) -> Option<usize>
    ensures some { IfSome result (IsFirstTwice (borrowed fields.now)) }
    ensures none { IfNone result (all_differ (borrowed fields.now) ≡ true) }
{
    for (number, field) in fields.iter().enumerate() {
        if fields[..number].contains(field) {
            return Some(number);
        }
    }
    None
}

/// That a field comes twice.
pub(crate) fn duplicate_field(alloc: Global, fields: &[&str]) -> Result<String, AllocError> {
    let Some(number) = second_of(fields) else {
        return String::from_str(alloc, "a field of `--fields` comes twice");
    };
    let name = match fields.get(number) {
        Some(name) => *name,
        None => "",
    };
    format!(in alloc; "the field \"{name}\" comes twice")
}

/// The first document with more values than there are fields, and its number.
fn first_too_long<'j, 'a>(job: &'j Job<'a>) -> Option<(usize, &'j Document<'a>)>
    ensures some { let told = job_told job.now in IfSome result
        (λ found. IsFirstTooLong told.fields told.docs found.0) }
    ensures none { let told = job_told job.now in IfNone result (AllFit told.fields told.docs) }
{
    let most = job.fields.len();
    for (number, doc) in job.docs.iter().enumerate() {
        if doc.values.len() > most {
            return Some((number, doc));
        }
    }
    None
}

/// The first document with more values than there are fields.
fn too_many_values(alloc: Global, text: &[u8], job: &Job<'_>) -> Result<Message, AllocError>
    ensures { IfOk result (λ message.
        IfSome message.place (IsPlaceOfTooLong text.now (job_told job.now))) }
{
    let Some((number, doc)) = first_too_long(job) else {
        let said = "a document has more values than `--fields` has names";
        return Ok(unplaced(String::from_str(alloc, said)?));
    };
    let (count, reference) = (number.saturating_add(1), doc.reference);
    let (values, most) = (doc.values.len(), job.fields.len());
    let values = counted(alloc, values, "value")?;
    let fields = counted(alloc, most, "field")?;
    let said = format!(in alloc; "document {count} (\"{reference}\"): {values} for {fields}")?;
    message_at(alloc, text, &[Step::Key("docs"), Step::Item(number)], said)
}
