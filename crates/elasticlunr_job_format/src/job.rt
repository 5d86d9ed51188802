//! The job: what the input asks for. Its texts are those of the JSON value, which it borrows.

ghost use Rattle.std.specs.Prelude.{◌≡◌, ◌≢◌, ℕ, List, Bool, map, string_bytes, IfOk, IfErr};
ghost use Rattle.std.specs.Prelude.{IfSome, IsSomeAnd, Any, Some, []};
ghost use Rattle.serde_json.specs.Data.{Data, boolean, string, array};
ghost use Rattle.serde_json.specs.Find.{get};
ghost use Rattle.serde_json.specs.View.{view, items_of};
ghost use Rattle.std.specs.List.{list_all};
ghost use Rattle.std.specs.BTreeMap.{keys};
ghost use Rattle.elasticlunr_job_format.specs.Job.{texts, document, get_or, IsJob, IsNoJob};
ghost use Rattle.elasticlunr_job_format.specs.Job as spec;
ghost use Rattle.elasticlunr_job_format.specs.JobTold.{document_told, job_told};
ghost use Rattle.elasticlunr_job_format.specs.JobError.{StopsOnlyBy};
ghost use Rattle.elasticlunr_job_format.specs.Keys.{is_job_key};
ghost use Rattle.elasticlunr_job_format.specs.declared.outcome.Refusal.TheVariants.{NotAJob};

use crate::key::is_job_key;
use crate::outcome::{JobError, Refusal};
use serde_json::{Map, Value};
use std::alloc::Global;

/// A document: its reference, and its values in the order of the fields.
#[derive(Drop)]
pub struct Document<'a> {
    pub reference: &'a str,
    pub values: Vec<&'a str>,
}

/// What the members of the input say, each absent one as its default.
#[derive(Drop)]
pub struct Job<'a> {
    pub fields: Vec<&'a str>,
    pub docs: Vec<Document<'a>>,
    pub reference_field: &'a str,
    pub save: bool,
    pub language: &'a str,
    pub pretty: bool,
    pub remove: Vec<&'a str>,
    pub compact: bool,
}

const NOT_A_JOB: JobError = JobError::Refused(Refusal::NotAJob);

/// What a member of a job is: a text, a truth value, or an array.
trait Member<'a>: Sized + Drop {
    /// The JSON value that it represents.
    ghost told: { Self → Data };

    /// A JSON value represents none.
    ghost IsOther: { Data → Type 0 };

    /// What this JSON value represents.
    fn read(alloc: Global, value: &'a Value) -> Result<Self, JobError>
        ensures ok { IfOk result (λ member. view value.now ≡ told member) }
        ensures err { IfErr result (StopsOnlyBy NotAJob (IsOther (view value.now))) };
}

impl<'a> Member<'a> for &'a str {
    ghost told = { λ s. string s.now };

    ghost IsOther = { λ d. (s : List ℕ) → d ≢ string s };

    fn read(_alloc: Global, value: &'a Value) -> Result<&'a str, JobError> {
        value.as_str().ok_or(NOT_A_JOB)
    }
}

impl<'a> Member<'a> for bool {
    ghost told = { boolean };

    ghost IsOther = { λ d. (b : Bool) → d ≢ boolean b };

    fn read(_alloc: Global, value: &'a Value) -> Result<bool, JobError> {
        value.as_bool().ok_or(NOT_A_JOB)
    }
}

impl<'a, T: Member<'a>> Member<'a> for Vec<T> {
    ghost told = { λ members. array (items_of (map T.told members.items)) };

    ghost IsOther = { λ d. (items : List Data) → d ≡ array (items_of items)
        → Any T.IsOther items };

    fn read(alloc: Global, value: &'a Value) -> Result<Vec<T>, JobError> {
        let Some(items) = value.as_array() else {
            return Err(NOT_A_JOB);
        };
        let mut members = Vec::with_capacity(alloc, items.len())?;
        for item in items {
            members.push(T::read(alloc, item)?)?;
        }
        Ok(members)
    }
}

/// A non-empty array of texts: the first is the reference.
impl<'a> Member<'a> for Document<'a> {
    ghost told = { λ doc. document (document_told doc) };

    ghost IsOther = { λ d. (doc : spec.Document) → d ≢ document doc };

    fn read(alloc: Global, value: &'a Value) -> Result<Document<'a>, JobError> {
        let mut texts = Vec::<&'a str>::read(alloc, value)?;
        if texts.is_empty() {
            return Err(NOT_A_JOB);
        }
        let reference = texts.remove(0);
        Ok(Document {
            reference,
            values: texts,
        })
    }
}

/// Whether no key of an object is another than those of a job.
fn has_only_job_keys(members: &Map<String, Value>) -> bool
    ensures { result ≡ list_all (λ key. is_job_key (string_bytes key)) (keys members.now) }
{
    members.keys().all(|key| is_job_key(key.as_str()))
}

/// The member under a key, or this where the key is absent.
fn member_or<'a, T: Member<'a>>(
    alloc: Global,
    value: &'a Value,
    key: &str,
    absent: T,
) -> Result<T, JobError>
    ensures ok { IfOk result (λ member. get_or key.now (view value.now) (T.told absent)
        ≡ T.told member) }
    ensures err { IfErr result (StopsOnlyBy NotAJob
        (IsSomeAnd (get key.now (view value.now)) T.IsOther)) }
{
    match value.get(key) {
        Some(member) => T::read(alloc, member),
        None => Ok(absent),
    }
}

/// The member under a key that has to be there.
fn required<'a, T: Member<'a>>(alloc: Global, value: &'a Value, key: &str) -> Result<T, JobError>
    ensures ok { IfOk result (λ member. get key.now (view value.now) ≡ Some (T.told member)) }
    ensures err { IfErr result (StopsOnlyBy NotAJob
        (IfSome (get key.now (view value.now)) T.IsOther)) }
{
    match value.get(key) {
        Some(member) => T::read(alloc, member),
        None => Err(NOT_A_JOB),
    }
}

/// The job that a value is: an object with the keys of a job and no others, each member of its
/// kind. `null` is of no kind.
pub fn parse<'a>(alloc: Global, value: &'a Value) -> Result<Job<'a>, JobError>
    ensures ok { IfOk result (λ job. IsJob (view value.now) (job_told job)) }
    ensures err { IfErr result (StopsOnlyBy NotAJob (IsNoJob (view value.now))) }
{
    let Some(members) = value.as_object() else {
        return Err(NOT_A_JOB);
    };
    if !has_only_job_keys(members) {
        return Err(NOT_A_JOB);
    }
    Ok(Job {
        fields: required(alloc, value, "fields")?,
        docs: required(alloc, value, "docs")?,
        reference_field: member_or(alloc, value, "ref", "id")?,
        save: member_or(alloc, value, "save", true)?,
        language: member_or(alloc, value, "lang", "English")?,
        pretty: member_or(alloc, value, "pretty", false)?,
        remove: member_or(alloc, value, "remove", Vec::new(alloc))?,
        compact: member_or(alloc, value, "compact", false)?,
    })
}
