//! The text of the index of documents as JSON objects, in the form that `addDoc` of elasticlunr.js
//! takes.

ghost use Rattle.std.specs.Prelude.{◌≡◌, IfOk, IfErr, map, string_bytes};
ghost use Rattle.serde_json.specs.View.{view};
ghost use Rattle.elasticlunr_job_format.specs.JobTold.{document_told, job_told};
ghost use Rattle.elasticlunr_job_format.specs.Objects.{AreDocumentsOf};
ghost use Rattle.elasticlunr_job_format.specs.ObjectsTold.{object_told, options_told};
ghost use Rattle.elasticlunr_documents.specs.Objects.{FailsObjects, IsLineOfObjects};
ghost use Rattle.elasticlunr_documents.specs.Objects.{IsMadeOfObjects, job_of};
ghost use Rattle.elasticlunr_documents.specs.ObjectsTold.{stop_at};

use elasticlunr_job::answer::job_made_by;
use elasticlunr_job::make::{Line, Make};
use elasticlunr_job::outcome::{JobError, Refusal};
use elasticlunr_job_format::job::{Document, Job};
pub use elasticlunr_job_format::objects::{AddError, Object, ObjectFault, Options, object_of};
use serde_json::Value;
use std::alloc::{AllocError, AllocFailed, Global};

/// Why the index of objects is not printed.
#[derive(Clone, Copy)]
pub enum ObjectsError {
    /// The language is unknown, or a field stands twice.
    Refused(Refusal),
    /// The number of the first document that is none, from 1, and what is wrong with it.
    Document(usize, ObjectFault),
    Memory,
}

impl From<AllocError> for ObjectsError {
    ghost use Rattle.elasticlunr_documents.specs.declared.objects.ObjectsError.TheVariants.{Memory};
    ghost use Rattle.std.specs.Prelude.{◌≡◌};

    ghost from_gives = { λ _ e. e ≡ Memory };

    fn from(_refused: AllocError) -> ObjectsError {
        ObjectsError::Memory
    }
}

impl<T: Drop> From<AllocFailed<T>> for ObjectsError {
    ghost use Rattle.elasticlunr_documents.specs.declared.objects.ObjectsError.TheVariants.{Memory};
    ghost use Rattle.std.specs.Prelude.{◌≡◌};

    ghost from_gives = { λ _ e. e ≡ Memory };

    fn from(_refused: AllocFailed<T>) -> ObjectsError {
        ObjectsError::Memory
    }
}

/// How a document with this number that is not added stops all.
fn stop_at(number: usize, e: AddError) -> ObjectsError
    ensures { result ≡ stop_at number e }
{
    match e {
        AddError::ObjectFault(problem) => ObjectsError::Document(number, problem),
        AddError::Memory => ObjectsError::Memory,
    }
}

/// The documents that these values are, in order.
pub fn objects_of<'a>(
    alloc: Global,
    options: &Options<'_>,
    items: &'a [Value],
) -> Result<Vec<Object<'a>>, ObjectsError>
    ensures ok { IfOk result (λ objects.
        AreDocumentsOf (options_told options.now) (map view items.now)
        (map object_told objects.items)) }
    ensures err { IfErr result (FailsObjects (options_told options.now) (map view items.now)) }
{
    let mut objects = Vec::with_capacity(alloc, items.len())?;
    for (i, item) in items.iter().enumerate() {
        match object_of(alloc, options, item) {
            Ok(object) => objects.push(object)?,
            Err(e) => return Err(stop_at(i + 1, e)),
        }
    }
    Ok(objects)
}

/// A document of a job, which borrows the texts.
fn document_of<'a>(alloc: Global, object: &'a Object<'a>) -> Result<Document<'a>, AllocError>
    ensures { IfOk result (λ doc. document_told doc ≡ object_told object.now) }
{
    Ok(Document {
        reference: object.reference.as_str(),
        values: object.values(alloc)?,
    })
}

/// The job of these options with these documents, whose texts it borrows.
fn job_of<'a>(
    alloc: Global,
    options: &Options<'a>,
    objects: &'a [Object<'a>],
) -> Result<Job<'a>, AllocError>
    ensures { IfOk result (λ job.
        job_told job ≡ job_of (options_told options.now) (map object_told objects.now)) }
{
    let mut docs = Vec::with_capacity(alloc, objects.len())?;
    for object in objects {
        docs.push(document_of(alloc, object)?)?;
    }
    Ok(Job {
        fields: Vec::from_slice(alloc, &options.fields)?,
        docs,
        reference_field: options.reference_field,
        save: options.save,
        language: options.language,
        pretty: options.pretty,
        remove: Vec::new(alloc),
        compact: false,
    })
}

/// What is made of the index of these objects. Their texts are not copied, but into the index. All
/// are read before the first is added.
pub fn objects_made<M: Make>(
    alloc: Global,
    options: &Options<'_>,
    items: &[Value],
    maker: &M,
) -> Result<M::Made, ObjectsError>
    ensures ok { IfOk result (λ made.
        IsMadeOfObjects (options_told options.now) (map view items.now) (M.makes maker.now made)) }
    ensures err { IfErr result (FailsObjects (options_told options.now) (map view items.now)) }
{
    let objects = objects_of(alloc, options, items)?;
    let job = job_of(alloc, options, &objects)?;
    match job_made_by(alloc, &job, &options.rules, maker) {
        Ok(made) => Ok(made),
        Err(JobError::Refused(refusal)) => Err(ObjectsError::Refused(refusal)),
        Err(JobError::Memory) => Err(ObjectsError::Memory),
    }
}

/// The text of the index of these objects, and a line feed.
pub fn objects_line(
    alloc: Global,
    options: &Options<'_>,
    items: &[Value],
) -> Result<String, ObjectsError>
    ensures ok { IfOk result (λ text.
        IsLineOfObjects (options_told options.now) (map view items.now) (string_bytes text)) }
    ensures err { IfErr result (FailsObjects (options_told options.now) (map view items.now)) }
{
    objects_made(alloc, options, items, &Line)
}
