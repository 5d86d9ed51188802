//! A job, printed and searched.
//!
//! The line of a job's index is read and searched in the job's language. Proved: found are exactly
//! the references that the query finds after the calls of the job. A caller has to know what these
//! are: its documents are added, its references removed, and the index is compacted if it asks for
//! that.
ghost use Rattle.std.specs.Prelude.{IfErr, IfOk};
ghost use Rattle.elasticlunr.specs.Fields.{borrowed};
ghost use Rattle.elasticlunr.specs.Text.{bytes_of};
ghost use Rattle.elasticlunr_job_format.specs.JobTold.{job_told};
ghost use Rattle.elasticlunr_uses.specs.Found.{FindsInJob};
ghost use Rattle.elasticlunr_uses.specs.Stops.{FindsNothingIn};

use crate::error::UseError;
use crate::query::{Query, found_in_text};
use elasticlunr::lang::from_name;
use elasticlunr_job::answer::job_line;
use elasticlunr_job::job::Job;
use elasticlunr_job::outcome::{JobError, Refusal};
use std::alloc::Global;

/// The references that the query finds in the index of the job.
pub fn found_in_job(
    alloc: Global,
    job: &Job<'_>,
    query: &Query<'_>,
) -> Result<Vec<String>, UseError>
    ensures found { IfOk result (λ found.
        FindsInJob (job_told job.now) query.now (bytes_of found.items)) }
    ensures errors { IfErr result
        (FindsNothingIn (job_told job.now) (borrowed query.now.fields.now)) }
{
    let line = job_line(alloc, job)?;
    let Some(language) = from_name(job.language) else {
        return Err(UseError::Job(JobError::Refused(Refusal::UnknownLanguage)));
    };
    let found = found_in_text(alloc, language, line.as_str(), query)?;
    Ok(found)
}
