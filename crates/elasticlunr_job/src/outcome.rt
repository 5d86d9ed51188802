//! What is written for a job, and why not its index.

pub use elasticlunr_job_format::outcome::{JobError, Refusal};

/// What was written: the text of an index, or the line of a refusal.
#[derive(Clone, Copy, Debug, PartialEq, Eq)]
pub enum Outcome {
    Printed,
    Refused(Refusal),
}
