//! Why no index is printed.

use elasticlunr_error::IndexError;
use std::alloc::{AllocError, AllocFailed};

/// Why the input was refused: the first check that failed.
#[derive(Clone, Copy, Debug, PartialEq, Eq)]
pub enum Refusal {
    NotJson,
    NotAJob,
    UnknownLanguage,
    DuplicateField,
    TooManyValues,
}

/// Why no index is printed: the refusal, or out of memory.
#[derive(Clone, Copy)]
pub enum JobError {
    Refused(Refusal),
    Memory,
}

impl From<AllocError> for JobError {
    ghost use Rattle.elasticlunr_job_format.specs.declared.outcome.JobError.TheVariants.{Memory};
    ghost use Rattle.std.specs.Prelude.{◌≡◌};

    ghost from_gives = { λ _ e. e ≡ Memory };

    fn from(_refused: AllocError) -> JobError {
        JobError::Memory
    }
}

impl<T: Drop> From<AllocFailed<T>> for JobError {
    ghost use Rattle.elasticlunr_job_format.specs.declared.outcome.JobError.TheVariants.{Memory};
    ghost use Rattle.std.specs.Prelude.{◌≡◌};

    ghost from_gives = { λ _ e. e ≡ Memory };

    fn from(_refused: AllocFailed<T>) -> JobError {
        JobError::Memory
    }
}

impl From<IndexError> for JobError {
    ghost use Rattle.std.specs.Prelude.{◌≡◌};
    ghost use Rattle.elasticlunr_job_format.specs.IndexJobError.{job_error_of};

    ghost from_gives = { λ e stop. stop ≡ job_error_of e };

    fn from(e: IndexError) -> JobError {
        match e {
            IndexError::DuplicateField => JobError::Refused(Refusal::DuplicateField),
            IndexError::TooManyValues => JobError::Refused(Refusal::TooManyValues),
            _ => JobError::Memory,
        }
    }
}
