//! Why a use failed.

use elasticlunr::IndexError;
use elasticlunr_job::outcome::JobError;
use elasticlunr_search::SearchError;
use std::alloc::{AllocError, AllocFailed};

/// A refusal of the index, of the search or of the job, or out of memory elsewhere.
#[derive(Clone, Copy)]
pub enum UseError {
    Index(IndexError),
    Search(SearchError),
    Job(JobError),
    Memory,
}

impl From<IndexError> for UseError {
    ghost use Rattle.elasticlunr_uses.specs.declared.error.UseError.TheVariants.{Index};
    ghost use Rattle.std.specs.Prelude.{◌≡◌};

    ghost from_gives = { λ error e. e ≡ Index error };

    fn from(error: IndexError) -> UseError {
        UseError::Index(error)
    }
}

impl From<SearchError> for UseError {
    ghost use Rattle.elasticlunr_uses.specs.declared.error.UseError.TheVariants.{Search};
    ghost use Rattle.std.specs.Prelude.{◌≡◌};

    ghost from_gives = { λ error e. e ≡ Search error };

    fn from(error: SearchError) -> UseError {
        UseError::Search(error)
    }
}

impl From<JobError> for UseError {
    ghost use Rattle.elasticlunr_uses.specs.declared.error.UseError.TheVariants.{Job};
    ghost use Rattle.std.specs.Prelude.{◌≡◌};

    ghost from_gives = { λ error e. e ≡ Job error };

    fn from(error: JobError) -> UseError {
        UseError::Job(error)
    }
}

impl From<AllocError> for UseError {
    ghost use Rattle.elasticlunr_uses.specs.declared.error.UseError.TheVariants.{Memory};
    ghost use Rattle.std.specs.Prelude.{◌≡◌};

    ghost from_gives = { λ _ e. e ≡ Memory };

    fn from(_refused: AllocError) -> UseError {
        UseError::Memory
    }
}

impl<T: Drop> From<AllocFailed<T>> for UseError {
    ghost use Rattle.elasticlunr_uses.specs.declared.error.UseError.TheVariants.{Memory};
    ghost use Rattle.std.specs.Prelude.{◌≡◌};

    ghost from_gives = { λ _ e. e ≡ Memory };

    fn from(_refused: AllocFailed<T>) -> UseError {
        UseError::Memory
    }
}
