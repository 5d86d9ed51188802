//! Why a job failed.

use elasticlunr::IndexError;
use elasticlunr_search::SearchError;
use std::alloc::{AllocError, AllocFailed};

/// A refusal, which no job expects, or out of memory.
#[derive(Clone, Copy)]
pub struct Failure {}

impl From<IndexError> for Failure {
    fn from(_error: IndexError) -> Failure {
        Failure {}
    }
}

impl From<SearchError> for Failure {
    fn from(_error: SearchError) -> Failure {
        Failure {}
    }
}

impl From<AllocError> for Failure {
    fn from(_refused: AllocError) -> Failure {
        Failure {}
    }
}

impl<T: Drop> From<AllocFailed<T>> for Failure {
    fn from(_refused: AllocFailed<T>) -> Failure {
        Failure {}
    }
}
