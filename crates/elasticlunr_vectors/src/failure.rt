//! What ends a run.
use elasticlunr_stems::TableError;
use std::alloc::{AllocError, AllocFailed};
use std::io;

/// A run failed: a file, a table, memory or the words of the command line.
#[derive(Debug, Drop)]
pub enum Failure {
    Io(io::Error),
    Table(TableError),
    Memory,
    /// No language has the code, or no version the name.
    Unknown,
}

impl From<io::Error> for Failure {
    fn from(error: io::Error) -> Self {
        Failure::Io(error)
    }
}

impl From<TableError> for Failure {
    fn from(error: TableError) -> Self {
        Failure::Table(error)
    }
}

impl From<AllocError> for Failure {
    fn from(_error: AllocError) -> Self {
        Failure::Memory
    }
}

impl<T: Drop> From<AllocFailed<T>> for Failure {
    fn from(_error: AllocFailed<T>) -> Self {
        Failure::Memory
    }
}
