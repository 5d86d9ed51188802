//! Why a table is refused.
ghost use Rattle.std.specs.Prelude.{◌≡◌, Some};
ghost use Rattle.elasticlunr_stems.specs.Refused.{refusal_text};

use std::alloc::{AllocError, AllocFailed};
use std::error::Error;
use std::fmt;

/// Why a table is refused. `Display` prints a text of a few words in lower case.
#[derive(Clone, Copy, Debug, PartialEq, Eq)]
pub enum TableError {
    /// The text is no table.
    NoTable,
    /// A step is not what it declares, or parts that do not suit each other follow one another.
    NotSafe,
    /// A request for memory was refused.
    Memory,
}

impl fmt::Display for TableError {
    ghost output = { λ e. Some (refusal_text e) };

    fn fmt<W: fmt::Write>(&self, f: &mut fmt::Formatter<W>) -> fmt::Result {
        f.write_str(match self {
            TableError::NoTable => "no table of a stemmer",
            TableError::NotSafe => "a step is not what the table declares of it",
            TableError::Memory => "out of memory",
        })
    }
}

impl Error for TableError {}

impl From<AllocError> for TableError {
    ghost use Rattle.elasticlunr_stems.specs.declared.error.TableError.{TableError};

    ghost from_gives = { λ _ e. e ≡ TableError.Memory };

    fn from(_error: AllocError) -> Self {
        TableError::Memory
    }
}

impl<T: Drop> From<AllocFailed<T>> for TableError {
    ghost use Rattle.elasticlunr_stems.specs.declared.error.TableError.{TableError};

    ghost from_gives = { λ _ e. e ≡ TableError.Memory };

    fn from(_error: AllocFailed<T>) -> Self {
        TableError::Memory
    }
}
