//! Why bytes are not read.

use std::alloc::{AllocError, AllocFailed};

/// Why there is no input.
#[derive(Clone, Copy, Debug, PartialEq, Eq)]
pub enum FlatError {
    /// The bytes are not in the form.
    Malformed,
    /// A request for memory was refused.
    Memory,
}

/// The bytes are not in the form.
#[derive(Drop)]
pub(crate) struct NotFlat;

impl From<NotFlat> for FlatError {
    ghost use Rattle.elasticlunr_flat.specs.declared.fault.FlatError.TheVariants.{Malformed};
    ghost use Rattle.std.specs.Prelude.{◌≡◌};

    ghost from_gives = { λ _ e. e ≡ Malformed };

    fn from(_fault: NotFlat) -> FlatError {
        FlatError::Malformed
    }
}

impl From<AllocError> for FlatError {
    ghost use Rattle.elasticlunr_flat.specs.declared.fault.FlatError.TheVariants.{Memory};
    ghost use Rattle.std.specs.Prelude.{◌≡◌};

    ghost from_gives = { λ _ e. e ≡ Memory };

    fn from(_refused: AllocError) -> FlatError {
        FlatError::Memory
    }
}

impl<T: Drop> From<AllocFailed<T>> for FlatError {
    ghost use Rattle.elasticlunr_flat.specs.declared.fault.FlatError.TheVariants.{Memory};
    ghost use Rattle.std.specs.Prelude.{◌≡◌};

    ghost from_gives = { λ _ e. e ≡ Memory };

    fn from(_refused: AllocFailed<T>) -> FlatError {
        FlatError::Memory
    }
}
