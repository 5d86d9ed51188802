//! Why there is no flat form.

use std::alloc::{AllocError, AllocFailed};

/// Why there are no bytes.
#[derive(Clone, Copy, Debug, PartialEq, Eq)]
pub enum FormError {
    /// A text has more bytes than four bytes can count, or there are more pieces than that.
    TooLarge,
    /// A request for memory was refused.
    Memory,
}

impl From<AllocError> for FormError {
    ghost use Rattle.elasticlunr_in_pieces.specs.declared.fault.FormError.TheVariants.{Memory};
    ghost use Rattle.std.specs.Prelude.{◌≡◌};

    ghost from_gives = { λ _ e. e ≡ Memory };

    fn from(_refused: AllocError) -> FormError {
        FormError::Memory
    }
}

impl<T: Drop> From<AllocFailed<T>> for FormError {
    ghost use Rattle.elasticlunr_in_pieces.specs.declared.fault.FormError.TheVariants.{Memory};
    ghost use Rattle.std.specs.Prelude.{◌≡◌};

    ghost from_gives = { λ _ e. e ≡ Memory };

    fn from(_refused: AllocFailed<T>) -> FormError {
        FormError::Memory
    }
}
