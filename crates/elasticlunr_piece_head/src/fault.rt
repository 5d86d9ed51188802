//! Why a text isn't the head of an index in pieces.

use std::alloc::{AllocError, AllocFailed};

/// Why a text isn't the head of an index in pieces.
#[derive(Clone, Copy)]
pub enum HeadFault {
    /// It is not JSON, or nests too deep.
    NotRead,
    /// It doesn't say how many bytes its pieces have, as heads of earlier versions.
    Older,
    /// The member of this name is missing, or has another form, or doesn't fit the others.
    Member(&'static str),
    /// A request for memory was refused.
    Memory,
}

impl From<AllocError> for HeadFault {
    ghost use Rattle.elasticlunr_piece_head.specs.declared.fault.HeadFault.TheVariants.{Memory};
    ghost use Rattle.std.specs.Prelude.{◌≡◌};

    ghost from_gives = { λ _ e. e ≡ Memory };

    fn from(_refused: AllocError) -> HeadFault {
        HeadFault::Memory
    }
}

impl<T: Drop> From<AllocFailed<T>> for HeadFault {
    ghost use Rattle.elasticlunr_piece_head.specs.declared.fault.HeadFault.TheVariants.{Memory};
    ghost use Rattle.std.specs.Prelude.{◌≡◌};

    ghost from_gives = { λ _ e. e ≡ Memory };

    fn from(_refused: AllocFailed<T>) -> HeadFault {
        HeadFault::Memory
    }
}
