//! Why a text isn't the piece that a head names.

use std::alloc::{AllocError, AllocFailed};

/// Why a text isn't the piece that the head names.
#[derive(Clone, Copy)]
pub enum PieceFault {
    /// It has another number of bytes than the head says, which is this one.
    Size(usize),
    /// It is not JSON, or nests too deep.
    NotRead,
    /// It has other entries than the head says.
    Other,
    /// A request for memory was refused.
    Memory,
}

impl From<AllocError> for PieceFault {
    ghost use Rattle.elasticlunr_piece_search.specs.declared.fault.PieceFault.TheVariants.{Memory};
    ghost use Rattle.std.specs.Prelude.{◌≡◌};

    ghost from_gives = { λ _ e. e ≡ Memory };

    fn from(_refused: AllocError) -> PieceFault {
        PieceFault::Memory
    }
}

impl<T: Drop> From<AllocFailed<T>> for PieceFault {
    ghost use Rattle.elasticlunr_piece_search.specs.declared.fault.PieceFault.TheVariants.{Memory};
    ghost use Rattle.std.specs.Prelude.{◌≡◌};

    ghost from_gives = { λ _ e. e ≡ Memory };

    fn from(_refused: AllocFailed<T>) -> PieceFault {
        PieceFault::Memory
    }
}
