//! An index in pieces at once: its head and all its pieces, and their flat form.
#![tactic(auto)]

mod all;
mod fault;
mod flat;

pub use all::{InPieces, in_pieces};
pub use fault::FormError;
pub use flat::flat_form;
