//! The head of an index in pieces: what it says of the index, and which of its pieces have what.
//!
//! [`PieceHead::read`] reads the text of a head. [`PieceHead::pieces_for`] says which pieces of the
//! tries can have tokens, and [`PieceHead::pieces_with_texts`] which pieces of the texts have the
//! documents of some references.
#![tactic(auto)]

mod choice;
mod counts;
mod fault;
mod head;
mod members;
mod names;

pub use choice::PieceRange;
pub use fault::HeadFault;
pub use head::PieceHead;
