//! A search of an index in pieces, of which only what a query needs is read.
//!
//! [`PieceHead::read`] reads the head, and says which pieces are needed. A [`PieceIndex`] takes the
//! texts of these pieces, and prints what they have as an index, which `elasticlunr_search` reads.
#![tactic(auto)]

mod documents;
mod fault;
mod names;
mod piece_index;
mod postings;
mod texts;

pub use elasticlunr_piece_head::{HeadFault, PieceHead};
pub use fault::PieceFault;
pub use piece_index::{PieceIndex, empty_text};
