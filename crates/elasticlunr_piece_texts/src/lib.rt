//! Laws of the texts of an index in pieces, for those who prove something about a search in pieces.
#![tactic(auto)]

pub mod laws;
