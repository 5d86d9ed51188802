//! Laws of a search in pieces: what is found in the pieces that a query needs, and its scores, are
//! those of the whole index.
#![tactic(auto)]

pub mod laws;
