//! `build` and `check`: the index of an input, as a file or in pieces, and what is suspicious in
//! it.
#![tactic(auto)]

pub mod build;
mod given;
mod pieces;
