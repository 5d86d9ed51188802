//! What commands leave: the documents that an index was given, and the tables and contents that
//! name them.
//!
//! The definitions are in `specs/`; the crates above say by them what an index holds and prints.
//! The one function that works is `root`, the frequency of a token by its count.
#![tactic(auto)]

pub mod laws;
mod rooted;

pub use rooted::root;
