//! What an index holds, a trie for each field and a store, and how one document changes it.
#![tactic(auto)]

mod contents;
mod counts;
mod documents;

pub use contents::IndexContents;
