//! The trie of an index: a table of tokens and their postings, with its JSON value in the form of
//! elasticlunr.js.
#![tactic(auto)]

pub mod inverted_index;
pub mod laws;
mod texts;

pub use inverted_index::InvertedIndex;
pub use texts::copied;
