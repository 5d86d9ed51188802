//! A stemmer that remembers the stems of the words that came last.
#![tactic(auto)]

mod cache;
mod stemmer;

pub use stemmer::CachedStemmer;
