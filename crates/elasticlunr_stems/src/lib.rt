//! Stemmers as tables, and what carries them out.
#![tactic(auto)]

mod class;
mod ends;
mod error;
mod interpreter;
mod kinds;
mod read;
mod row;
mod safe;
mod stemmer;
mod step;
mod suffixes;
mod text;
mod words;

pub use error::TableError;
pub use stemmer::Stemmer;
