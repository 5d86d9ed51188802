//! A search over the printed text of an index, which finds exactly what is there.
//!
//! A [`Searcher`] reads the text once, with the language that the index was built with, and then
//! answers queries: the references whose current document has, in a field, a token that the query
//! has, or each of them; [`Searcher::find_in`] joins what several fields have. [`answer::answer`]
//! reads a request and an index from one text, [`answer::lines_found`] finds in the text of an
//! index.
#![tactic(auto)]

pub mod answer;
mod error;
mod field_references;
mod found_words;
pub mod laws;
mod levels;
pub mod named;
mod parts;
mod printed;
mod rebuild;
mod rebuilt_index;
mod request;
mod rounding;
mod same_text;
mod searcher;
mod source;
mod tokens;
mod tries;
mod walk;
mod words;

pub use elasticlunr_ranking::Hit;
pub use error::SearchError;
pub use searcher::Searcher;
pub use words::Join;
