//! The scores by which elasticlunr.js ranks what a search finds.
#![tactic(auto)]

mod choice;
mod entries;
mod field;
mod hits;
pub mod laws;
mod logarithm;
mod tally;
mod token;
mod total;
mod weight;

pub use choice::{names_of_options, searched_fields};
pub use field::SearchedField;
pub use hits::Hit;
pub use total::{best_hits, ranked_hits};
