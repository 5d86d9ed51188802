//! The tables of the stemmers for fourteen languages, as texts.
#![tactic(auto)]

mod language;
mod tables;

pub use language::{Language, Version};
