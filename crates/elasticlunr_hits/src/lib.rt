//! What `elasticlunr search` finds in a printed index and prints of it.
//!
//! [`hits::hits_of`] returns the hits of what is asked for, the best first, and
//! [`lines::found_lines`] their lines: of their references, or of JSON. [`in_text::lines_in`]
//! returns the lines of the hits in a text.
#![tactic(auto)]

pub mod asked;
mod fields;
pub mod hits;
pub mod in_text;
mod json_lines;
pub mod lines;
mod options;
