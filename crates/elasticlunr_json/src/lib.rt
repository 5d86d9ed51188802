//! What the values of an index are made of: the members of JSON objects, the tokens of a JSON text
//! and what prints them, and the words and lemmas for maps and their objects.
#![tactic(auto)]

pub mod laws;
mod members;
mod tokens;

pub use members::{put_member, set_member};
pub use tokens::{CompactText, PrettyText, Token, Tokens};
