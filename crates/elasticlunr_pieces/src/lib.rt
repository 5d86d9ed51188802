//! An index in pieces: a head, and the pieces that a page fetches as a query needs them.
#![tactic(auto)]

mod cut;
pub mod documents;
mod folder;
mod head_text;
mod head_value;
pub mod laws;
mod making;
mod numbers;
mod progress;
mod slots;
mod texts;
mod titles;
pub mod tokens;
mod tries;

pub use making::{Head, Piece, Pieces};
