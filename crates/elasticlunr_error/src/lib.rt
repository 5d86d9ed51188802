//! Why a call is refused, and the two ways in which contracts see a text.
#![tactic(auto)]

mod error;
pub mod laws;

pub use error::IndexError;
