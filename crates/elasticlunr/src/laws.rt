//! Laws of the words that this crate's contracts speak of.
pub mod calls;
pub mod current;
pub mod found;
pub mod given;
pub mod reading;
pub mod word;

pub use elasticlunr_commands::laws::order;
pub use elasticlunr_print::laws::{removal, values};
