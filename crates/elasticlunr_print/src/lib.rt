//! The JSON value of an index, and its text.
#![tactic(auto)]

pub mod laws;
mod parts;
mod text;
mod value;
mod write;

pub use parts::{ELASTICLUNR_VERSION, Parts};
pub use text::{index_json, index_json_pretty};
pub use value::index_value;
pub use write::write_index;
