//! Where a value stands in a text of JSON: the line and the column of what a path leads to.
//!
//! [`member::place_of`] looks for the bytes of the value, and checks what it finds: they are read
//! as the value, and where another one is put in their place, the path leads to that.
#![tactic(auto)]

pub mod member;
pub mod place;
mod seek;
