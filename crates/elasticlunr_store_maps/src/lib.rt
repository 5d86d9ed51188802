//! The maps of a store's texts and lengths: setting and looking up what they have, comparing them,
//! their JSON values, and the printing of these. The words for a store's contents stand here, too.
#![tactic(auto)]

pub mod find;
pub mod put;
pub mod read;
pub mod same;
pub mod value;
pub mod write;
