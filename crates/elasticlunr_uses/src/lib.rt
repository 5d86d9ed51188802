//! Uses of the library as its callers write them, each with what its caller can rely on, proved.
#![tactic(auto)]

pub mod custom;
pub mod error;
pub mod first;
pub mod found;
pub mod job;
pub mod order;
pub mod own;
pub mod page;
pub mod query;
pub mod ranked;
pub mod update;
