//! Laws for those who prove something about a program that builds, prints and searches indexes:
//! each is the contract of a function that does nothing.
#![tactic(auto)]

pub mod documents;
pub mod search;
