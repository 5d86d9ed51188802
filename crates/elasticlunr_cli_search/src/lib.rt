//! `search`: what a query finds in a printed index, and how it is shown.
#![tactic(auto)]

mod asked;
mod in_pieces;
pub mod search;
mod show;
