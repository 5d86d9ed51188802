//! The numbered nodes of a trie, and the numbered references that have postings at them.
#![tactic(auto)]

pub mod branch;
pub mod child;
pub mod docs;
pub mod inline_list;
pub mod lists;
pub mod names;
pub mod nodes;
pub mod number_list;
pub mod numbered;
pub mod posting_list;
pub mod postings;
pub mod room;
pub mod start;
