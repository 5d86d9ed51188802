//! From documents as JSON objects, in the form that `addDoc` of elasticlunr.js takes, to the text
//! of their index.
//!
//! [`objects::objects_line`] takes the values of an array, all at once, and [`lines::lines_line`]
//! reads lines with an object each, one by one.
#![tactic(auto)]

pub mod lines;
pub mod marked;
pub mod objects;
