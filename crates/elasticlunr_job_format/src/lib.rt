//! Jobs and documents as they are read of JSON: bytes as a value, a value as a job or what keeps it
//! from being one, an object as a document, and the lines of a text.
#![tactic(auto)]

pub mod fault;
pub mod job;
pub mod key;
pub mod kind;
pub mod laws;
pub mod lines;
pub mod objects;
pub mod outcome;
pub mod read;
pub mod reader;
pub mod rules;
