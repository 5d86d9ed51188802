//! From a text that is given as an input, in one of three forms, to the text of its index, or to
//! the message of its first fault.
//!
//! An input is a job, an array of objects, or a line for each object. [`index::index_from`] goes
//! from its bytes and the settings to the text; [`notes::Notes`] take what is suspicious on the
//! way.
#![tactic(auto)]

mod counts;
mod documents;
pub mod index;
mod jobs;
mod lines;
pub mod mark;
pub mod notes;
mod references;
pub mod settings;
