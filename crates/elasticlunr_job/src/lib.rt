//! From a job, as JSON, to the text of its index.
//!
//! A job names the fields, the documents and the language of an index, the references that are
//! removed again, and how it is printed. [`answer::answer`] goes from the bytes of a job to what is
//! written for it, and [`run::run`] from a source that has them to a sink.
#![tactic(auto)]

pub mod answer;
pub mod kept;
pub mod laws;
pub mod make;
pub mod outcome;
pub mod run;

pub use elasticlunr_job_format::{fault, job, key, kind, rules};
