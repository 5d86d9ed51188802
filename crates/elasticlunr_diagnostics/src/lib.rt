//! What can be said of an input without an index: its form, the message of what is wrong with it
//! and the place of that, the language that is asked for, the status of a run; an index as a
//! script; and a text as a terminal may show it.
//!
//! A [`message::Message`] is a line for the user. Those about a value that is no job are made of
//! the fault that keeps it from being one ([`job_fault::fault_message`]).
#![tactic(auto)]

pub mod form;
pub mod job_fault;
pub mod language;
pub mod message;
pub mod nearest;
pub mod outcome;
pub mod script;
pub mod shown;
