//! What a program reads from and writes to, as bytes: a source is read to its end, and a sink is
//! given whole texts.
#![tactic(auto)]

pub mod device;
pub mod outcome;
