//! What the sub-commands of `elasticlunr` share: the words of the command line, files and streams,
//! and what goes to the error stream; and `languages`, which needs nothing else.
#![tactic(auto)]

pub mod files;
pub mod languages;
pub mod tell;
pub mod words;
