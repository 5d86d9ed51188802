//! Files that readers find whole: a file that replaces another one, and an index in
//! pieces, whose head replaces an earlier head.
#![tactic(auto)]

pub mod files;
pub mod heads;
pub mod names;
pub mod site;
mod temporary;
