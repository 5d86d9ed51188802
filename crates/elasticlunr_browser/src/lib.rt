//! The script with which elasticlunr.js reads the indexes of languages in a browser: words, classes
//! and lower case of the library, as JavaScript.
#![tactic(auto)]

mod classes;
mod language;
mod pairs;
pub mod script;
mod stages;
mod stemmers;
mod template;
