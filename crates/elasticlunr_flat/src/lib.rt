//! The flat form of what is indexed and of what is searched for: numbers, texts and lists one after
//! the other, as callers in C pass them. Any bytes may come. The texts that are read of them are
//! borrowed.
#![tactic(auto)]

mod fault;
mod form;
mod items;
pub mod laws;
mod read;
mod reader;
mod search;

pub use fault::FlatError;
pub use form::{Cutting, Document, GivenTokens, Input, LanguageName, Needed, Search, Value};
pub use read::{read_cutting, read_input, read_search};
