//! Calls of search options.
use crate::answer::Answer;
use crate::call::Call;
use crate::subject::Subject;
use elasticlunr::IndexError;
use elasticlunr::config::SearchOptions;
use serde_json::Value;
use std::alloc::Global;
use std::mem;

/// The options that are called, and others, which may be put in their place.
#[derive(Drop)]
pub struct Options {
    options: SearchOptions,
    others: SearchOptions,
}

impl Options {
    pub fn new(alloc: Global) -> Options {
        Options {
            options: SearchOptions::new(alloc),
            others: SearchOptions::new(alloc),
        }
    }

    fn put(&mut self, made: Result<SearchOptions, IndexError>) -> Answer {
        match made {
            Ok(options) => {
                self.options = options;
                Answer::Done
            }
            Err(error) => Answer::Refused(error),
        }
    }

    fn read(&mut self, alloc: Global, value: Option<&Value>) -> Answer {
        match value {
            Some(value) => self.put(SearchOptions::from_value(alloc, value)),
            None => Answer::NoSuchCall,
        }
    }
}

impl Subject for Options {
    fn answer(&mut self, call: &Call<'_>, tokens: Vec<String>) -> Answer {
        let _unused = tokens;
        match call.name {
            "new" => self.put(Ok(SearchOptions::new(call.alloc))),
            "from_value" => self.read(call.alloc, call.value),
            "clone" => {
                let made = self.options.clone(call.alloc);
                self.put(made)
            }
            "swap" => {
                mem::swap(&mut self.options, &mut self.others);
                Answer::Done
            }
            "eq" => Answer::Flag(self.options == self.others),
            "to_value" => Answer::value(self.options.to_value(call.alloc)),
            _ => Answer::NoSuchCall,
        }
    }
}
