//! Calls of a store of documents.
use crate::answer::Answer;
use crate::call::Call;
use crate::subject::Subject;
use elasticlunr::document_store::DocumentStore;
use elasticlunr::{CompactText, IndexError};
use serde_json::Value;
use std::alloc::{AllocError, Global};
use std::collections::BTreeMap;
use std::mem;

/// The store that is called, another, which may be put in its place, and the document to be added.
#[derive(Drop)]
pub struct Stores {
    store: DocumentStore,
    other: DocumentStore,
    document: BTreeMap<String, String>,
}

impl Stores {
    pub fn new(alloc: Global) -> Stores {
        Stores {
            store: DocumentStore::new(alloc, true),
            other: DocumentStore::new(alloc, true),
            document: BTreeMap::new(alloc),
        }
    }

    fn put(&mut self, made: Result<DocumentStore, IndexError>) -> Answer {
        match made {
            Ok(store) => {
                self.store = store;
                Answer::Done
            }
            Err(error) => Answer::Refused(error),
        }
    }

    fn read(&mut self, alloc: Global, value: Option<&Value>) -> Answer {
        match value {
            Some(value) => self.put(DocumentStore::from_value(alloc, value)),
            None => Answer::NoSuchCall,
        }
    }

    /// Gives the document to be added a text of a field.
    fn give(&mut self, tokens: Vec<String>) -> Answer {
        let mut tokens = tokens;
        let text = tokens.pop();
        let field = tokens.pop();
        if let (Some(field), Some(text)) = (field, text) {
            match self.document.insert(field, text) {
                Ok(_) => return Answer::Done,
                Err(_) => return Answer::NoMemory,
            }
        }
        Answer::NoSuchCall
    }

    fn add(&mut self, call: &Call<'_>) -> Answer {
        let document = mem::replace(&mut self.document, BTreeMap::new(call.alloc));
        Answer::done(self.store.add_doc(call.text(0), document))
    }

    fn change(&mut self, call: &Call<'_>) -> Answer {
        match call.name {
            "new" => self.put(Ok(DocumentStore::new(call.alloc, call.flag()))),
            "from_value" => self.read(call.alloc, call.value),
            "clone" => {
                let made = self.store.clone();
                self.put(made)
            }
            "swap" => {
                mem::swap(&mut self.store, &mut self.other);
                Answer::Done
            }
            "eq" => Answer::Flag(self.store == self.other),
            "add_doc" => self.add(call),
            _ => changed(&mut self.store, call),
        }
    }
}

impl Subject for Stores {
    fn answer(&mut self, call: &Call<'_>, tokens: Vec<String>) -> Answer {
        match call.name {
            "give" => self.give(tokens),
            _ => self.change(call),
        }
    }
}

fn changed(store: &mut DocumentStore, call: &Call<'_>) -> Answer {
    match call.name {
        "add_field_length" => {
            Answer::done(store.add_field_length(call.text(0), call.text(1), call.count()))
        }
        "remove_doc" => {
            store.remove_doc(call.text(0));
            Answer::Done
        }
        "forget_doc" => {
            store.forget_doc(call.text(0));
            Answer::Done
        }
        _ => looked_up(store, call),
    }
}

fn looked_up(store: &DocumentStore, call: &Call<'_>) -> Answer {
    match call.name {
        "is_empty" => Answer::Flag(store.is_empty()),
        "is_stored" => Answer::Flag(store.is_stored()),
        "has_doc" => Answer::Flag(store.has_doc(call.text(0))),
        "get_doc" => Answer::document(store.get_doc(call.text(0))),
        "to_value" => Answer::value(store.to_value()),
        "write" => Answer::text(written(store, call.alloc)),
        _ => counted(store, call),
    }
}

fn written(store: &DocumentStore, alloc: Global) -> Result<String, AllocError> {
    let mut out = CompactText::new(alloc)?;
    store.write(&mut out)?;
    Ok(out.into_string())
}

fn counted(store: &DocumentStore, call: &Call<'_>) -> Answer {
    let count = match call.name {
        "len" => store.len(),
        "length" => store.length(),
        "docs" => store.docs().len(),
        "doc_info" => store.doc_info().len(),
        "get_field_length" => store.get_field_length(call.text(0), call.text(1)),
        _ => return Answer::NoSuchCall,
    };
    Answer::Number(count as u64)
}
