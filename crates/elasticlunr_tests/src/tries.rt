//! Calls of a trie.
use crate::answer::Answer;
use crate::call::Call;
use crate::subject::Subject;
use elasticlunr::inverted_index::InvertedIndex;
use elasticlunr::{CompactText, IndexError};
use elasticlunr_trie::copied;
use serde_json::Value;
use std::alloc::{AllocError, Global};
use std::collections::BTreeSet;
use std::mem;

/// The trie that is called, and another, which may be put in its place.
#[derive(Drop)]
pub struct Tries {
    trie: InvertedIndex,
    other: InvertedIndex,
}

impl Tries {
    pub fn new(alloc: Global) -> Tries {
        Tries {
            trie: InvertedIndex::new(alloc),
            other: InvertedIndex::new(alloc),
        }
    }

    fn put(&mut self, made: Result<InvertedIndex, IndexError>) -> Answer {
        match made {
            Ok(trie) => {
                self.trie = trie;
                Answer::Done
            }
            Err(error) => Answer::Refused(error),
        }
    }

    fn read(&mut self, alloc: Global, value: Option<&Value>) -> Answer {
        match value {
            Some(value) => self.put(InvertedIndex::from_value(alloc, value)),
            None => Answer::NoSuchCall,
        }
    }

    fn change(&mut self, call: &Call<'_>) -> Answer {
        match call.name {
            "new" => self.put(Ok(InvertedIndex::new(call.alloc))),
            "from_value" => self.read(call.alloc, call.value),
            "compacted" => {
                let made = self.trie.compacted();
                self.put(made)
            }
            "swap" => {
                mem::swap(&mut self.trie, &mut self.other);
                Answer::Done
            }
            "eq" => Answer::Flag(self.trie == self.other),
            _ => changed(&mut self.trie, call),
        }
    }
}

impl Subject for Tries {
    fn answer(&mut self, call: &Call<'_>, tokens: Vec<String>) -> Answer {
        let _unused = tokens;
        self.change(call)
    }
}

fn changed(trie: &mut InvertedIndex, call: &Call<'_>) -> Answer {
    match call.name {
        "add_token" => Answer::done(trie.add_token(call.text(0), call.text(1), call.number())),
        "add_tokens" => { Answer::done(trie.add_tokens(call.text(0), &eight_tokens(call))) }
        "remove_token" => {
            trie.remove_token(call.text(0), call.text(1));
            Answer::Done
        }
        "remove_doc" => {
            trie.remove_doc(call.text(0));
            Answer::Done
        }
        _ => looked_up(trie, call),
    }
}

/// The texts after the first, up to eight of them, each with the number of the call. One that is
/// missing is empty.
fn eight_tokens<'a>(call: &Call<'a>) -> [(&'a str, u64); 8] {
    let number = call.number();
    [
        (call.text(1), number),
        (call.text(2), number),
        (call.text(3), number),
        (call.text(4), number),
        (call.text(5), number),
        (call.text(6), number),
        (call.text(7), number),
        (call.text(8), number),
    ]
}

/// Postings as an array of arrays, which shows their order.
fn told_postings(trie: &InvertedIndex, call: &Call<'_>) -> Result<Value, AllocError> {
    let mut told = Vec::new(call.alloc);
    for (doc_ref, frequency) in trie.postings(call.alloc, call.text(0))? {
        let mut posting = Vec::new(call.alloc);
        posting.push(Value::String(String::from_str(call.alloc, doc_ref)?))?;
        posting.push(Value::from(frequency))?;
        told.push(Value::Array(posting))?;
    }
    Ok(Value::Array(told))
}

/// A call that changes nothing.
pub fn looked_up(trie: &InvertedIndex, call: &Call<'_>) -> Answer {
    match call.name {
        "has_token" => Answer::Flag(trie.has_token(call.text(0))),
        "get_docs" => Answer::postings(trie.get_docs(call.text(0))),
        "has_posting" => Answer::Flag(trie.has_posting(call.text(0), call.text(1))),
        "references" => Answer::listed(trie.references(call.text(0))),
        "tokens" => Answer::texts(trie.tokens(call.alloc, call.text(0))),
        "postings" => Answer::gave(told_postings(trie, call)),
        "get_doc_frequency" => Answer::Number(trie.get_doc_frequency(call.text(0))),
        "get_term_frequency" => {
            Answer::Number(trie.get_term_frequency(call.text(0), call.text(1)))
        }
        _ => told(trie, call),
    }
}

/// A call that makes a text of the whole trie, or whose answer is made of a set.
fn told(trie: &InvertedIndex, call: &Call<'_>) -> Answer {
    match call.name {
        "to_value" => Answer::value(trie.to_value()),
        "write" => Answer::text(written(trie, call.alloc)),
        "put_references" => Answer::listed(put_references(trie, call)),
        "copied" => Answer::texts(copied_once(call)),
        _ => Answer::NoSuchCall,
    }
}

fn written(trie: &InvertedIndex, alloc: Global) -> Result<String, AllocError> {
    let mut out = CompactText::new(alloc)?;
    trie.write(&mut out)?;
    Ok(out.into_string())
}

/// The references of all tokens of a call, each once.
fn put_references(trie: &InvertedIndex, call: &Call<'_>) -> Result<Vec<String>, IndexError> {
    let mut found = BTreeSet::new(call.alloc);
    for token in &call.texts {
        trie.put_references(token, &mut found)?;
    }
    let references = copied(call.alloc, &found)?;
    Ok(references)
}

/// The texts of a call, each once.
fn copied_once(call: &Call<'_>) -> Result<Vec<String>, AllocError> {
    let mut texts = BTreeSet::new(call.alloc);
    for text in &call.texts {
        texts.insert(*text)?;
    }
    copied(call.alloc, &texts)
}
