//! What a call answers.
use elasticlunr::lang::AnyLanguage;
use elasticlunr::{IndexError, Language};
use serde_json::Value;
use std::alloc::{AllocError, Global};
use std::collections::BTreeMap;

#[derive(Drop)]
pub enum Answer {
    /// It did what it is for, and has nothing to give.
    Done,
    Flag(bool),
    Number(u64),
    Text(String),
    /// What the stages make of a token.
    Left(Option<String>),
    Texts(Vec<String>),
    /// The one or two characters of a lower case.
    Lower(char, Option<char>),
    Language(Option<AnyLanguage>),
    Postings(Option<BTreeMap<String, u64>>),
    Document(Option<BTreeMap<String, String>>),
    Gave(Value),
    Refused(IndexError),
    NoMemory,
    NoSuchCall,
}

impl Answer {
    pub fn done(answer: Result<(), IndexError>) -> Answer {
        match answer {
            Ok(()) => Answer::Done,
            Err(error) => Answer::Refused(error),
        }
    }

    pub fn value(answer: Result<Value, IndexError>) -> Answer {
        match answer {
            Ok(value) => Answer::Gave(value),
            Err(error) => Answer::Refused(error),
        }
    }

    pub fn gave(answer: Result<Value, AllocError>) -> Answer {
        match answer {
            Ok(value) => Answer::Gave(value),
            Err(AllocError) => Answer::NoMemory,
        }
    }

    pub fn json(answer: Result<String, IndexError>) -> Answer {
        match answer {
            Ok(text) => Answer::Text(text),
            Err(error) => Answer::Refused(error),
        }
    }

    pub fn text(answer: Result<String, AllocError>) -> Answer {
        match answer {
            Ok(text) => Answer::Text(text),
            Err(AllocError) => Answer::NoMemory,
        }
    }

    pub fn left(answer: Result<Option<String>, AllocError>) -> Answer {
        match answer {
            Ok(left) => Answer::Left(left),
            Err(AllocError) => Answer::NoMemory,
        }
    }

    pub fn texts(answer: Result<Vec<String>, AllocError>) -> Answer {
        match answer {
            Ok(texts) => Answer::Texts(texts),
            Err(AllocError) => Answer::NoMemory,
        }
    }

    pub fn listed(answer: Result<Vec<String>, IndexError>) -> Answer {
        match answer {
            Ok(texts) => Answer::Texts(texts),
            Err(error) => Answer::Refused(error),
        }
    }

    pub fn postings(answer: Result<Option<BTreeMap<String, u64>>, IndexError>) -> Answer {
        match answer {
            Ok(postings) => Answer::Postings(postings),
            Err(error) => Answer::Refused(error),
        }
    }

    pub fn document(answer: Result<Option<BTreeMap<String, String>>, IndexError>) -> Answer {
        match answer {
            Ok(document) => Answer::Document(document),
            Err(error) => Answer::Refused(error),
        }
    }

    /// Its line: a JSON text, or words.
    pub fn line(self, alloc: Global) -> Result<String, AllocError> {
        match self {
            Answer::Done => String::from_str(alloc, "done"),
            Answer::Refused(error) => format!(in alloc; "refused: {error}"),
            Answer::NoMemory => String::from_str(alloc, "no memory"),
            Answer::NoSuchCall => String::from_str(alloc, "no such call"),
            answer => answer.json_value(alloc)?.to_string(alloc),
        }
    }

    fn json_value(self, alloc: Global) -> Result<Value, AllocError> {
        match self {
            Answer::Flag(flag) => Ok(Value::Bool(flag)),
            Answer::Number(number) => Ok(Value::from(number)),
            Answer::Text(text) | Answer::Left(Some(text)) => Ok(Value::String(text)),
            Answer::Texts(texts) => texts_value(alloc, texts),
            Answer::Lower(first, second) => lower_value(alloc, first, second),
            Answer::Language(Some(language)) => Ok(Value::String(language.name(alloc)?)),
            Answer::Postings(Some(postings)) => postings_value(alloc, postings),
            Answer::Document(Some(document)) => document_value(alloc, document),
            Answer::Gave(value) => Ok(value),
            _ => Ok(Value::Null),
        }
    }
}

fn lower_value(alloc: Global, first: char, second: Option<char>) -> Result<Value, AllocError> {
    let mut text = String::new(alloc);
    text.push(first)?;
    if let Some(second) = second {
        text.push(second)?;
    }
    Ok(Value::String(text))
}

fn texts_value(alloc: Global, texts: Vec<String>) -> Result<Value, AllocError> {
    let mut values = Vec::new(alloc);
    for text in texts {
        values.push(Value::String(text))?;
    }
    Ok(Value::Array(values))
}

fn postings_value(alloc: Global, postings: BTreeMap<String, u64>) -> Result<Value, AllocError> {
    let mut members = BTreeMap::new(alloc);
    for (doc_ref, frequency) in postings {
        members.insert(doc_ref, Value::from(frequency))?;
    }
    Ok(Value::Object(members))
}

fn document_value(alloc: Global, document: BTreeMap<String, String>) -> Result<Value, AllocError> {
    let mut members = BTreeMap::new(alloc);
    for (field, text) in document {
        members.insert(field, Value::String(text))?;
    }
    Ok(Value::Object(members))
}
