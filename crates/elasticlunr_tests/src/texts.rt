//! Calls of functions on texts, characters and counts.
use crate::answer::Answer;
use crate::call::Call;
use crate::subject::Subject;
use elasticlunr::lang::{self, en};
use elasticlunr::root;

#[derive(Drop)]
pub struct Functions {}

impl Subject for Functions {
    fn answer(&mut self, call: &Call<'_>, tokens: Vec<String>) -> Answer {
        let _unused = tokens;
        let text = call.text(0);
        match call.name {
            "tokenize_whitespace" => Answer::texts(lang::tokenize_whitespace(call.alloc, text)),
            "lower_char" => lowered(text),
            "languages" => Answer::Language(lang::languages().get(call.count()).copied()),
            "from_code" => Answer::Language(lang::from_code(text)),
            "from_name" => Answer::Language(lang::from_name(text)),
            "root" => Answer::Number(root(call.number())),
            name => tested(name, text),
        }
    }
}

/// The lower case of a text of one character.
fn lowered(text: &str) -> Answer {
    match text.chars().next() {
        Some(letter) => {
            let (first, second) = lang::lower_char(letter);
            Answer::Lower(first, second)
        }
        None => Answer::NoSuchCall,
    }
}

/// A test of the English stemmer.
fn tested(name: &str, text: &str) -> Answer {
    match name {
        "m_above_0" => Answer::Flag(en::m_above_0(text)),
        "m_above_1" => Answer::Flag(en::m_above_1(text)),
        "m_is_1" => Answer::Flag(en::m_is_1(text)),
        "has_vowel" => Answer::Flag(en::has_vowel(text)),
        "is_short" => Answer::Flag(en::is_short(text)),
        _ => Answer::NoSuchCall,
    }
}
