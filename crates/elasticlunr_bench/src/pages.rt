//! Pages of a site or a book.

use crate::random::Random;
use crate::vocabulary::Vocabulary;
use std::alloc::{AllocError, Global};

/// A page.
#[derive(Drop)]
pub struct Page {
    pub reference: String,
    pub title: String,
    pub body: String,
}

impl Page {
    /// A page of about so many words. The text between paragraphs and the one around names of code
    /// are given, so that a page can stand in a text of JSON, too.
    pub fn new(
        alloc: Global,
        random: &mut Random,
        vocabulary: &Vocabulary,
        number: u32,
        words: usize,
        marks: Marks,
    ) -> Result<Page, AllocError> {
        let chapter = number / 16;
        let reference = format!(in alloc; "guide/chapter-{chapter}/page-{number}.html")?;
        let mut title = String::new(alloc);
        push_words(&mut title, random, vocabulary, 4)?;
        let mut body = String::with_capacity(alloc, 1024)?;
        for _ in 0..words / 16 {
            push_sentence(&mut body, random, vocabulary, marks)?;
        }
        Ok(Page {
            reference,
            title,
            body,
        })
    }
}

/// What stands between paragraphs, and around names of code.
#[derive(Clone, Copy)]
pub struct Marks {
    pub paragraph: &'static str,
    pub quote: &'static str,
}

/// As they stand in a text.
pub const PLAIN: Marks = Marks {
    paragraph: "\n\n",
    quote: "\"",
};

/// As they stand in a text of JSON.
pub const ESCAPED: Marks = Marks {
    paragraph: "\\n\\n",
    quote: "\\\"",
};

/// Appends some words, with a blank after each.
pub fn push_words(
    text: &mut String,
    random: &mut Random,
    vocabulary: &Vocabulary,
    count: usize,
) -> Result<(), AllocError> {
    for _ in 0..count {
        text.push_str(vocabulary.word(random))?;
        text.push(' ')?;
    }
    Ok(())
}

/// Appends a sentence of 16 words or so: a capital, commas, at times a number or a name of code,
/// and a full stop, and every fifth time the end of a paragraph.
fn push_sentence(
    text: &mut String,
    random: &mut Random,
    vocabulary: &Vocabulary,
    marks: Marks,
) -> Result<(), AllocError> {
    push_capital(text, vocabulary.word(random))?;
    for _ in 0..3 {
        text.push(' ')?;
        push_words(text, random, vocabulary, 4)?;
        text.push_str(vocabulary.word(random))?;
        match random.below(8) {
            0 => push_number(text, random.below(3000))?,
            1 => push_code(text, random, vocabulary, marks)?,
            _ => text.push(',')?,
        }
    }
    text.push_str(if random.below(5) == 0 {
        marks.paragraph
    } else {
        ". "
    })
}

/// Appends a word with its first letter in upper case, where that is a letter of ASCII.
fn push_capital(text: &mut String, word: &str) -> Result<(), AllocError> {
    let mut letters = word.chars();
    if let Some(first) = letters.next() {
        text.push(first.to_ascii_uppercase())?;
    }
    text.push_str(letters.as_str())
}

/// Appends a number of up to four digits.
fn push_number(text: &mut String, number: usize) -> Result<(), AllocError> {
    text.push(' ')?;
    for divisor in [1000, 100, 10, 1] {
        text.push(digit(number / divisor % 10))?;
    }
    Ok(())
}

fn digit(number: usize) -> char {
    match number {
        0 => '0',
        1 => '1',
        2 => '2',
        3 => '3',
        4 => '4',
        5 => '5',
        6 => '6',
        7 => '7',
        8 => '8',
        _ => '9',
    }
}

/// Appends a name of code in quotes, of two words.
fn push_code(
    text: &mut String,
    random: &mut Random,
    vocabulary: &Vocabulary,
    marks: Marks,
) -> Result<(), AllocError> {
    text.push(' ')?;
    text.push_str(marks.quote)?;
    text.push_str(vocabulary.word(random))?;
    text.push('_')?;
    text.push_str(vocabulary.word(random))?;
    text.push_str("()")?;
    text.push_str(marks.quote)
}
