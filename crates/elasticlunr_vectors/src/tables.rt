//! The tables: each line is compared with what the library answers.
use crate::{cells, scripts};
use elasticlunr::lang::en::{self, Stemmer};
use elasticlunr::lang::tokenize_whitespace;
use elasticlunr::root;
use std::alloc::{AllocError, Global};
use std::{fs, io};

/// A table, by what its lines say.
#[derive(Clone, Copy)]
pub enum Table {
    /// A word and its stem.
    Stems,
    /// A text and the five answers as digits.
    FiveTests,
    /// A text and its words.
    Tokens,
    /// A count and its root.
    Roots,
    /// A class text and the script that it names.
    Scripts,
}

impl Table {
    fn file(self) -> &'static str {
        match self {
            Table::Stems => "stems.tsv",
            Table::FiveTests => "five-tests.tsv",
            Table::Tokens => "tokens.tsv",
            Table::Roots => "roots.tsv",
            Table::Scripts => "scripts.tsv",
        }
    }

    fn is_right(self, alloc: Global, line: &str) -> Result<bool, AllocError> {
        match self {
            Table::Stems => is_stem(alloc, line),
            Table::FiveTests => has_answers(alloc, line),
            Table::Tokens => has_tokens(alloc, line),
            Table::Roots => Ok(is_root(line)),
            Table::Scripts => scripts::is_named(alloc, line),
        }
    }
}

/// How many lines of a table the library answers as the table says, and how many it does not.
#[derive(Clone, Copy)]
pub struct Counts {
    right: u64,
    wrong: u64,
}

impl Counts {
    pub fn new() -> Counts {
        Counts { right: 0, wrong: 0 }
    }

    pub fn add(&mut self, right: bool) {
        if right {
            self.right = self.right.saturating_add(1);
        } else {
            self.wrong = self.wrong.saturating_add(1);
        }
    }

    pub fn tell(self, rt: &HostRuntime, name: &str) -> io::Result<()> {
        println!(rt; "{name}: {} right, {} wrong", self.right, self.wrong)
    }
}

/// Runs a table.
pub fn run(rt: &HostRuntime, table: Table) -> io::Result<()> {
    let text = fs::read_to_string(rt, table.file())?;
    let mut counts = Counts::new();
    for line in text.as_str().lines() {
        counts.add(table.is_right(rt.alloc(), line)?);
    }
    counts.tell(rt, table.file())
}

fn is_stem(alloc: Global, line: &str) -> Result<bool, AllocError> {
    let Some((word, stem)) = line.split_once('\t') else {
        return Ok(false);
    };
    let (Some(word), Some(stem)) = (cells::text(alloc, word)?, cells::text(alloc, stem)?) else {
        return Ok(false);
    };
    Ok(Stemmer::new().stem(word)? == stem)
}

fn has_answers(alloc: Global, line: &str) -> Result<bool, AllocError> {
    let Some((text, answers)) = line.split_once('\t') else {
        return Ok(false);
    };
    let Some(text) = cells::text(alloc, text)? else {
        return Ok(false);
    };
    let text = text.as_str();
    let found = [
        en::m_above_0(text),
        en::m_above_1(text),
        en::m_is_1(text),
        en::has_vowel(text),
        en::is_short(text),
    ];
    Ok(
        answers.len() == 5
            && answers
                .chars()
                .zip(found)
                .all(|(digit, holds)| (digit == '1') == holds),
    )
}

fn has_tokens(alloc: Global, line: &str) -> Result<bool, AllocError> {
    let Some((text, tokens)) = line.split_once('\t') else {
        return Ok(false);
    };
    let (Some(text), Some(tokens)) = (cells::text(alloc, text)?, cells::texts(alloc, tokens)?)
    else {
        return Ok(false);
    };
    Ok(tokenize_whitespace(alloc, text.as_str())? == tokens)
}

fn is_root(line: &str) -> bool {
    let Some((count, expected)) = line.split_once('\t') else {
        return false;
    };
    match (cells::number(count), cells::number(expected)) {
        (Some(count), Some(expected)) => root(count) == expected,
        _ => false,
    }
}
