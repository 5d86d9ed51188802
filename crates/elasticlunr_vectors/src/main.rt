//! Runs tables of examples against the library and the stemmers, and prints for each how many of
//! its lines are right. With the code of a language and `current` or `older` as arguments it stems
//! the lines of standard input instead, and prints a stem for each.
#![tactic(auto)]

mod cells;
mod failure;
mod scripts;
mod snowball;
mod stems;
mod stop_words;
mod tables;

use crate::failure::Failure;
use crate::tables::Table;
use elasticlunr_stem_tables::Version;
use std::env;
use std::process::ExitCode;

const TABLES: [Table; 5] = [
    Table::Stems,
    Table::FiveTests,
    Table::Tokens,
    Table::Roots,
    Table::Scripts,
];

/// The languages that have a list of stop words, by their codes.
const STOPPED: [&str; 16] = [
    "da", "de", "du", "en", "es", "fi", "fr", "hu", "it", "ko", "no", "pt", "ro", "ru", "sv", "tr",
];

/// Runs all tables.
fn run_all(rt: &HostRuntime) -> Result<(), Failure> {
    for table in TABLES {
        tables::run(rt, table)?;
    }
    for code in STOPPED {
        stop_words::run(rt, code)?;
    }
    snowball::run(rt, Version::Current)?;
    snowball::run(rt, Version::Older)
}

fn answer(rt: &HostRuntime) -> Result<(), Failure> {
    let words: Vec<String> = env::args(rt)?.collect(rt.alloc())?;
    match (words.get(1), words.get(2)) {
        (Some(code), Some(version)) => stems::run(rt, code.as_str(), version.as_str()),
        _ => run_all(rt),
    }
}

fn main(rt: HostRuntime) -> ExitCode {
    match answer(&rt) {
        Ok(()) => ExitCode::from(0u8),
        Err(_) => ExitCode::from(1u8),
    }
}
