//! Jobs that users of the library wait for, each on an input that it makes from a seed. For each a
//! line goes to standard output: its name, and a digest of all its results. The same words give the
//! same line.
//!
//! usage: elasticlunr_bench NAME SIZE SEED, where NAME is `all` or the name of a job, SIZE says how
//! much of it is done, and SEED is a number.
#![tactic(auto)]

mod books;
mod digest;
mod edits;
mod failure;
mod inputs;
mod languages;
mod letters;
mod long;
mod pages;
mod random;
mod search;
mod vocabulary;

use crate::failure::Failure;
use std::alloc::Global;
use std::process::ExitCode;
use std::{env, io};

const NAMES: [&str; 6] = ["books", "languages", "inputs", "edits", "search", "long"];

fn main(rt: HostRuntime) -> io::Result<ExitCode> {
    let words: Vec<String> = env::args(&rt)?.collect(rt.alloc())?;
    let asked = (
        word(&words, 1),
        number(word(&words, 2)),
        number(word(&words, 3)),
    );
    let (name, Some(size), Some(seed)) = asked else {
        println!(rt; "usage: elasticlunr_bench NAME SIZE SEED")?;
        return Ok(ExitCode::from(64u8));
    };
    for work in NAMES {
        if name == "all" || name == work {
            let Ok(digest) = digest_of(rt.alloc(), work, size, seed) else {
                println!(rt; "{work} failed")?;
                return Ok(ExitCode::from(1u8));
            };
            println!(rt; "{work} {digest}")?;
        }
    }
    Ok(ExitCode::from(0u8))
}

/// The word of the command line at a place, the empty one where there is none.
fn word(words: &[String], at: usize) -> &str {
    match words.get(at) {
        Some(word) => word.as_str(),
        None => "",
    }
}

fn number(word: &str) -> Option<u32> {
    word.parse().ok()
}

/// Does the job of this name: the digest of its results.
fn digest_of(alloc: Global, name: &str, size: u32, seed: u32) -> Result<u64, Failure> {
    match name {
        "books" => books::run(alloc, size, seed),
        "languages" => languages::run(alloc, size, seed),
        "inputs" => inputs::run(alloc, size, seed),
        "edits" => edits::run(alloc, size, seed),
        "search" => search::run(alloc, size, seed),
        _ => long::run(alloc, size, seed),
    }
}
