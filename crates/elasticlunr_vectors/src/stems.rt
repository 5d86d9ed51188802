//! The stems of the lines of standard input.
use crate::failure::Failure;
use elasticlunr_stem_tables::{Language, Version};
use elasticlunr_stems::Stemmer;
use std::io::{self, Write};

/// Writes the stem of each line, on a line.
pub fn run(rt: &HostRuntime, code: &str, version: &str) -> Result<(), Failure> {
    let version = match version {
        "current" => Version::Current,
        "older" => Version::Older,
        _ => return Err(Failure::Unknown),
    };
    let Some(language) = language_of(code) else {
        return Err(Failure::Unknown);
    };
    let stemmer = Stemmer::read(rt.alloc(), language.table(version))?;
    let text = io::read_to_string(rt.alloc(), rt.stdin())?;
    let mut stems = String::new(rt.alloc());
    for word in text.as_str().lines() {
        let stem = stemmer.stem(rt.alloc(), String::from_str(rt.alloc(), word)?)?;
        stems.push_str(stem.as_str())?;
        stems.push('\n')?;
    }
    rt.stdout().write_all(stems.as_str().as_bytes())?;
    Ok(())
}

fn language_of(code: &str) -> Option<Language> {
    Language::ALL
        .iter()
        .copied()
        .find(|language| language.code() == code)
}
