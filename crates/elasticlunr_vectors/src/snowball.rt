//! The tables of Snowball's words and their stems.
use crate::failure::Failure;
use crate::tables::Counts;
use elasticlunr_stem_tables::{Language, Version};
use elasticlunr_stems::Stemmer;
use std::alloc::{AllocError, Global};
use std::fs;

/// The languages of which the older version has a table of its own.
const CHANGED: [Language; 5] = [
    Language::Danish,
    Language::Finnish,
    Language::French,
    Language::Portuguese,
    Language::Russian,
];

/// Runs the tables of a version.
pub fn run(rt: &HostRuntime, version: Version) -> Result<(), Failure> {
    match version {
        Version::Current => {
            for language in Language::ALL {
                run_one(rt, "current", language, version)?;
            }
        }
        Version::Older => {
            for language in CHANGED {
                run_one(rt, "older", language, version)?;
            }
        }
    }
    Ok(())
}

fn run_one(
    rt: &HostRuntime,
    folder: &str,
    language: Language,
    version: Version,
) -> Result<(), Failure> {
    let file = format!(in rt.alloc(); "snowball/{folder}/{}.tsv", language.code())?;
    let text = fs::read_to_string(rt, file.as_str())?;
    let stemmer = Stemmer::read(rt.alloc(), language.table(version))?;
    let mut counts = Counts::new();
    for line in text.as_str().lines() {
        counts.add(is_right(rt.alloc(), &stemmer, line)?);
    }
    counts.tell(rt, file.as_str())?;
    Ok(())
}

fn is_right(alloc: Global, stemmer: &Stemmer, line: &str) -> Result<bool, AllocError> {
    let Some((word, stem)) = line.split_once('\t') else {
        return Ok(false);
    };
    let found = stemmer.stem(alloc, String::from_str(alloc, word)?)?;
    Ok(found.as_str() == stem)
}
