//! What the words of `search` ask for.

use clap::ArgMatches;
use elasticlunr_hits::asked::{Asked, Needed};
use std::alloc::{AllocError, AllocFailed, Global};

/// How many hits are printed where `--limit` isn't given.
const LIMIT: u64 = 10;

/// Why the words ask for nothing.
#[derive(Drop)]
pub enum Misuse<'a> {
    /// This is no field with its boost.
    NoBoost(&'a str),
    /// This field, which has a boost, isn't searched.
    NotSearched(&'a str),
    Memory,
}

impl<'a> From<AllocError> for Misuse<'a> {
    ghost use Rattle.elasticlunr_cli_search.specs.declared.asked.Misuse.TheVariants.{Memory};
    ghost use Rattle.std.specs.Prelude.{◌≡◌};

    ghost from_gives = { λ _ e. e ≡ Memory };

    fn from(_refused: AllocError) -> Misuse<'a> {
        Misuse::Memory
    }
}

impl<'a, T: Drop> From<AllocFailed<T>> for Misuse<'a> {
    ghost use Rattle.elasticlunr_cli_search.specs.declared.asked.Misuse.TheVariants.{Memory};
    ghost use Rattle.std.specs.Prelude.{◌≡◌};

    ghost from_gives = { λ _ e. e ≡ Memory };

    fn from(_refused: AllocFailed<T>) -> Misuse<'a> {
        Misuse::Memory
    }
}

/// What the words ask for.
pub fn asked_of<'a>(alloc: Global, given: &ArgMatches<'a>) -> Result<Asked<'a>, Misuse<'a>> {
    let fields = texts_given(alloc, given, "field")?;
    let boosts = boosts_of(alloc, &texts_given(alloc, given, "boost")?)?;
    if let Some(field) = first_unsearched(&fields, &boosts) {
        return Err(Misuse::NotSearched(field));
    }
    Ok(Asked {
        query: given.get_str("query").unwrap_or(""),
        needed: needed_of(given),
        expand: given.get_flag("expand"),
        fields,
        boosts,
        limit: limit_of(given),
    })
}

/// The values of an option.
fn texts_given<'a>(
    alloc: Global,
    given: &ArgMatches<'a>,
    name: &str,
) -> Result<Vec<&'a str>, AllocError> {
    let mut texts = Vec::new(alloc);
    if let Some(values) = given.get_strs(name) {
        for value in values {
            texts.push(*value)?;
        }
    }
    Ok(texts)
}

fn needed_of(given: &ArgMatches<'_>) -> Needed {
    if given.get_flag("all") {
        Needed::Each
    } else if given.get_str("bool") == Some("AND") {
        Needed::EachInOneField
    } else {
        Needed::One
    }
}

/// How many hits are printed: no limit where `--limit` is 0.
fn limit_of(given: &ArgMatches<'_>) -> Option<usize> {
    match given.get_one::<u64>("limit").unwrap_or(LIMIT) {
        0 => None,
        limit => Some(limit as usize),
    }
}

/// The fields and boosts of texts such as `title=2`.
fn boosts_of<'a>(alloc: Global, texts: &[&'a str]) -> Result<Vec<(&'a str, u8)>, Misuse<'a>> {
    let mut boosts = Vec::new(alloc);
    for text in texts {
        let Some(boost) = boost_of(*text) else {
            return Err(Misuse::NoBoost(*text));
        };
        boosts.push(boost)?;
    }
    Ok(boosts)
}

/// A field and its boost.
fn boost_of(text: &str) -> Option<(&str, u8)> {
    let (field, number) = text.rsplit_once('=')?;
    match number.parse::<u8>() {
        Ok(boost) => Some((field, boost)),
        Err(_) => None,
    }
}

/// The first field that has a boost and isn't searched.
fn first_unsearched<'a>(fields: &[&'a str], boosts: &[(&'a str, u8)]) -> Option<&'a str> {
    if fields.is_empty() {
        return None;
    }
    for (field, _) in boosts {
        if !fields.contains(field) {
            return Some(*field);
        }
    }
    None
}
