//! The fields that are searched, and their boosts.
ghost use Rattle.std.specs.Prelude.{◌≡◌, IfOk, IsTrue, nat_lt, unwrap_or};
ghost use Rattle.elasticlunr_text.specs.Text.{bytes_of};
ghost use Rattle.elasticlunr.specs.Fields.{borrowed};
ghost use Rattle.elasticlunr_hits.specs.Asked.{boosted, last_boost, searched};

use crate::asked::Asked;
use std::alloc::{AllocError, Global};

/// The names of the fields that are searched, in an index with these.
pub(crate) fn searched_names<'a>(
    alloc: Global,
    all: &'a [String],
    asked: &Asked<'a>,
) -> Result<Vec<&'a str>, AllocError>
    ensures { IfOk result (λ names. borrowed names.items ≡ searched asked.now (bytes_of all.now)) }
{
    if asked.fields.is_empty() {
        texts_of(alloc, all)
    } else {
        Vec::from_slice(alloc, &asked.fields)
    }
}

/// The texts of strings.
fn texts_of<'a>(alloc: Global, names: &'a [String]) -> Result<Vec<&'a str>, AllocError>
    ensures { IfOk result (λ texts. borrowed texts.items ≡ bytes_of names.now) }
{
    let mut texts = Vec::new(alloc);
    for name in names {
        texts.push(name.as_str())?;
    }
    Ok(texts)
}

/// Those of the names whose boost isn't 0.
pub(crate) fn boosted_names<'a>(
    alloc: Global,
    names: &[&'a str],
    boosts: &[(&str, u8)],
) -> Result<Vec<&'a str>, AllocError>
    ensures { IfOk result (λ kept. borrowed kept.items ≡ boosted boosts.now (borrowed names.now)) }
{
    let mut kept = Vec::from_slice(alloc, names)?;
    kept.retain(|name| is_boosted(boosts, *name));
    Ok(kept)
}

/// Whether the boost of a field isn't 0.
fn is_boosted(boosts: &[(&str, u8)], name: &str) -> bool
    ensures { result ≡ nat_lt 0 (unwrap_or (last_boost boosts.now name.now) 1) }
{
    boost_of(boosts, name).unwrap_or(1) > 0
}

/// The boost that is given last for a field.
pub(crate) fn boost_of(boosts: &[(&str, u8)], name: &str) -> Option<u8>
    ensures { result ≡ last_boost boosts.now name.now }
{
    let mut last = None;
    for (field, boost) in boosts {
        if *field == name {
            last = Some(*boost);
        }
    }
    last
}
