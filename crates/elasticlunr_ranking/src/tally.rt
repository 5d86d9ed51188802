//! What a query scores in one field.
ghost use Rattle.std.specs.Prelude.{◌≡◌, List, IfOk, OnOk, bytes_eq};
ghost use Rattle.std.specs.Map.{update};
ghost use Rattle.std.specs.Str.{chars};
ghost use Rattle.elasticlunr_error.specs.Text.{Text, Bytes, texts_of};
ghost use Rattle.elasticlunr_ranking.specs.Fields.{field_of};
ghost use Rattle.elasticlunr_ranking.specs.Weights.{AreLookedUp, added, field_score, is_enough};
ghost use Rattle.elasticlunr_ranking.specs.Weights.{shared};
ghost use Rattle.elasticlunr_ranking.specs.Held.{held, told, under, Scores};
ghost use Rattle.elasticlunr_ranking.specs.Tallies.{tallied, add_tally, tally_score, tally_of};
ghost use Rattle.elasticlunr_ranking.specs.Tallies.{add_score};

use crate::entries::entries_of;
use crate::field::SearchedField;
use crate::logarithm::ZERO;
use crate::token::token_scores;
use elasticlunr_store::SearchBool;
use std::alloc::{AllocError, Global};
use std::collections::BTreeMap;
use std::num::{nearest_u64_to_f64, nearest_usize_to_f64};

/// What the tokens so far score for a document, how many of them have it, and how many of these by
/// the token itself.
#[derive(Clone, Copy)]
pub(crate) struct Tally {
    pub score: f64,
    pub found: usize,
    pub exact: usize,
}

/// Adds what the tokens score in the field for each reference that they find there.
pub(crate) fn add_field<'a>(
    alloc: Global,
    field: &SearchedField<'a>,
    tokens: &[String],
    totals: &mut BTreeMap<&'a str, f64>,
) -> Result<(), AllocError>
    ensures { OnOk result ((looked_up : List (Text × List Text))
        × AreLookedUp (field_of field.now) (texts_of tokens.now) looked_up
        × ((r : Bytes) → held totals.new r ≡ added (held totals.old r)
        (field_score (field_of field.now) looked_up r))) }
{
    let tallies = field_tallies(alloc, field, tokens)?;
    add_tallies(field, tokens.len(), &tallies, totals)?;
    Ok(())
}

fn add_tallies<'a>(
    field: &SearchedField<'a>,
    tokens: usize,
    tallies: &[(&'a str, Tally)],
    totals: &mut BTreeMap<&'a str, f64>,
) -> Result<(), AllocError>
    ensures { OnOk result ((r : Bytes) → held totals.new r ≡ under
        (add_score (field_of field.now) tokens) r (held totals.old r) (told tallies.now)) }
{
    for (reference, tally) in tallies {
        add_part(reference, score_of(field, tokens, tally), totals)?;
    }
    Ok(())
}

// Adds a part of a reference's total, if it is there.
fn add_part<'a>(
    reference: &'a str,
    part: Option<f64>,
    totals: &mut BTreeMap<&'a str, f64>,
) -> Result<(), AllocError>
    ensures { OnOk result ((r : Bytes) → held totals.new r ≡ update bytes_eq (held totals.old)
        reference.now
        (added (held totals.old reference.now) part) r) }
{
    if let Some(part) = part {
        let total = totals.get(reference).copied().unwrap_or(ZERO);
        totals.insert(reference, total + part)?;
    }
    Ok(())
}

// The score of a document in the field, if it is found there.
fn score_of(field: &SearchedField, tokens: usize, tally: &Tally) -> Option<f64>
    ensures { result ≡ tally_score (field_of field.now) tokens tally.now }
{
    if field.boost == 0 || !is_enough(field.join, tokens, tally.found) {
        return None;
    }
    let boost = nearest_u64_to_f64(field.boost as u64);
    Some(share(tokens, tally.exact, tally.score) * boost)
}

// The score, by the share of the tokens that the document has itself.
fn share(tokens: usize, exact: usize, score: f64) -> f64
    ensures { result ≡ shared tokens exact score }
{
    if exact == 0 {
        score
    } else {
        score * nearest_usize_to_f64(exact) / nearest_usize_to_f64(tokens)
    }
}

// Whether a document stays that so many of the tokens found.
fn is_enough(join: SearchBool, tokens: usize, found: usize) -> bool
    ensures { result ≡ is_enough join tokens found }
{
    match join {
        SearchBool::Or => true,
        SearchBool::And => found == tokens,
    }
}

// The references that a token finds in the field, in the order of their bytes.
fn field_tallies<'a>(
    alloc: Global,
    field: &SearchedField<'a>,
    tokens: &[String],
) -> Result<Vec<(&'a str, Tally)>, AllocError>
    ensures { IfOk result (λ tallies. (looked_up : List (Text × List Text))
        × AreLookedUp (field_of field.now) (texts_of tokens.now) looked_up
        × Scores (told tallies.items) (tally_of (field_of field.now) looked_up)) }
{
    let mut tallies = BTreeMap::new(alloc);
    for token in tokens {
        let text = token.as_str();
        let scores = token_scores(alloc, field, text)?;
        add_token(field, text, &scores, &mut tallies)?;
    }
    let entries = entries_of(alloc, &tallies)?;
    Ok(entries)
}

// Adds what a token scores.
fn add_token<'a>(
    field: &SearchedField<'a>,
    token: &str,
    scores: &[(&'a str, f64)],
    tallies: &mut BTreeMap<&'a str, Tally>,
) -> Result<(), AllocError>
    ensures { OnOk result ((r : Bytes) → held tallies.new r ≡ under
        (add_tally (field_of field.now) (chars token.now)) r (held tallies.old r)
        (told scores.now)) }
{
    for (reference, score) in scores {
        let before = tallies.get(*reference).copied();
        let exact = field.trie.has_posting(reference, token);
        tallies.insert(*reference, tally_with(before, *score, exact))?;
    }
    Ok(())
}

fn tally_with(before: Option<Tally>, score: f64, exact: bool) -> Tally
    ensures { result ≡ tallied before score exact }
{
    let before = match before {
        Some(tally) => tally,
        None => Tally {
            score: ZERO,
            found: 0,
            exact: 0,
        },
    };
    Tally {
        score: before.score + score,
        found: before.found.saturating_add(1),
        exact: if exact {
            before.exact.saturating_add(1)
        } else {
            before.exact
        },
    }
}
