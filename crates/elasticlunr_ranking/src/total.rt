//! What a query scores in several fields.
ghost use Rattle.std.specs.Prelude.{◌≡◌, List, map, IfOk};
ghost use Rattle.elasticlunr_error.specs.Text.{Text, texts_of};
ghost use Rattle.elasticlunr_ranking.specs.Fields.{Field, field_of};
ghost use Rattle.elasticlunr_ranking.specs.Weights.{AreAllLookedUp, total_score};
ghost use Rattle.elasticlunr_ranking.specs.Held.{told, Scores};
ghost use Rattle.elasticlunr_ranking.specs.Order.{AreBest, AreRanked, told_hits};

use crate::entries::entries_of;
use crate::field::SearchedField;
use crate::hits::{Hit, best, ranked};
use crate::tally::add_field;
use std::alloc::{AllocError, Global};
use std::collections::BTreeMap;

/// The documents that the tokens find in one or more of the fields, the best first, and equally
/// good ones in the order of their references' bytes.
///
/// It costs the postings of the words that the tokens match, each with a look-up among the
/// references that were found, and a sort of these.
pub fn ranked_hits(
    alloc: Global,
    fields: &[SearchedField],
    tokens: &[String],
) -> Result<Vec<Hit>, AllocError>
    ensures { IfOk result (λ hits. AreRanked (map field_of fields.now) (texts_of tokens.now)
        (told_hits hits.items)) }
{
    let scores = total_scores(alloc, fields, tokens)?;
    let hits = ranked(alloc, &scores)?;
    Ok(hits)
}

/// The first of these, at most `limit`. Only their references are copied.
///
/// In place of the sort, each reference that was found is compared with the last of the best ones
/// so far, which are kept in a heap.
pub fn best_hits(
    alloc: Global,
    fields: &[SearchedField],
    tokens: &[String],
    limit: usize,
) -> Result<Vec<Hit>, AllocError>
    ensures { IfOk result (λ hits. AreBest (map field_of fields.now) (texts_of tokens.now) limit
        (told_hits hits.items)) }
{
    let scores = total_scores(alloc, fields, tokens)?;
    let hits = best(alloc, &scores, limit)?;
    Ok(hits)
}

// The references that the tokens find, each once and with its score, in the order of their bytes.
fn total_scores<'a>(
    alloc: Global,
    fields: &[SearchedField<'a>],
    tokens: &[String],
) -> Result<Vec<(&'a str, f64)>, AllocError>
    ensures { IfOk result (λ scores. (looked_up : List (Field × List (Text × List Text)))
        × AreAllLookedUp (map field_of fields.now) (texts_of tokens.now) looked_up
        × Scores (told scores.items) (total_score looked_up)) }
{
    let mut totals = BTreeMap::new(alloc);
    for field in fields {
        add_field(alloc, field, tokens, &mut totals)?;
    }
    let entries = entries_of(alloc, &totals)?;
    Ok(entries)
}
