//! What one token of a query scores.
ghost use Rattle.std.specs.Prelude.{◌≡◌, List, IfOk, OnOk};
ghost use Rattle.std.specs.Str.{chars};
ghost use Rattle.elasticlunr_error.specs.Text.{Text, Bytes, texts_of};
ghost use Rattle.elasticlunr_trie.specs.Tokens.{told_postings};
ghost use Rattle.elasticlunr_ranking.specs.Fields.{field_of};
ghost use Rattle.elasticlunr_ranking.specs.Weights.{AreWordsOf, added, part, token_score};
ghost use Rattle.elasticlunr_ranking.specs.Held.{held, told, Scores, under, add_weight};

use crate::entries::entries_of;
use crate::field::SearchedField;
use crate::logarithm::ZERO;
use crate::weight::{idf, norm, penalty};
use std::alloc::{AllocError, Global};
use std::collections::BTreeMap;
use std::num::nearest_u64_to_f64;

/// The references that have a word of the token, in the order of their bytes, each with what the
/// token scores for it.
pub(crate) fn token_scores<'a>(
    alloc: Global,
    field: &SearchedField<'a>,
    token: &str,
) -> Result<Vec<(&'a str, f64)>, AllocError>
    ensures { IfOk result (λ scores. (words : List Text)
        × AreWordsOf field.now.trie.now field.now.expand (chars token.now) words
        × Scores (told scores.items) (token_score (field_of field.now) (chars token.now) words)) }
{
    let words = words_of(alloc, field, token)?;
    let mut scores = BTreeMap::new(alloc);
    for word in &words {
        add_word(alloc, field, token, word.as_str(), &mut scores)?;
    }
    let entries = entries_of(alloc, &scores)?;
    Ok(entries)
}

// The words that a token matches.
fn words_of(alloc: Global, field: &SearchedField, token: &str) -> Result<Vec<String>, AllocError>
    ensures { IfOk result (λ words. AreWordsOf field.now.trie.now field.now.expand
        (chars token.now)
        (texts_of words.items)) }
{
    if field.expand {
        return field.trie.tokens(alloc, token);
    }
    let mut words = Vec::new(alloc);
    words.push(String::from_str(alloc, token)?)?;
    Ok(words)
}

// Adds what a word of the token weighs for each reference that has it.
fn add_word<'a>(
    alloc: Global,
    field: &SearchedField<'a>,
    token: &str,
    word: &str,
    scores: &mut BTreeMap<&'a str, f64>,
) -> Result<(), AllocError>
    ensures { OnOk result ((r : Bytes) → held scores.new r ≡ added (held scores.old r)
        (part (field_of field.now) (chars token.now) (chars word.now) r)) }
{
    let postings = field.trie.postings(alloc, word)?;
    let documents = field.store.len();
    let idf = idf(documents, postings.len());
    let penalty = penalty(token, word);
    add_postings(field, &postings, idf, penalty, scores)?;
    Ok(())
}

// Adds what postings weigh.
fn add_postings<'a>(
    field: &SearchedField<'a>,
    postings: &[(&'a str, u64)],
    idf: f64,
    penalty: f64,
    scores: &mut BTreeMap<&'a str, f64>,
) -> Result<(), AllocError>
    ensures { OnOk result ((r : Bytes) → held scores.new r ≡ under
        (add_weight (field_of field.now) idf penalty) r (held scores.old r)
        (told_postings postings.now)) }
{
    for (reference, frequency) in postings {
        let norm = norm(field.store.get_field_length(reference, field.name));
        let weight = nearest_u64_to_f64(*frequency) * idf * norm * penalty;
        let score = scores.get(*reference).copied().unwrap_or(ZERO);
        scores.insert(*reference, score + weight)?;
    }
    Ok(())
}
