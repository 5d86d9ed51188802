//! What one word weighs for one document.
ghost use Rattle.std.specs.Prelude.{◌≡◌, ◌<◌, ◌^◌, length, count_by, nat_le};
ghost use Rattle.std.specs.Str.{chars};
ghost use Rattle.elasticlunr_ranking.specs.Weights.{idf_of, norm_of, penalty_of, utf16_length_of};

use crate::logarithm::{ONE, logarithm};
use std::num::nearest_usize_to_f64;

// What a word that goes on counts at most.
pub(crate) const EXPANDED: f64 = 0.15;

// The first character that UTF-16 writes in two units.
pub(crate) const TWO_UNITS: char = '\u{10000}';

/// How much a word says that `found` of some documents have.
pub(crate) fn idf(documents: usize, found: usize) -> f64
    ensures { result ≡ idf_of documents found }
{
    ONE + logarithm(nearest_usize_to_f64(documents) / (nearest_usize_to_f64(found) + ONE))
}

/// How much a word counts in a field that has so many tokens.
pub(crate) fn norm(length: usize) -> f64
    ensures { result ≡ norm_of length }
{
    if length == 0 {
        ONE
    } else {
        ONE / nearest_usize_to_f64(length).sqrt()
    }
}

/// How much a word counts that a token of the query begins.
pub(crate) fn penalty(token: &str, word: &str) -> f64
    ensures { result ≡ penalty_of (chars token.now) (chars word.now) }
{
    let shorter = utf16_length(token);
    let length = utf16_length(word);
    if length == shorter {
        return ONE;
    }
    let (shorter, length) = (nearest_usize_to_f64(shorter), nearest_usize_to_f64(length));
    EXPANDED * (ONE - (length - shorter) / length)
}

// How many units UTF-16 writes the text in: one for each character, and one more for some.
fn utf16_length(text: &str) -> usize
    ensures { result ≡ utf16_length_of (chars text.now) }
{
    characters(text) + wide_characters(text)
}

fn characters(text: &str) -> usize
    ensures value { result ≡ length (chars text.now) }
    ensures small { result < 2 ^ 63 }
{
    text.chars().count()
}

fn wide_characters(text: &str) -> usize
    ensures value { result ≡ count_by (λ c. nat_le TWO_UNITS c) (chars text.now) }
    ensures small { result < 2 ^ 63 }
{
    text.chars().filter(|c| *c >= TWO_UNITS).count()
}
