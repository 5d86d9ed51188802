//! What is found, the best first.
ghost use Rattle.std.specs.Prelude.{◌≡◌, ◌<◌, true, All, map, IfOk, OnOk};
ghost use Rattle.std.specs.BinaryHeap.{IsHeap, heap_items, heap_len};
ghost use Rattle.std.specs.Bool.{MatchBool};
ghost use Rattle.std.specs.List.{HoldsAt};
ghost use Rattle.std.specs.List.Sorted.{IsPermutation, IsSorted};
ghost use Rattle.std.specs.Ordering.{is_lt};
ghost use Rattle.elasticlunr_ranking.specs.Held.{told};
ghost use Rattle.elasticlunr_ranking.specs.Keys.{IsKey, IsLastOf, KeepsFirst, key_cmp, told_key};
ghost use Rattle.elasticlunr_ranking.specs.Order.{AreFirst, best_first, told_hits};

use std::alloc::{AllocError, Global};
use std::cmp::{OrderedFloat, Reverse};
use std::collections::BinaryHeap;

/// The hits that are asked for are few where they are less than one in so many.
const FEW: usize = 16;

/// A document that a search found, and its score.
#[derive(Drop)]
pub struct Hit {
    pub reference: String,
    pub score: f64,
}

// Whether the score is no number, the score, and the reference: the least key comes first.
type Key<'a> = (bool, Reverse<OrderedFloat<f64>>, &'a str);

fn key_of<'a>(reference: &'a str, score: f64) -> Key<'a>
    ensures told { told_key result ≡ (reference.now, score) }
    ensures key { IsKey result }
{
    (score.is_nan(), Reverse(OrderedFloat(score)), reference)
}

/// These references with their scores, the best first, and equally good ones in the order of their
/// bytes.
pub(crate) fn ranked(alloc: Global, scores: &[(&str, f64)]) -> Result<Vec<Hit>, AllocError>
    ensures permutation { IfOk result (λ hits. IsPermutation (told scores.now)
        (told_hits hits.items)) }
    ensures order { IfOk result (λ hits. IsSorted best_first (told_hits hits.items)) }
{
    let keys = sorted_keys(alloc, scores)?;
    let hits = hits_of(alloc, &keys)?;
    Ok(hits)
}

/// The first of these. Only the references that are returned are copied.
pub(crate) fn best(
    alloc: Global,
    scores: &[(&str, f64)],
    limit: usize,
) -> Result<Vec<Hit>, AllocError>
    ensures { IfOk result (λ hits. AreFirst (told scores.now) limit (told_hits hits.items)) }
{
    let keys = leading_keys(alloc, scores, limit)?;
    let hits = hits_of(alloc, &keys)?;
    Ok(hits)
}

fn sorted_keys<'a>(alloc: Global, scores: &[(&'a str, f64)]) -> Result<Vec<Key<'a>>, AllocError>
    ensures permutation { IfOk result (λ keys. IsPermutation (told scores.now)
        (map told_key keys.items)) }
    ensures order { IfOk result (λ keys. IsSorted best_first (map told_key keys.items)) }
{
    let mut keys = keys_of(alloc, scores)?;
    keys.sort_unstable();
    Ok(keys)
}

fn keys_of<'a>(alloc: Global, scores: &[(&'a str, f64)]) -> Result<Vec<Key<'a>>, AllocError>
    ensures told { IfOk result (λ keys. map told_key keys.items ≡ told scores.now) }
    ensures keys { IfOk result (λ keys. All IsKey keys.items) }
{
    let mut keys = Vec::with_capacity(alloc, scores.len())?;
    for (reference, score) in scores {
        keys.push(key_of(reference, *score))?;
    }
    Ok(keys)
}

// The first keys in order. A heap takes less time where they are few of all, and more where they
// are many: then all are sorted, and the others let go.
fn leading_keys<'a>(
    alloc: Global,
    scores: &[(&'a str, f64)],
    limit: usize,
) -> Result<Vec<Key<'a>>, AllocError>
    ensures { IfOk result (λ keys. AreFirst (told scores.now) limit (map told_key keys.items)) }
{
    if limit < scores.len() / FEW {
        return first_keys(alloc, scores, limit);
    }
    let mut keys = sorted_keys(alloc, scores)?;
    keys.truncate(limit);
    Ok(keys)
}

// The first keys in order. No more than `limit` are kept at a time, the last of them on top of the
// heap.
fn first_keys<'a>(
    alloc: Global,
    scores: &[(&'a str, f64)],
    limit: usize,
) -> Result<Vec<Key<'a>>, AllocError>
    ensures { IfOk result (λ keys. AreFirst (told scores.now) limit (map told_key keys.items)) }
{
    let mut kept = BinaryHeap::new(alloc);
    for (reference, score) in scores {
        keep_first(&mut kept, key_of(reference, *score), limit)?;
    }
    Ok(kept.into_sorted_vec())
}

// Takes in a key where there is room, or else where it comes before the last one, which goes.
fn keep_first<'a>(
    kept: &mut BinaryHeap<Key<'a>>,
    key: Key<'a>,
    limit: usize,
) -> Result<(), AllocError>
    requires { IsHeap key_cmp (heap_items kept.old) }
    ensures heap { OnOk result (IsHeap key_cmp (heap_items kept.new)) }
    ensures keeps { OnOk result (KeepsFirst limit (heap_items kept.old) key.entry
        (heap_items kept.new)) }
{
    if kept.len() < limit {
        kept.push(key)?;
    } else if is_before_last(&key, kept) {
        let _last = kept.pop();
        kept.push(key)?;
    }
    Ok(())
}

// Whether a key comes before the last one, if there is one.
fn is_before_last(key: &Key, kept: &BinaryHeap<Key>) -> bool
    requires { IsHeap key_cmp (heap_items kept.now) }
    ensures { MatchBool result ((0 < heap_len kept.now)
        × HoldsAt (λ last. is_lt (key_cmp key.now last) ≡ true) (heap_items kept.now) 0)
        (IsLastOf key.now (heap_items kept.now)) }
{
    match kept.peek() {
        Some(last) => key < last,
        None => false,
    }
}

fn hits_of(alloc: Global, keys: &[Key]) -> Result<Vec<Hit>, AllocError>
    ensures { IfOk result (λ hits. told_hits hits.items ≡ map told_key keys.now) }
{
    let mut hits = Vec::with_capacity(alloc, keys.len())?;
    for (_, score, reference) in keys {
        hits.push(Hit {
            reference: String::from_str(alloc, reference)?,
            score: score.0.0,
        })?;
    }
    Ok(hits)
}
