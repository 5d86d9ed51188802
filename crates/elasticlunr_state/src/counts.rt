//! How often each token of a field stands there, and the postings that this makes.
ghost use Rattle.std.specs.Prelude.{IfOk, OnOk, IsOkUnless, string_eq};
ghost use Rattle.std.specs.List.{IsDistinct};
ghost use Rattle.std.specs.Map.{keys_of};
ghost use Rattle.elasticlunr_error.specs.declared.error.IndexError.TheVariants.{Memory};
ghost use Rattle.elasticlunr_trie.specs.Table.{told_tokens};
ghost use Rattle.elasticlunr_state.specs.Counted.{AreCounts, AreRooted, count_at, counted_texts};
ghost use Rattle.elasticlunr_state.specs.Counted.{entries_of, Posts};
ghost use Rattle.elasticlunr_state.specs.Others.{OthersStayIn};

use elasticlunr_commands::root;
use elasticlunr_error::IndexError;
use elasticlunr_trie::InvertedIndex;
use std::alloc::{AllocError, Global};
use std::collections::{BTreeMap, HashMap};

/// So many tokens of a field are counted by their hashes, and more of them in order.
const HASHED_TOKENS: usize = 2048;

/// How often each text stands among the tokens of a field.
///
/// The hash has a fixed seed, so words can be chosen that share one, and each of them is then
/// compared with all the others. The order of texts has no such words.
#[derive(Drop)]
pub enum Counts {
    Hashed(HashMap<String, u64>),
    Ordered(BTreeMap<String, u64>),
}

/// How often each text stands among the tokens. The cost for each is one look-up by hash, or, of
/// many tokens, one in an ordered map.
pub fn count_tokens(alloc: Global, tokens: Vec<String>) -> Result<Counts, IndexError>
    ensures memory { IsOkUnless result Memory }
    ensures counted { IfOk result (λ counts. AreCounts tokens.items
        (count_at (entries_of counts))) }
{
    if tokens.len() <= HASHED_TOKENS {
        count_by_hash(alloc, tokens)
    } else {
        count_in_order(alloc, tokens)
    }
}

/// The same by a hash map.
fn count_by_hash(alloc: Global, tokens: Vec<String>) -> Result<Counts, IndexError>
    ensures memory { IsOkUnless result Memory }
    ensures counted { IfOk result (λ counts. AreCounts tokens.items
        (count_at (entries_of counts))) }
{
    let mut counts = HashMap::with_capacity(alloc, tokens.len())?;
    for token in tokens {
        *counts.entry(token)?.or_insert(0) += 1;
    }
    Ok(Counts::Hashed(counts))
}

/// The same by an ordered map.
fn count_in_order(alloc: Global, tokens: Vec<String>) -> Result<Counts, IndexError>
    ensures memory { IsOkUnless result Memory }
    ensures counted { IfOk result (λ counts. AreCounts tokens.items
        (count_at (entries_of counts))) }
{
    let mut counts = BTreeMap::new(alloc);
    for token in tokens {
        *counts.entry(token)?.or_insert(0) += 1;
    }
    Ok(Counts::Ordered(counts))
}

/// Each counted token with the root of its count.
fn rooted_counts<'a>(alloc: Global, counts: &'a Counts) -> Result<Vec<(&'a str, u64)>, AllocError>
    ensures unique { IsDistinct string_eq (keys_of (entries_of counts.now)) }
    ensures rooted { IfOk result (λ v. AreRooted (counted_texts (entries_of counts.now))
        (told_tokens v.items)) }
{
    match counts {
        Counts::Hashed(counts) => rooted_by_hash(alloc, counts),
        Counts::Ordered(counts) => rooted_in_order(alloc, counts),
    }
}

/// The same of a hash map.
fn rooted_by_hash<'a>(
    alloc: Global,
    counts: &'a HashMap<String, u64>,
) -> Result<Vec<(&'a str, u64)>, AllocError>
    ensures unique { IsDistinct string_eq (keys_of counts.now.entries) }
    ensures rooted { IfOk result (λ v. AreRooted (counted_texts counts.now.entries)
        (told_tokens v.items)) }
{
    let mut rooted = Vec::with_capacity(alloc, counts.len())?;
    for (token, count) in counts.iter() {
        rooted.push((token.as_str(), root(*count)))?;
    }
    Ok(rooted)
}

/// The same of an ordered map.
fn rooted_in_order<'a>(
    alloc: Global,
    counts: &'a BTreeMap<String, u64>,
) -> Result<Vec<(&'a str, u64)>, AllocError>
    ensures unique { IsDistinct string_eq (keys_of counts.now.entries) }
    ensures rooted { IfOk result (λ v. AreRooted (counted_texts counts.now.entries)
        (told_tokens v.items)) }
{
    let mut rooted = Vec::with_capacity(alloc, counts.len())?;
    for (token, count) in counts.iter() {
        rooted.push((token.as_str(), root(*count)))?;
    }
    Ok(rooted)
}

/// Gives the reference a posting at each counted token: the root of its count. The empty text gets
/// none.
pub fn add_postings(
    alloc: Global,
    trie: &mut InvertedIndex,
    doc_ref: &str,
    counts: &Counts,
) -> Result<(), IndexError>
    ensures memory { IsOkUnless result Memory }
    ensures unique { IsDistinct string_eq (keys_of (entries_of counts.now)) }
    ensures posted { OnOk result (Posts trie.old trie.new doc_ref.now
        (counted_texts (entries_of counts.now))) }
    ensures others_stay { OthersStayIn doc_ref.now trie.old trie.new }
{
    let rooted = rooted_counts(alloc, counts)?;
    trie.add_tokens(doc_ref, &rooted)
}
