//! A search of one trie.
ghost use Rattle.std.specs.Prelude.{◌≡◌, ◌||◌, IfOk, OnOk, is_some};
ghost use Rattle.std.specs.List.Sorted.{IsStrictlySortedBy};
ghost use Rattle.std.specs.Str.{chars};
ghost use Rattle.elasticlunr_text.specs.Text.{Bytes, texts_of, bytes_of, text_cmp, is_listed};
ghost use Rattle.elasticlunr_trie.specs.References.{texts_in};
ghost use Rattle.elasticlunr_trie.specs.Table.{posting};
ghost use Rattle.elasticlunr_search.specs.Tries.{HaveAny, HaveAll, HaveAllAmong, has_among};
ghost use Rattle.elasticlunr_search.specs.Tries.{tables_of};

use elasticlunr_trie::{InvertedIndex, copied};
use std::alloc::{AllocError, Global};
use std::collections::BTreeSet;

/// The references that have a posting at one of the tokens, in the order of their bytes, each once.
pub(crate) fn find_any_in(
    alloc: Global,
    trie: &InvertedIndex,
    tokens: &[String],
) -> Result<Vec<String>, AllocError>
    ensures { IfOk result (λ found. HaveAny trie.now (texts_of tokens.now) (bytes_of found.items)) }
{
    let mut found = BTreeSet::new(alloc);
    for token in tokens {
        put_references(trie, token.as_str(), &mut found)?;
    }
    let found = copied(alloc, &found)?;
    Ok(found)
}

/// The references that have a posting at each token, of which there is one at least. Only those of
/// the first token are copied.
pub(crate) fn find_all_in(
    alloc: Global,
    trie: &InvertedIndex,
    tokens: &[String],
) -> Result<Vec<String>, AllocError>
    ensures { IfOk result (λ found. HaveAll trie.now (texts_of tokens.now) (bytes_of found.items)) }
{
    match tokens.split_first() {
        Some((first, others)) => {
            let mut found = references_of(trie, first.as_str())?;
            for token in others {
                found.retain(|reference| trie.has_posting(reference.as_str(), token.as_str()));
            }
            Ok(found)
        }
        None => Ok(Vec::new(alloc)),
    }
}

/// The references that have, at each token, of which there is one at least, a posting in one of the
/// tries. Only those of the first token are copied.
pub(crate) fn find_all_among(
    alloc: Global,
    tries: &[&InvertedIndex],
    tokens: &[String],
) -> Result<Vec<String>, AllocError>
    ensures { IfOk result (λ found. HaveAllAmong (tables_of tries.now) (texts_of tokens.now)
        (bytes_of found.items)) }
{
    match tokens.split_first() {
        Some((first, others)) => {
            let mut found = references_among(alloc, tries, first.as_str())?;
            for token in others {
                found.retain(|reference| is_among(tries, reference.as_str(), token.as_str()));
            }
            Ok(found)
        }
        None => Ok(Vec::new(alloc)),
    }
}

/// The references that have a posting at a token in one of the tries.
fn references_among(
    alloc: Global,
    tries: &[&InvertedIndex],
    token: &str,
) -> Result<Vec<String>, AllocError>
    ensures sorted { IfOk result (λ found. IsStrictlySortedBy text_cmp (bytes_of found.items)) }
    ensures listed { IfOk result (λ found. (r : Bytes)
        → is_listed r (bytes_of found.items) ≡ has_among (tables_of tries.now)
        (chars token.now) r) }
{
    let mut found = BTreeSet::new(alloc);
    for trie in tries {
        put_references(trie, token, &mut found)?;
    }
    let found = copied(alloc, &found)?;
    Ok(found)
}

/// Whether the reference has a posting at a token in one of the tries.
fn is_among(tries: &[&InvertedIndex], reference: &str, token: &str) -> bool
    ensures { result ≡ has_among (tables_of tries.now) (chars token.now) reference.now }
{
    for trie in tries {
        if trie.has_posting(reference, token) {
            return true;
        }
    }
    false
}

/// Puts the references that have a posting at a token into a set.
fn put_references<'a>(
    trie: &'a InvertedIndex,
    token: &str,
    found: &mut BTreeSet<&'a str>,
) -> Result<(), AllocError>
    ensures { OnOk result ((r : Bytes) → is_listed r (texts_in found.new)
        ≡ (is_listed r (texts_in found.old) || is_some (posting trie.now (chars token.now) r))) }
{
    match trie.put_references(token, found) {
        Ok(()) => Ok(()),
        Err(_) => Err(AllocError),
    }
}

/// The references that have a posting at a token.
fn references_of(trie: &InvertedIndex, token: &str) -> Result<Vec<String>, AllocError>
    ensures sorted { IfOk result (λ found. IsStrictlySortedBy text_cmp (bytes_of found.items)) }
    ensures listed { IfOk result (λ found. (r : Bytes)
        → is_listed r (bytes_of found.items) ≡ is_some (posting trie.now (chars token.now) r)) }
{
    match trie.references(token) {
        Ok(references) => Ok(references),
        Err(_) => Err(AllocError),
    }
}
