//! The postings of a token under the names of their references.
ghost use Rattle.std.specs.Prelude.{◌≡◌, ◌<◌, ℕ, length, slice_index, map, IfOk};
ghost use Rattle.std.specs.Str.{chars};
ghost use Rattle.std.specs.FinMap.{entries};
ghost use Rattle.elasticlunr_trie_nodes.specs.Pairs.{key_at};
ghost use Rattle.elasticlunr_trie_nodes.specs.Names.{AreNames, ArePostings, AreRanks, AreThere};
ghost use Rattle.elasticlunr_trie_nodes.specs.Names.{named_pairs, under_names};
ghost use Rattle.elasticlunr_trie_nodes.specs.Nodes.{AreAllNumbered};
ghost use Rattle.elasticlunr_trie_nodes.specs.Trie.{look, IsTrie};
ghost use Rattle.elasticlunr_trie_nodes.specs.Copied.{copied_postings};
ghost use Rattle.elasticlunr_trie_nodes.specs.Table.{postings_of};

use crate::child::Child;
use crate::names::{NameTexts, Names};
use crate::nodes::{Node, Place, find, postings_at};
use crate::postings::Postings;
use std::alloc::{AllocError, Global};
use std::collections::BTreeMap;

// A copy of postings, under names.
fn copy_postings(
    alloc: Global,
    names: &Names,
    postings: &Postings,
) -> Result<BTreeMap<String, u64>, AllocError>
    requires names { AreNames names.now }
    requires postings { ArePostings names.now (entries postings.now) }
    ensures { IfOk result (λ m. postings_of m.entries ≡ named_pairs names.now
        (entries postings.now)) }
{
    let mut docs = BTreeMap::new(alloc);
    for i in 0..postings.len() {
        let (number, frequency) = postings.at(i);
        docs.insert(String::from_str(alloc, names.name(number))?, frequency)?;
    }
    Ok(docs)
}

/// A copy of the postings of a token, if it is known.
pub fn copy_docs(
    alloc: Global,
    root: &[Child],
    nodes: &[Node],
    names: &Names,
    token: &str,
) -> Result<Option<BTreeMap<String, u64>>, AllocError>
    requires trie { IsTrie root.now nodes.now }
    requires names { AreNames names.now }
    requires numbered { AreAllNumbered names.now nodes.now }
    ensures { IfOk result (λ docs. copied_postings docs
        ≡ look root.now nodes.now names.now (chars token.now)) }
{
    match find(root, nodes, token) {
        None => Ok(None),
        Some(Place::Root) => Ok(Some(BTreeMap::new(alloc))),
        Some(Place::At(k)) => {
            let docs = copy_postings(alloc, names, postings_at(nodes, k))?;
            Ok(Some(docs))
        }
    }
}

// The rank of each posting's name, before its number and its frequency.
fn with_ranks(
    alloc: Global,
    ranks: &[usize],
    postings: &Postings,
) -> Result<Vec<(usize, usize, u64)>, AllocError>
    requires { (i : ℕ) → i < length (entries postings.now)
        → key_at (entries postings.now) i < length ranks.now }
    ensures { IfOk result (λ r. r.items ≡ map (λ p. (slice_index ranks.now p.0, p.0, p.1))
        (entries postings.now)) }
{
    let count = postings.len();
    let mut ranked = Vec::with_capacity(alloc, count)?;
    for i in 0..count {
        let (number, frequency) = postings.at(i);
        ranked.push((ranks[number], number, frequency))?;
    }
    Ok(ranked)
}

/// Postings in the order of their names, each as the rank of its name, the number and the
/// frequency.
pub fn in_order(
    alloc: Global,
    names: &NameTexts,
    ranks: &[usize],
    postings: &Postings,
) -> Result<Vec<(usize, usize, u64)>, AllocError>
    requires names { AreNames names.now }
    requires ranks { AreRanks names.now ranks.now }
    requires postings { ArePostings names.now (entries postings.now) }
    ensures shown { IfOk result (λ r. entries (named_pairs names.now (entries postings.now))
        ≡ under_names names.now (map (λ e. (e.1, e.2)) r.items)) }
    ensures there { IfOk result (λ r. AreThere names.now r.items) }
{
    let mut ranked = with_ranks(alloc, ranks, postings)?;
    ranked.sort_unstable_by_key(|&(rank, _, _)| rank);
    Ok(ranked)
}
