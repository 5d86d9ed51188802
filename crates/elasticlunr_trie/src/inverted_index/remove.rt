//! Taking postings away. The nodes stay.
ghost use Rattle.std.specs.Prelude.{◌≡◌, ℕ, ◌<◌, IsTrue, Some, length};
ghost use Rattle.std.specs.Str.{chars};
ghost use Rattle.std.specs.FinMap.{get};
ghost use Rattle.elasticlunr_trie_nodes.specs.Nodes.{postings_at, has, AreListed, ClearsNumber};
ghost use Rattle.elasticlunr_trie_nodes.specs.Nodes.{LosesNumber, LosesReference};
ghost use Rattle.elasticlunr_trie_nodes.specs.Trie.{IsTrie, RemovesPosting};

use elasticlunr_trie_nodes::child::Child;
use elasticlunr_trie_nodes::lists::unlist;
use elasticlunr_trie_nodes::names::Names;
use elasticlunr_trie_nodes::nodes::{Node, Place, Reference, find};
use elasticlunr_trie_nodes::number_list::NumberList;
use std::alloc::Global;
use std::mem;

// Takes a posting of a node away.
fn clear_number(nodes: &mut Vec<Node>, k: usize, number: usize)
    requires { k < length nodes.old.items }
    ensures { ClearsNumber nodes.old.items nodes.new.items k number }
{
    nodes[k].postings.remove(number);
}

// Takes the postings of a reference away, at the nodes that it lists.
fn remove_number(nodes: &mut Vec<Node>, list: &NumberList, number: usize)
    requires { (k f : ℕ) → get (postings_at nodes.old.items k) number ≡ Some f
        → IsTrue (has list.now.items k) }
    ensures { LosesNumber nodes.old.items nodes.new.items number }
{
    for i in 0..list.len() {
        let at = list.get(i);
        if at < nodes.len() {
            clear_number(nodes, at, number);
        }
    }
}

// Takes the postings of a reference away. The work is in proportion to them.
pub(super) fn remove_postings(
    alloc: Global,
    names: &Names,
    references: &mut Vec<Reference>,
    nodes: &mut Vec<Node>,
    doc_ref: &str,
)
    requires { AreListed names.now references.old.items nodes.old.items }
    ensures listed { AreListed names.now references.new.items nodes.new.items }
    ensures loses { LosesReference names.now nodes.old.items nodes.new.items doc_ref.now }
{
    let Some(number) = names.number_of(doc_ref) else {
        return;
    };
    if number >= references.len() {
        return;
    }
    let list = mem::replace(&mut references[number].nodes, NumberList::new(alloc));
    remove_number(nodes, &list, number);
}

// Takes the posting of a token away.
pub(super) fn remove_posting(
    root: &[Child],
    names: &Names,
    references: &mut Vec<Reference>,
    nodes: &mut Vec<Node>,
    doc_ref: &str,
    token: &str,
)
    requires trie { IsTrie root.now nodes.old.items }
    requires listed { AreListed names.now references.old.items nodes.old.items }
    ensures listed { AreListed names.now references.new.items nodes.new.items }
    ensures removes { RemovesPosting root.now names.now nodes.old.items nodes.new.items
        (chars token.now) doc_ref.now }
{
    let Some(number) = names.number_of(doc_ref) else {
        return;
    };
    if let Some(Place::At(k)) = find(root, nodes, token) {
        clear_number(nodes, k, number);
        unlist(references, number, k);
    }
}
