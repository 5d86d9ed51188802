//! Comparing two tries.
ghost use Rattle.std.specs.Prelude.{◌≡◌, ◌<◌, ◌↔◌, ℕ, Some, length, IsTrue, slice_get};
ghost use Rattle.elasticlunr_error.specs.Text.{Bytes};
ghost use Rattle.std.specs.FinMap.{entries, get};
ghost use Rattle.elasticlunr_trie_nodes.specs.Names.{ArePostings, named_pairs, AreNames};
ghost use Rattle.elasticlunr_trie_nodes.specs.Names.{AreNumbered, at};
ghost use Rattle.elasticlunr_trie_nodes.specs.Nodes.{postings_at, AreAllNumbered};
ghost use Rattle.elasticlunr_trie_nodes.specs.Trie.{named, IsTrie};
ghost use Rattle.elasticlunr_trie.specs.Same.{IsSameBelow};

use elasticlunr_trie_nodes::child::Child;
use elasticlunr_trie_nodes::names::Names;
use elasticlunr_trie_nodes::nodes::{Node, Place, children_at, frequency_of, postings_at};
use elasticlunr_trie_nodes::postings::Postings;

// Has the name of a number this posting on the other side?
fn same_posting(
    names: &Names,
    number: usize,
    frequency: u64,
    names2: &Names,
    postings2: &Postings,
) -> bool
    requires { number < length names.now }
    ensures { IsTrue result ↔ ((r : Bytes) → slice_get names.now number ≡ Some r
        → at names2.now r postings2.now ≡ Some frequency) }
{
    frequency_of(names2, postings2, names.name(number)) == Some(frequency)
}

// Is each of these postings one of the others?
fn includes(names: &Names, postings: &Postings, names2: &Names, postings2: &Postings) -> bool
    requires names { AreNames names.now }
    requires postings { ArePostings names.now (entries postings.now) }
    ensures { IsTrue result ↔ ((r : Bytes) → (f : ℕ) → get (named_pairs names.now
        (entries postings.now)) r ≡ Some f
        → at names2.now r postings2.now ≡ Some f) }
{
    for i in 0..postings.len() {
        let (number, frequency) = postings.at(i);
        if !same_posting(names, number, frequency, names2, postings2) {
            return false;
        }
    }
    true
}

// Are these the same postings?
fn same_postings(names: &Names, postings: &Postings, names2: &Names, postings2: &Postings) -> bool
    requires names { AreNames names.now }
    requires numbered { AreNumbered names.now postings.now }
    requires names2 { AreNames names2.now }
    requires numbered2 { AreNumbered names2.now postings2.now }
    ensures { IsTrue result ↔ (named names.now postings.now ≡ named names2.now postings2.now) }
{
    includes(names, postings, names2, postings2) && includes(names2, postings2, names, postings)
}

// Have these children the same character and the same postings?
fn same_child(
    names: &Names,
    nodes: &[Node],
    child: Child,
    names2: &Names,
    nodes2: &[Node],
    child2: Child,
) -> bool
    requires names { AreNames names.now }
    requires numbered { AreAllNumbered names.now nodes.now }
    requires names2 { AreNames names2.now }
    requires numbered2 { AreAllNumbered names2.now nodes2.now }
    requires in_range { child.1 < length nodes.now }
    requires in_range2 { child2.1 < length nodes2.now }
    ensures { IsTrue result ↔ ((child.0 ≡ child2.0)
        × (named names.now (postings_at nodes.now child.1)
        ≡ named names2.now (postings_at nodes2.now child2.1))) }
{
    if child.character() != child2.character() {
        return false;
    }
    same_postings(
        names,
        postings_at(nodes, child.node()),
        names2,
        postings_at(nodes2, child2.node()),
    )
}

// Are the texts below two places the same, with the same postings? Goes on with the last of the
// children, and comes back to the others, so a path without branches needs no stack.
pub(super) fn same_below(
    names: &Names,
    root: &[Child],
    nodes: &[Node],
    place: Place,
    names2: &Names,
    root2: &[Child],
    nodes2: &[Node],
    place2: Place,
) -> bool
    requires trie { IsTrie root.now nodes.now }
    requires names { AreNames names.now }
    requires numbered { AreAllNumbered names.now nodes.now }
    requires trie2 { IsTrie root2.now nodes2.now }
    requires names2 { AreNames names2.now }
    requires numbered2 { AreAllNumbered names2.now nodes2.now }
    ensures { IsTrue result ↔ IsSameBelow names.now root.now nodes.now place names2.now root2.now
        nodes2.now place2 }
{
    let mut here = place;
    let mut here2 = place2;
    loop {
        let children = children_at(root, nodes, here);
        let children2 = children_at(root2, nodes2, here2);
        if children.len() != children2.len() {
            return false;
        }
        if children.is_empty() {
            return true;
        }
        let last = children.len() - 1;
        for i in 0..last {
            let child = children[i];
            let child2 = children2[i];
            if !same_child(names, nodes, child, names2, nodes2, child2) {
                return false;
            }
            let below = Place::At(child.node());
            let below2 = Place::At(child2.node());
            if !same_below(names, root, nodes, below, names2, root2, nodes2, below2) {
                return false;
            }
        }
        let child = children[last];
        let child2 = children2[last];
        if !same_child(names, nodes, child, names2, nodes2, child2) {
            return false;
        }
        here = Place::At(child.node());
        here2 = Place::At(child2.node());
    }
}
