//! Room for what several tokens add to the list of a reference, requested at once.
ghost use Rattle.std.specs.Prelude.{◌≡◌, ◌<◌, ℕ, Some, OnOk, length};
ghost use Rattle.elasticlunr_trie_nodes.specs.Names.{entered, number_of};
ghost use Rattle.elasticlunr_trie_nodes.specs.Pairs.{Pairs};
ghost use Rattle.elasticlunr_trie_nodes.specs.Trie.{table_of, IsIndex};

use crate::lists::reserve_list;
use crate::names::Names;
use crate::nodes::{Node, Place, Reference};
use crate::start::WalkedToken;
use std::alloc::{AllocError, Global};

// Is the last posting of a place that of the reference with this number?
fn ends_with(nodes: &[Node], place: Place, number: usize) -> bool {
    let Place::At(k) = place else {
        return false;
    };
    let Some(node) = nodes.get(k) else {
        return false;
    };
    let count = node.postings.len();
    count > 0 && node.postings.at(count - 1).0 == number
}

// How many of the places that tokens lead to don't end with a posting of the reference. Their last
// postings are read one after the other, so that the processor loads several at once; adding then
// finds them in its caches.
fn count_new(nodes: &[Node], starts: &[WalkedToken<'_>], number: usize) -> usize {
    starts
        .iter()
        .filter(|start| !ends_with(nodes, start.place, number))
        .count()
}

/// Enters the name of a reference, and makes room in its list for the nodes of tokens.
pub fn make_room(
    alloc: Global,
    nodes: &[Node],
    names: &mut Names,
    references: &mut Vec<Reference>,
    doc_ref: &str,
    starts: &[WalkedToken<'_>],
) -> Result<(), AllocError>
    ensures names { OnOk result (names.new ≡ entered names.old doc_ref.now) }
    ensures listed { OnOk result ((n : ℕ) → number_of names.new doc_ref.now ≡ Some n
        → n < length references.new.items) }
    ensures index { (root : Pairs) → IsIndex root nodes.now names.old references.old.items
        → IsIndex root nodes.now names.new references.new.items }
    ensures table { (root : Pairs) → IsIndex root nodes.now names.old references.old.items
        → table_of root nodes.now names.new ≡ table_of root nodes.now names.old }
{
    let number = names.enter(doc_ref)?;
    let count = count_new(nodes, starts, number);
    reserve_list(alloc, references, number, count)
}
