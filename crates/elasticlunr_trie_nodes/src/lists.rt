//! The lists of the nodes where a reference has a posting.
ghost use Rattle.std.specs.Prelude.{◌≡◌, ◌≢◌, ◌<◌, ◌++◌, ◌∷◌, [], ℕ, IsTrue, IsFalse, IfSome};
ghost use Rattle.std.specs.Prelude.{IfNone, length, slice_index, OnOk, OnErr};
ghost use Rattle.std.specs.FinMap.{get};
ghost use Rattle.elasticlunr_trie_nodes.specs.Nodes.{list_at, has, KeepsLists, KeepsOtherNodes};
ghost use Rattle.elasticlunr_trie_nodes.specs.Nodes.{LosesOne, LosesNode};

use crate::nodes::Reference;
use crate::number_list::NumberList;
use crate::postings::Postings;
use std::alloc::{AllocError, Global};

// Sees to it that a number has a list.
fn make_lists(
    alloc: Global,
    references: &mut Vec<Reference>,
    number: usize,
) -> Result<(), AllocError>
    ensures there { OnOk result (number < length references.new.items) }
    ensures same { (n : ℕ) → list_at references.new.items n ≡ list_at references.old.items n }
{
    'lists: while references.len() <= number {
        references.push(Reference {
            nodes: NumberList::new(alloc),
        })?;
    }
    Ok(())
}

/// Sees to it that a reference has a list, with room for more nodes.
pub fn reserve_list(
    alloc: Global,
    references: &mut Vec<Reference>,
    number: usize,
    count: usize,
) -> Result<(), AllocError>
    ensures there { OnOk result (number < length references.new.items) }
    ensures same { (n : ℕ) → list_at references.new.items n ≡ list_at references.old.items n }
{
    make_lists(alloc, references, number)?;
    references[number].nodes.reserve(count)
}

// Puts a node into the list of a reference.
fn push_node(references: &mut Vec<Reference>, number: usize, k: usize) -> Result<(), AllocError>
    requires { number < length references.old.items }
    ensures ok { OnOk result (list_at references.new.items number
        ≡ list_at references.old.items number ++ k ∷ []) }
    ensures err { OnErr result (list_at references.new.items number
        ≡ list_at references.old.items number) }
    ensures others { (n : ℕ) → n ≢ number → list_at references.new.items n
        ≡ list_at references.old.items n }
{
    references[number].nodes.push(k)?;
    Ok(())
}

/// Sees to it that a reference lists a node where it has no posting yet.
pub fn list_new(
    alloc: Global,
    references: &mut Vec<Reference>,
    number: usize,
    k: usize,
) -> Result<(), AllocError>
    ensures lists { OnOk result (IsTrue (has (list_at references.new.items number) k)) }
    ensures keeps { KeepsLists references.old.items references.new.items }
{
    make_lists(alloc, references, number)?;
    push_node(references, number, k)
}

/// Sees to it that a reference lists a node. Where it has a posting there, it does so already.
pub fn list_node(
    alloc: Global,
    references: &mut Vec<Reference>,
    postings: &Postings,
    number: usize,
    k: usize,
) -> Result<(), AllocError>
    requires { (f : ℕ) → get postings.now number ≡ Some f
        → IsTrue (has (list_at references.old.items number) k) }
    ensures lists { OnOk result (IsTrue (has (list_at references.new.items number) k)) }
    ensures keeps { KeepsLists references.old.items references.new.items }
{
    if postings.get(number).is_some() {
        return Ok(());
    }
    list_new(alloc, references, number, k)
}

// Where a list has a node.
fn place_in(list: &NumberList, k: usize) -> Option<usize>
    ensures some { IfSome result (λ i. (i < length list.now.items)
        × (slice_index list.now.items i ≡ k)) }
    ensures none { IfNone result (IsFalse (has list.now.items k)) }
{
    let mut i = list.len();
    while i > 0 {
        i -= 1;
        if list.get(i) == k {
            return Some(i);
        }
    }
    None
}

// Takes a node out of a list, if it is there.
fn forget(list: &mut NumberList, k: usize)
    ensures loses { LosesOne list.old.items list.new.items k }
    ensures keeps { (q : ℕ) → q ≢ k → IsTrue (has list.old.items q)
        → IsTrue (has list.new.items q) }
{
    if let Some(at) = place_in(list, k) {
        list.remove(at);
    }
}

/// Takes a node out of the list of a reference, where it stands in that list. The list is searched
/// from its end.
pub fn unlist(references: &mut Vec<Reference>, number: usize, k: usize)
    ensures loses { LosesNode references.old.items references.new.items number k }
    ensures keeps { KeepsOtherNodes references.old.items references.new.items number k }
{
    if number < references.len() {
        forget(&mut references[number].nodes, k);
    }
}
