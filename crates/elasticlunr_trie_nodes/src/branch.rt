//! A branch of new nodes below a place.
ghost use Rattle.std.specs.Prelude.{◌≡◌, ◌<◌, ◌+◌, ◌^◌, length, None, IfOk, OnOk, OnErr, ◌++◌};
ghost use Rattle.std.specs.Prelude.{slice_get};
ghost use Rattle.std.specs.Str.{chars, IsUtf8};
ghost use Rattle.elasticlunr_trie_nodes.specs.Pairs.{value_of, IsStrictlySorted};
ghost use Rattle.elasticlunr_trie_nodes.specs.Nodes.{children_of, SameNodes};
ghost use Rattle.elasticlunr_trie_nodes.specs.Trie.{children_at, step_of, IsTrie};
ghost use Rattle.elasticlunr_trie_nodes.specs.Starts.{IsStart};
ghost use Rattle.elasticlunr_trie_nodes.specs.Branch.{IsBranch, HasBranch, GainsChild};
ghost use Rattle.elasticlunr_trie_nodes.specs.Branch.{GainsNextChild, KeepsOtherChildren};
ghost use Rattle.elasticlunr_trie_nodes.specs.Branch.{IsLocated, SameTrie, Grows, IsPlace};

use crate::child::Child;
use crate::inline_list::InlineList;
use crate::nodes::{Node, Place, child, children_at, gap};
use crate::postings::Postings;
use crate::start::WalkedToken;
use std::alloc::{AllocError, Global};

/// Where the longest known beginning of a token leads, and what follows it, from a shorter one on.
pub fn locate<'a>(root: &[Child], nodes: &[Node], start: WalkedToken<'a>) -> (Place, &'a str)
    requires trie { IsTrie root.now nodes.now }
    requires start { IsStart (step_of root.now nodes.now) start }
    ensures at { IsLocated (step_of root.now nodes.now) (chars start.entry.token.now) result.0
        (chars result.1.now) }
    ensures text { IsUtf8 result.1.now }
{
    let mut place = start.place;
    let mut rest = start.rest;
    let mut letters = start.rest.chars();
    while let Some(c) = letters.next() {
        match child(children_at(root, nodes, place), c) {
            Some(k) => {
                place = Place::At(k);
                rest = letters.as_str();
            }
            None => break,
        }
    }
    (place, rest)
}

/// Nodes for a path under the characters of a text, from a first node whose child has the given
/// number.
pub fn new_branch(
    alloc: Global,
    text: &str,
    number: usize,
    reference: usize,
    term_freq: u64,
) -> Result<Vec<Node>, AllocError>
    requires { number < 2 ^ 63 + 1 }
    ensures { IfOk result (λ b. IsBranch number (chars text.now) reference term_freq b.items) }
{
    let mut branch = Vec::with_capacity(alloc, text.len() + 1)?;
    for c in text.chars() {
        let next = Child::new(c, number + branch.len())?;
        branch.push(Node {
            children: InlineList::one(alloc, next),
            postings: Postings::new(alloc),
        })?;
    }
    let mut postings = Postings::new(alloc);
    postings.set(reference, term_freq)?;
    branch.push(Node {
        children: InlineList::new(alloc),
        postings,
    })?;
    Ok(branch)
}

// Puts a branch below the root.
fn attach_to_root(
    root: &mut Vec<Child>,
    nodes: &mut Vec<Node>,
    c: char,
    branch: &mut Vec<Node>,
) -> Result<(), AllocError>
    requires sorted { IsStrictlySorted root.old.items }
    requires free { value_of root.old.items c ≡ None }
    ensures err { OnErr result ((root.new.items ≡ root.old.items)
        × (nodes.new.items ≡ nodes.old.items)) }
    ensures gains { OnOk result (GainsChild root.old.items root.new.items c
        (length nodes.old.items)) }
    ensures nodes { OnOk result (nodes.new.items ≡ nodes.old.items ++ branch.old.items) }
{
    let child = Child::new(c, nodes.len())?;
    root.reserve(1)?;
    nodes.append(branch)?;
    let at = gap(root, c);
    root.insert(at, child).unwrap();
    Ok(())
}

// Puts a branch below a node.
fn attach_to_node(
    nodes: &mut Vec<Node>,
    k: usize,
    c: char,
    branch: &mut Vec<Node>,
) -> Result<(), AllocError>
    requires in_range { k < length nodes.old.items }
    requires sorted { IsStrictlySorted (children_of (slice_get nodes.old.items k)) }
    requires free { value_of (children_of (slice_get nodes.old.items k)) c ≡ None }
    ensures err { OnErr result (SameNodes nodes.old.items nodes.new.items) }
    ensures gains { OnOk result (GainsNextChild nodes.old.items nodes.new.items k c) }
    ensures others { OnOk result (KeepsOtherChildren nodes.old.items nodes.new.items k) }
    ensures nodes { OnOk result (HasBranch nodes.old.items nodes.new.items branch.old.items) }
{
    let child = Child::new(c, nodes.len())?;
    nodes.reserve(branch.len())?;
    let at = gap(nodes[k].children.as_slice(), c);
    nodes[k].children.insert(at, child)?;
    nodes.append(branch).unwrap();
    Ok(())
}

/// Puts a branch below a place.
pub fn attach(
    root: &mut Vec<Child>,
    nodes: &mut Vec<Node>,
    place: Place,
    c: char,
    branch: &mut Vec<Node>,
) -> Result<(), AllocError>
    requires in_range { IsPlace nodes.old.items place }
    requires sorted { IsStrictlySorted (children_at root.old.items nodes.old.items place) }
    requires free { value_of (children_at root.old.items nodes.old.items place) c ≡ None }
    ensures ok { OnOk result (Grows root.old.items nodes.old.items root.new.items nodes.new.items
        place c
        branch.old.items) }
    ensures err { OnErr result (SameTrie root.old.items nodes.old.items root.new.items
        nodes.new.items) }
{
    match place {
        Place::Root => attach_to_root(root, nodes, c, branch),
        Place::At(k) => attach_to_node(nodes, k, c, branch),
    }
}
