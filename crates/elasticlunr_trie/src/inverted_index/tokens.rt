//! The tokens that begin with a text.
ghost use Rattle.std.specs.Prelude.{◌≡◌, ◌↔◌, ◌+◌, ◌++◌, ℕ, IsTrue, IfOk, OnOk, length};
ghost use Rattle.std.specs.List.Sorted.{IsStrictlySortedBy};
ghost use Rattle.std.specs.Str.{chars};
ghost use Rattle.elasticlunr_error.specs.Text.{Text, bytes_of, is_listed, text_cmp, text_of};
ghost use Rattle.elasticlunr_error.specs.Text.{texts_of};
ghost use Rattle.elasticlunr_trie.specs.Tokens.{IsTokenFrom};
ghost use Rattle.elasticlunr_trie.specs.Visits.{below, is_posted, left, node_visits, posted};
ghost use Rattle.elasticlunr_trie.specs.Visits.{Advances, HasVisits};

use super::InvertedIndex;
use elasticlunr_trie_nodes::child::Child;
use elasticlunr_trie_nodes::nodes::{Node, Place, children_of, find, postings_at};
use std::alloc::{AllocError, Global};

impl InvertedIndex {
    /// The tokens that have a posting and begin with a text, each once, in the order of their
    /// characters. All tokens begin with the empty text.
    ///
    /// A step for each character of the text and for each node below it, with no recursion, and a
    /// copy of each token. Besides the tokens it takes a copy of the longest one, and 16 bytes for
    /// each of its characters.
    pub fn tokens(&self, alloc: Global, prefix: &str) -> Result<Vec<String>, AllocError>
        ensures order { IfOk result (λ v. IsStrictlySortedBy text_cmp (texts_of v.items)) }
        ensures bytes { IfOk result (λ v. IsStrictlySortedBy text_cmp (bytes_of v.items)) }
        ensures tokens { IfOk result (λ v. (t : Text) → IsTrue (is_listed t (texts_of v.items))
            ↔ IsTokenFrom self.now (chars prefix.now) t) }
    {
        match find(&self.root, &self.nodes, prefix) {
            Some(Place::Root) => tokens_below(alloc, &self.root, &self.nodes, prefix),
            Some(Place::At(k)) => tokens_from(alloc, &self.nodes, k, prefix),
            None => Ok(Vec::new(alloc)),
        }
    }
}

// The tokens of a node and of those below it.
fn tokens_from(
    alloc: Global,
    nodes: &[Node],
    k: usize,
    text: &str,
) -> Result<Vec<String>, AllocError>
    requires { HasVisits nodes.now }
    ensures { IfOk result (λ v. texts_of v.items
        ≡ posted nodes.now (node_visits nodes.now (chars text.now) k)) }
{
    let mut found = Vec::new(alloc);
    if has_posting(nodes, k) {
        found.push(String::from_str(alloc, text)?)?;
    }
    visit_below(alloc, nodes, children_of(nodes, k), text, &mut found)?;
    Ok(found)
}

// The tokens that go on with a child of the root.
fn tokens_below(
    alloc: Global,
    root: &[Child],
    nodes: &[Node],
    text: &str,
) -> Result<Vec<String>, AllocError>
    requires { HasVisits nodes.now }
    ensures { IfOk result (λ v. texts_of v.items
        ≡ posted nodes.now (below (node_visits nodes.now) (chars text.now) root.now)) }
{
    let mut found = Vec::new(alloc);
    visit_below(alloc, nodes, root, text, &mut found)?;
    Ok(found)
}

// Finds the tokens that go on with one of some children.
fn visit_below(
    alloc: Global,
    nodes: &[Node],
    children: &[Child],
    text: &str,
    found: &mut Vec<String>,
) -> Result<(), AllocError>
    requires { HasVisits nodes.now }
    ensures { OnOk result (texts_of found.new.items ≡ texts_of found.old.items
        ++ posted nodes.now (below (node_visits nodes.now) (chars text.now) children.now)) }
{
    let mut path = String::from_str(alloc, text)?;
    let mut stack = Vec::new(alloc);
    stack.push(children)?;
    while let Some(left) = stack.pop() {
        visit_next(nodes, left, &mut path, &mut stack, found)?;
    }
    Ok(())
}

// Visits the first of the children that are left at the end of a path, or goes back by a character.
fn visit_next<'a>(
    nodes: &'a [Node],
    children: &'a [Child],
    path: &mut String,
    stack: &mut Vec<&'a [Child]>,
    found: &mut Vec<String>,
) -> Result<(), AllocError>
    requires { HasVisits nodes.now }
    ensures { OnOk result ((n : ℕ) → length (text_of path.old) ≡ n + length stack.old.items
        → Advances nodes.now n (text_of path.old) children.now stack.old.items
        (texts_of found.old.items)
        (text_of path.new) stack.new.items (texts_of found.new.items)) }
{
    match children.split_first() {
        Some((child, rest)) => {
            let k = child.node();
            path.push(child.character())?;
            if has_posting(nodes, k) {
                found.push(path.clone()?)?;
            }
            stack.push(rest)?;
            stack.push(children_of(nodes, k))?;
        }
        None => {
            path.pop();
        }
    }
    Ok(())
}

// Has a node a posting?
fn has_posting(nodes: &[Node], k: usize) -> bool
    ensures { result ≡ is_posted nodes.now k }
{
    k < nodes.len() && postings_at(nodes, k).len() > 0
}
