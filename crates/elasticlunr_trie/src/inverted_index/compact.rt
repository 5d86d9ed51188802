//! A trie without the paths that lead to no posting.
ghost use Rattle.std.specs.Prelude.{◌≡◌, ◌↔◌, ◌⊎◌, ℕ, ◌<◌, [], length, Some, IsTrue, IfOk};
ghost use Rattle.std.specs.Prelude.{IsOkUnless};
ghost use Rattle.elasticlunr_error.specs.declared.error.IndexError.TheVariants.{Memory};
ghost use Rattle.elasticlunr_trie_nodes.specs.Table.{IsTable};
ghost use Rattle.elasticlunr_trie.specs.Compacted.{KeepsPostings, KnowsWhatLeads};
ghost use Rattle.elasticlunr_trie_nodes.specs.NodeTables.{node_table};
ghost use Rattle.elasticlunr_trie_nodes.specs.Pairs.{IsStrictlySorted};
ghost use Rattle.elasticlunr_trie_nodes.specs.Names.{AreNames};
ghost use Rattle.elasticlunr_trie.specs.Children.{child};
ghost use Rattle.elasticlunr_trie_nodes.specs.Nodes.{AreAllNumbered, AreListed};
ghost use Rattle.elasticlunr_trie_nodes.specs.Trie.{IsTrie, IsIndex, HaveOneParent, step_of};
ghost use Rattle.elasticlunr_trie_nodes.specs.Trie.{table_of};
ghost use Rattle.elasticlunr_trie.specs.Compact.{AreNumbers, kept_children, HasFrequency};
ghost use Rattle.elasticlunr_trie.specs.Compact.{HasMarked, KeepsMarked, MarksBearing};

use super::InvertedIndex;
use super::ends::TokenCache;
use elasticlunr_error::IndexError;
use elasticlunr_trie_nodes::child::Child;
use elasticlunr_trie_nodes::inline_list::InlineList;
use elasticlunr_trie_nodes::names::Names;
use elasticlunr_trie_nodes::nodes::{Children, Node, Reference};
use elasticlunr_trie_nodes::numbered::renumber;
use std::alloc::{AllocError, Global};

impl InvertedIndex {
    /// A new trie with the same postings, in which only the beginnings of their tokens are known,
    /// and the empty text. This one stays as it is.
    ///
    /// Visits each node twice, with no recursion.
    pub fn compacted(&self) -> Result<Self, IndexError>
        ensures known { IfOk result (λ new. KnowsWhatLeads self.now new) }
        ensures postings { IfOk result (λ new. KeepsPostings self.now new) }
        ensures table { IfOk result (λ new. IsTable new) }
        ensures memory { IsOkUnless result Memory }
    {
        let alloc = *self.nodes.allocator();
        let (root, nodes, names, references) = compact(
            alloc,
            &self.root,
            &self.nodes,
            &self.names,
        )?;
        Ok(InvertedIndex {
            root,
            nodes,
            names,
            references,
            ends: TokenCache::new(alloc),
        })
    }
}

// The children and the nodes from which a posting is reached, numbered again, with the names that
// their postings have.
fn compact(
    alloc: Global,
    root: &[Child],
    nodes: &[Node],
    names: &Names,
) -> Result<(Vec<Child>, Vec<Node>, Names, Vec<Reference>), AllocError>
    requires trie { IsTrie root.now nodes.now }
    requires parents { HaveOneParent (step_of root.now nodes.now) (length nodes.now) }
    requires names { AreNames names.now }
    requires numbered { AreAllNumbered names.now nodes.now }
    ensures index { IfOk result (λ t. IsIndex t.0.items t.1.items t.2 t.3.items) }
    ensures known { IfOk result (λ t. KnowsWhatLeads (table_of root.now nodes.now names.now)
        (node_table t.0 t.1 t.2)) }
    ensures postings { IfOk result (λ t. KeepsPostings (table_of root.now nodes.now names.now)
        (node_table t.0 t.1 t.2)) }
{
    let marks = bearing(alloc, nodes)?;
    let numbers = new_numbers(alloc, &marks)?;
    let children = keep_children(alloc, root, &marks, &numbers)?;
    let kept_root = children.into_vec()?;
    let mut kept_names = Names::new(alloc);
    let mut references = Vec::new(alloc);
    let kept = keep_nodes(
        alloc,
        nodes,
        names,
        &marks,
        &numbers,
        &mut kept_names,
        &mut references,
    )?;
    Ok((kept_root, kept, kept_names, references))
}

// For each node, whether a posting is reached from it.
fn bearing(alloc: Global, nodes: &[Node]) -> Result<Vec<bool>, AllocError>
    requires { IsTrie [] nodes.now }
    ensures count { IfOk result (λ marks. length marks.items ≡ length nodes.now) }
    ensures each { IfOk result (λ marks. MarksBearing nodes.now marks.items) }
{
    let mut marks = Vec::new(alloc);
    for _ in nodes {
        marks.push(false)?;
    }
    mark(nodes, &mut marks);
    Ok(marks)
}

// Marks the nodes from which a posting is reached, from the last to the first.
fn mark(nodes: &[Node], marks: &mut [bool])
    requires trie { IsTrie [] nodes.now }
    requires one_each { length marks.old ≡ length nodes.now }
    ensures count { length marks.new ≡ length nodes.now }
    ensures each { MarksBearing nodes.now marks.new }
{
    let mut i = nodes.len();
    while i > 0 {
        i -= 1;
        let bears = bears_posting(&nodes[i], marks);
        marks[i] = bears;
    }
}

// Has the node a posting, or a marked child?
fn bears_posting(node: &Node, marks: &[bool]) -> bool
    requires sorted { IsStrictlySorted node.now.children.items }
    requires in_range { (c : ℕ) (k : ℕ) → child node.now.children.items c ≡ Some k
        → k < length marks.now }
    ensures { IsTrue result ↔ (HasFrequency node.now.postings
        ⊎ HasMarked marks.now node.now.children.items) }
{
    if node.postings.len() > 0 {
        return true;
    }
    has_marked(node.children.as_slice(), marks)
}

// Is one of the children marked?
fn has_marked(children: &[Child], marks: &[bool]) -> bool
    requires sorted { IsStrictlySorted children.now }
    requires in_range { (c : ℕ) (k : ℕ) → child children.now c ≡ Some k → k < length marks.now }
    ensures { IsTrue result ↔ HasMarked marks.now children.now }
{
    for child in children {
        let k = child.node();
        if marks[k] {
            return true;
        }
    }
    false
}

// How many marked nodes stand before each node. That is its new number, if it is marked.
fn new_numbers(alloc: Global, marks: &[bool]) -> Result<Vec<usize>, AllocError>
    ensures { IfOk result (λ numbers. AreNumbers marks.now numbers.items) }
{
    let mut numbers = Vec::new(alloc);
    let mut count = 0;
    for &marked in marks {
        numbers.push(count)?;
        if marked {
            count += 1;
        }
    }
    Ok(numbers)
}

// The marked children, under their new numbers.
fn keep_children(
    alloc: Global,
    children: &[Child],
    marks: &[bool],
    numbers: &[usize],
) -> Result<Children, AllocError>
    requires sorted { IsStrictlySorted children.now }
    requires in_range { (c : ℕ) (k : ℕ) → child children.now c ≡ Some k → k < length marks.now }
    requires numbers { AreNumbers marks.now numbers.now }
    ensures { IfOk result (λ kept. kept.items ≡ kept_children marks.now children.now) }
{
    let mut kept = InlineList::new(alloc);
    for child in children {
        let k = child.node();
        if !marks[k] {
            continue;
        }
        let renumbered = Child::new(child.character(), numbers[k])?;
        kept.push(renumbered)?;
    }
    Ok(kept)
}

// The marked nodes, in order.
fn keep_nodes(
    alloc: Global,
    nodes: &[Node],
    names: &Names,
    marks: &[bool],
    numbers: &[usize],
    kept_names: &mut Names,
    references: &mut Vec<Reference>,
) -> Result<Vec<Node>, AllocError>
    requires trie { IsTrie [] nodes.now }
    requires names { AreNames names.now }
    requires numbered { AreAllNumbered names.now nodes.now }
    requires marks { length marks.now ≡ length nodes.now }
    requires numbers { AreNumbers marks.now numbers.now }
    requires no_names { kept_names.old ≡ [] }
    ensures names { IfOk result (λ _. AreNames kept_names.new) }
    ensures listed { IfOk result (λ kept. AreListed kept_names.new references.new.items kept.items) }
    ensures kept { IfOk result (λ kept. KeepsMarked marks.now names.now nodes.now kept_names.new
        kept.items) }
{
    let mut kept = Vec::new(alloc);
    for i in 0..nodes.len() {
        if !marks[i] {
            continue;
        }
        let node = &nodes[i];
        let children = keep_children(alloc, node.children.as_slice(), marks, numbers)?;
        let postings = renumber(
            alloc,
            kept_names,
            references,
            kept.len(),
            names,
            &node.postings,
        )?;
        kept.push(Node { children, postings })?;
    }
    Ok(kept)
}
