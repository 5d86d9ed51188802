//! The numbered nodes of a trie, and where a path leads.
ghost use Rattle.std.specs.Prelude.{◌≡◌, ◌<◌, length, None, IfSome, IfOk, IfErr, slice_get};
ghost use Rattle.std.specs.Str.{chars};
ghost use Rattle.elasticlunr_trie_nodes.specs.Pairs.{value_of, IsStrictlySorted, IsAt, IsGapFor};
ghost use Rattle.elasticlunr_trie_nodes.specs.Pairs.{IsPlaceFor};
ghost use Rattle.elasticlunr_trie_nodes.specs.Names.{at, Names, AreNumbered};
ghost use Rattle.elasticlunr_trie_nodes.specs.Nodes.{children_of, postings_at, AreAllNumbered};
ghost use Rattle.elasticlunr_trie_nodes.specs.Trie.{children_at, step_of, table_of, walk, IsTrie};
ghost use Rattle.elasticlunr_trie_nodes.specs.Table.{posting};
ghost use Rattle.elasticlunr_trie_nodes.specs.NodeTables.{found_frequencies, ArePostingsAt};

use crate::child::Child;
use crate::inline_list::InlineList;
use crate::names::Names;
use crate::number_list::NumberList;
use crate::postings::Postings;
use std::mem::size_of;

/// Children in the order of their characters. One alone stands in place: most nodes have one.
pub type Children = InlineList<Child>;

#[derive(Debug, Drop)]
pub struct Node {
    pub children: Children,
    pub postings: Postings,
}

const _: () = prove!(size_of::<Node>() == 32);

#[derive(Clone, Copy)]
pub enum Place {
    Root,
    At(usize),
}

/// What a trie keeps for the number of a reference: the nodes where it has a posting, and maybe
/// others.
#[derive(Debug, Drop)]
pub struct Reference {
    pub nodes: NumberList,
}

/// The children of a node.
pub fn children_of(nodes: &[Node], k: usize) -> &[Child]
    ensures { result.now ≡ children_of (slice_get nodes.now k) }
{
    match nodes.get(k) {
        Some(node) => node.children.as_slice(),
        None => &[],
    }
}

/// The children of a place.
pub fn children_at<'a>(root: &'a [Child], nodes: &'a [Node], place: Place) -> &'a [Child]
    ensures { result.now ≡ children_at root.now nodes.now place }
{
    match place {
        Place::Root => root,
        Place::At(k) => children_of(nodes, k),
    }
}

// So many children are scanned from the first; more of them are searched by binary search.
const SCANNED: usize = 16;

// How many children come before a character. At each step of a binary search the processor guesses
// where it goes on, and waits where it guessed wrong; a count has no guesses.
fn count_before(children: &[Child], c: char) -> usize
    requires { IsStrictlySorted children.now }
    ensures { IsPlaceFor children.now c result }
{
    let mut count = 0;
    for child in children {
        count += usize::from(child.is_before(c));
    }
    count
}

// Where the child under a character is among many, or where it would go.
fn binary_search(children: &[Child], c: char) -> Result<usize, usize>
    requires { IsStrictlySorted children.now }
    ensures found { IfOk result (IsAt children.now c) }
    ensures absent { IfErr result (IsGapFor children.now c) }
{
    children.binary_search_by_key(&c, |child| child.character())
}

// Where the child under a character is, or where it would go.
fn search(children: &[Child], c: char) -> Result<usize, usize>
    requires { IsStrictlySorted children.now }
    ensures found { IfOk result (IsAt children.now c) }
    ensures absent { IfErr result (IsGapFor children.now c) }
{
    if children.len() > SCANNED {
        return binary_search(children, c);
    }
    let at = count_before(children, c);
    if at < children.len() && children[at].character() == c {
        Ok(at)
    } else {
        Err(at)
    }
}

/// The number of the child under a character.
pub fn child(children: &[Child], c: char) -> Option<usize>
    requires { IsStrictlySorted children.now }
    ensures { result ≡ value_of children.now c }
{
    match search(children, c) {
        Ok(at) => Some(children[at].node()),
        Err(_) => None,
    }
}

/// Where the path of a token leads.
pub fn find(root: &[Child], nodes: &[Node], token: &str) -> Option<Place>
    requires { IsTrie root.now nodes.now }
    ensures { result ≡ walk (step_of root.now nodes.now) Place.Root (chars token.now) }
{
    let mut place = Place::Root;
    for c in token.chars() {
        place = Place::At(child(children_at(root, nodes, place), c)?);
    }
    Some(place)
}

/// Where the child under a new character goes.
pub fn gap(children: &[Child], c: char) -> usize
    requires sorted { IsStrictlySorted children.now }
    requires free { value_of children.now c ≡ None }
    ensures { IsGapFor children.now c result }
{
    match search(children, c) {
        Ok(at) => at,
        Err(at) => at,
    }
}

/// The postings of a node.
pub fn postings_at(nodes: &[Node], k: usize) -> &Postings
    requires { k < length nodes.now }
    ensures { result.now ≡ postings_at nodes.now k }
{
    &nodes[k].postings
}

/// The frequency of a reference among postings.
pub fn frequency_of(names: &Names, postings: &Postings, doc_ref: &str) -> Option<u64>
    ensures { result ≡ at names.now doc_ref.now postings.now }
{
    let number = names.number_of(doc_ref)?;
    postings.get(number)
}

/// The frequency of a reference at a token, if it has a posting there.
pub fn find_frequency(
    root: &[Child],
    nodes: &[Node],
    names: &Names,
    token: &str,
    doc_ref: &str,
) -> Option<u64>
    requires { IsTrie root.now nodes.now }
    ensures { result ≡ posting (table_of root.now nodes.now names.now) (chars token.now)
        doc_ref.now }
{
    match find(root, nodes, token) {
        Some(Place::At(k)) => frequency_of(names, postings_at(nodes, k), doc_ref),
        Some(Place::Root) => None,
        None => None,
    }
}

/// The postings of a token, none where it is unknown or empty.
pub fn find_postings<'a>(root: &[Child], nodes: &'a [Node], token: &str) -> Option<&'a Postings>
    requires { IsTrie root.now nodes.now }
    ensures postings { ArePostingsAt root.now nodes.now (chars token.now)
        (found_frequencies result) }
    ensures numbered { (names : Names) → AreAllNumbered names nodes.now
        → IfSome result (λ p. AreNumbered names p.now) }
{
    match find(root, nodes, token) {
        Some(Place::At(k)) => Some(postings_at(nodes, k)),
        Some(Place::Root) => None,
        None => None,
    }
}
