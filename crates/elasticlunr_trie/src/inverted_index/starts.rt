//! Tokens that are walked side by side. A walk of one token waits for memory at each of its
//! characters; the walks of several don't wait for one another.
ghost use Rattle.std.specs.Prelude.{◌≡◌, map, All, IfOk, OnOk, OnErr};
ghost use Rattle.std.specs.Str.{chars};
ghost use Rattle.elasticlunr_trie.specs.TokenCache.{AreEnds};
ghost use Rattle.elasticlunr_trie_nodes.specs.Table.{AreChanged, IsChanged, additions};
ghost use Rattle.elasticlunr_trie_nodes.specs.Table.{told_tokens};
ghost use Rattle.elasticlunr_trie_nodes.specs.Table.Change.{add};
ghost use Rattle.elasticlunr_trie_nodes.specs.Trie.{Step, step_of, IsTrie, IsIndex};
ghost use Rattle.elasticlunr_trie_nodes.specs.NodeTables.{node_table};
ghost use Rattle.elasticlunr_trie_nodes.specs.Starts.{IsStart, KeepsPaths, told};
ghost use Rattle.elasticlunr_trie.specs.Begun.{AreBegun};

use super::add::add_posting;
use super::ends::{TokenCache, begin, remember};
use elasticlunr_trie_nodes::branch::locate;
use elasticlunr_trie_nodes::child::Child;
use elasticlunr_trie_nodes::names::Names;
use elasticlunr_trie_nodes::nodes::{Node, Place, Reference, child, children_at};
use elasticlunr_trie_nodes::room::make_room;
use elasticlunr_trie_nodes::start::WalkedToken;
use std::alloc::{AllocError, Global};

// How many characters of each token are walked side by side. What follows them is mostly a path
// without branches, whose nodes stand side by side.
const STEPS: usize = 5;

// One character further, if there is a child under it.
fn step<'a>(root: &[Child], nodes: &[Node], start: WalkedToken<'a>) -> WalkedToken<'a>
    requires trie { IsTrie root.now nodes.now }
    requires start { IsStart (step_of root.now nodes.now) start }
    ensures start { IsStart (step_of root.now nodes.now) result }
    ensures told { told result ≡ told start.entry }
{
    let mut letters = start.rest.chars();
    let Some(c) = letters.next() else {
        return start;
    };
    match child(children_at(root, nodes, start.place), c) {
        Some(k) => WalkedToken {
            token: start.token,
            frequency: start.frequency,
            place: Place::At(k),
            rest: letters.as_str(),
        },
        None => start,
    }
}

// Each one character further.
fn step_all(root: &[Child], nodes: &[Node], starts: &mut [WalkedToken<'_>])
    requires trie { IsTrie root.now nodes.now }
    requires starts { All (IsStart (step_of root.now nodes.now)) starts.old }
    ensures starts { All (IsStart (step_of root.now nodes.now)) starts.new }
    ensures told { map told starts.new ≡ map told starts.old }
{
    for i in 0..starts.len() {
        if starts[i].rest.is_empty() {
            continue;
        }
        starts[i] = step(root, nodes, starts[i]);
    }
}

// To the end of what is known of the token.
fn finish<'a>(root: &[Child], nodes: &[Node], start: WalkedToken<'a>) -> WalkedToken<'a>
    requires trie { IsTrie root.now nodes.now }
    requires start { IsStart (step_of root.now nodes.now) start }
    ensures start { IsStart (step_of root.now nodes.now) result }
    ensures told { told result ≡ told start.entry }
{
    let (place, rest) = locate(root, nodes, start);
    WalkedToken {
        token: start.token,
        frequency: start.frequency,
        place,
        rest,
    }
}

// Each to the end of what is known of it.
fn finish_all(root: &[Child], nodes: &[Node], starts: &mut [WalkedToken<'_>])
    requires trie { IsTrie root.now nodes.now }
    requires starts { All (IsStart (step_of root.now nodes.now)) starts.old }
    ensures starts { All (IsStart (step_of root.now nodes.now)) starts.new }
    ensures told { map told starts.new ≡ map told starts.old }
{
    for i in 0..starts.len() {
        if starts[i].rest.is_empty() {
            continue;
        }
        starts[i] = finish(root, nodes, starts[i]);
    }
}

// Tokens with their frequencies, each walked as far as it is known. One that is remembered is at
// its end at once.
pub(super) fn walked_tokens<'a>(
    alloc: Global,
    root: &[Child],
    nodes: &[Node],
    ends: &mut TokenCache,
    tokens: &[(&'a str, u64)],
) -> Result<Vec<WalkedToken<'a>>, AllocError>
    requires trie { IsTrie root.now nodes.now }
    requires ends { AreEnds (step_of root.now nodes.now) ends.old }
    ensures ends { AreEnds (step_of root.now nodes.now) ends.new }
    ensures starts { IfOk result (λ v. All (IsStart (step_of root.now nodes.now)) v.items) }
    ensures told { IfOk result (λ v. map told v.items ≡ told_tokens tokens.now) }
{
    let mut missed = Vec::with_capacity(alloc, tokens.len()).unwrap_or_else(|_| Vec::new(alloc));
    let mut starts = begun(alloc, root, nodes, ends, tokens, &mut missed)?;
    for _ in 0..STEPS {
        step_all(root, nodes, &mut starts);
    }
    finish_all(root, nodes, &mut starts);
    remember_all(alloc, root, nodes, ends, &starts, &missed);
    Ok(starts)
}

// Tokens with their frequencies, each at its end, where that is remembered. The numbers of the
// others are told, where the list of them has room or gets it.
fn begun<'a>(
    alloc: Global,
    root: &[Child],
    nodes: &[Node],
    ends: &TokenCache,
    tokens: &[(&'a str, u64)],
    missed: &mut Vec<usize>,
) -> Result<Vec<WalkedToken<'a>>, AllocError>
    requires ends { AreEnds (step_of root.now nodes.now) ends.now }
    ensures starts { IfOk result (λ v. All (IsStart (step_of root.now nodes.now)) v.items) }
    ensures told { IfOk result (λ v. map told v.items ≡ told_tokens tokens.now) }
{
    let mut starts = Vec::with_capacity(alloc, tokens.len())?;
    for &(token, frequency) in tokens {
        let start = begin(root, nodes, ends, token, frequency);
        if matches!(start.place, Place::Root) {
            let _ = missed.push(starts.len());
        }
        starts.push(start)?;
    }
    Ok(starts)
}

// Remembers where the tokens of these numbers lead.
fn remember_all(
    alloc: Global,
    root: &[Child],
    nodes: &[Node],
    ends: &mut TokenCache,
    starts: &[WalkedToken<'_>],
    missed: &[usize],
)
    requires ends { AreEnds (step_of root.now nodes.now) ends.old }
    requires starts { All (IsStart (step_of root.now nodes.now)) starts.now }
    ensures ends { AreEnds (step_of root.now nodes.now) ends.new }
{
    for i in missed {
        if *i < starts.len() {
            remember(alloc, root, nodes, ends, starts[*i]);
        }
    }
}

// Sets the posting of a token, unless it is empty.
fn add_start(
    alloc: Global,
    root: &mut Vec<Child>,
    nodes: &mut Vec<Node>,
    names: &mut Names,
    references: &mut Vec<Reference>,
    doc_ref: &str,
    start: WalkedToken<'_>,
) -> Result<(), AllocError>
    requires index { IsIndex root.old.items nodes.old.items names.old references.old.items }
    requires start { IsStart (step_of root.old.items nodes.old.items) start }
    ensures index { IsIndex root.new.items nodes.new.items names.new references.new.items }
    ensures ok { OnOk result (IsChanged
        (add (chars start.entry.token.now) doc_ref.now start.entry.frequency)
        (node_table root.old nodes.old names.old) (node_table root.new nodes.new names.new)) }
    ensures paths { OnOk result (KeepsPaths (step_of root.old.items nodes.old.items)
        (step_of root.new.items nodes.new.items)) }
    ensures err { OnErr result (node_table root.new nodes.new names.new
        ≡ node_table root.old nodes.old names.old) }
{
    if start.token.is_empty() {
        return Ok(());
    }
    add_posting(alloc, root, nodes, names, references, doc_ref, start)
}

// Sets the postings of tokens, one after the other.
pub(super) fn add_walked(
    alloc: Global,
    root: &mut Vec<Child>,
    nodes: &mut Vec<Node>,
    names: &mut Names,
    references: &mut Vec<Reference>,
    doc_ref: &str,
    starts: &[WalkedToken<'_>],
) -> Result<(), AllocError>
    requires index { IsIndex root.old.items nodes.old.items names.old references.old.items }
    requires starts { All (IsStart (step_of root.old.items nodes.old.items)) starts.now }
    ensures index { IsIndex root.new.items nodes.new.items names.new references.new.items }
    ensures ok { OnOk result (AreChanged (additions doc_ref.now (map told starts.now))
        (node_table root.old nodes.old names.old) (node_table root.new nodes.new names.new)) }
    ensures paths { OnOk result (KeepsPaths (step_of root.old.items nodes.old.items)
        (step_of root.new.items nodes.new.items)) }
    ensures err { OnErr result (AreBegun (additions doc_ref.now (map told starts.now))
        (node_table root.old nodes.old names.old) (node_table root.new nodes.new names.new)) }
{
    make_room(alloc, nodes, names, references, doc_ref, starts)?;
    for start in starts {
        add_start(alloc, root, nodes, names, references, doc_ref, *start)?;
    }
    Ok(())
}
