//! Adding a posting. Where memory runs out, what was done before is not seen: a name without
//! postings, and a node in a list that has no posting.
ghost use Rattle.std.specs.Prelude.{◌≡◌, ◌≢◌, ◌<◌, ◌∷◌, [], true, None, Some, length, OnOk, OnErr};
ghost use Rattle.std.specs.Str.{chars, all_scalars};
ghost use Rattle.elasticlunr_error.specs.Text.{Text};
ghost use Rattle.elasticlunr_trie_nodes.specs.Table.{AddsToken};
ghost use Rattle.elasticlunr_trie_nodes.specs.Pairs.{value_of};
ghost use Rattle.elasticlunr_trie_nodes.specs.Names.{AreNames};
ghost use Rattle.elasticlunr_trie_nodes.specs.Nodes.{AreListed, SetsNumber, SameNodes};
ghost use Rattle.elasticlunr_trie_nodes.specs.Nodes.{SamePostings, SetsPosting};
ghost use Rattle.elasticlunr_trie_nodes.specs.Trie.{children_at, step_of, walk, IsIndex};
ghost use Rattle.elasticlunr_trie_nodes.specs.NodeTables.{node_table, AddsBelow};
ghost use Rattle.elasticlunr_trie_nodes.specs.Starts.{IsStart, KeepsPaths};

use elasticlunr_trie_nodes::branch::{attach, locate, new_branch};
use elasticlunr_trie_nodes::child::Child;
use elasticlunr_trie_nodes::lists::{list_new, list_node};
use elasticlunr_trie_nodes::names::Names;
use elasticlunr_trie_nodes::nodes::{Node, Place, Reference, postings_at};
use elasticlunr_trie_nodes::start::WalkedToken;
use std::alloc::{AllocError, Global};

// Sets a posting of a node.
fn set_number(
    nodes: &mut Vec<Node>,
    k: usize,
    number: usize,
    frequency: u64,
) -> Result<(), AllocError>
    requires { k < length nodes.old.items }
    ensures ok { OnOk result (SetsNumber nodes.old.items nodes.new.items k number frequency) }
    ensures err { OnErr result (SameNodes nodes.old.items nodes.new.items) }
{
    nodes[k].postings.set(number, frequency)
}

// Sets a posting of a node by the name of its reference.
fn set_posting(
    alloc: Global,
    names: &mut Names,
    references: &mut Vec<Reference>,
    nodes: &mut Vec<Node>,
    k: usize,
    doc_ref: &str,
    frequency: u64,
) -> Result<(), AllocError>
    requires listed { AreListed names.old references.old.items nodes.old.items }
    requires in_range { k < length nodes.old.items }
    ensures names { AreNames names.old → AreNames names.new }
    ensures listed { AreListed names.new references.new.items nodes.new.items }
    ensures ok { OnOk result (SetsPosting names.old names.new nodes.old.items nodes.new.items k
        doc_ref.now frequency) }
    ensures err { OnErr result (SamePostings names.old names.new nodes.old.items nodes.new.items) }
{
    let number = names.enter(doc_ref)?;
    list_node(alloc, references, postings_at(nodes, k), number, k)?;
    set_number(nodes, k, number, frequency)?;
    Ok(())
}

// Puts a path below a place, whose end has a posting.
fn grow(
    alloc: Global,
    root: &mut Vec<Child>,
    nodes: &mut Vec<Node>,
    names: &mut Names,
    references: &mut Vec<Reference>,
    place: Place,
    c: char,
    rest: &str,
    doc_ref: &str,
    term_freq: u64,
) -> Result<(), AllocError>
    requires index { IsIndex root.old.items nodes.old.items names.old references.old.items }
    requires leads { (front : Text) × (walk (step_of root.old.items nodes.old.items) Place.Root
        front ≡ Some place) }
    requires free { value_of (children_at root.old.items nodes.old.items place) c ≡ None }
    requires letters { all_scalars (c ∷ chars rest.now) ≡ true }
    ensures index { IsIndex root.new.items nodes.new.items names.new references.new.items }
    ensures ok { OnOk result (AddsBelow place root.old nodes.old
        (node_table root.old nodes.old names.old)
        (node_table root.new nodes.new names.new) (c ∷ chars rest.now) doc_ref.now term_freq) }
    ensures paths { OnOk result (KeepsPaths (step_of root.old.items nodes.old.items)
        (step_of root.new.items nodes.new.items)) }
    ensures err { OnErr result (node_table root.new nodes.new names.new
        ≡ node_table root.old nodes.old names.old) }
{
    let number = names.enter(doc_ref)?;
    let first = nodes.len();
    let mut branch = new_branch(alloc, rest, first + 1, number, term_freq)?;
    list_new(alloc, references, number, first + (branch.len() - 1))?;
    attach(root, nodes, place, c, &mut branch)?;
    Ok(())
}

// Sets the posting of a token. The paths that were there stay.
pub(super) fn add_posting(
    alloc: Global,
    root: &mut Vec<Child>,
    nodes: &mut Vec<Node>,
    names: &mut Names,
    references: &mut Vec<Reference>,
    doc_ref: &str,
    start: WalkedToken<'_>,
) -> Result<(), AllocError>
    requires index { IsIndex root.old.items nodes.old.items names.old references.old.items }
    requires start { IsStart (step_of root.old.items nodes.old.items) start }
    requires not_empty { chars start.token.now ≢ [] }
    ensures index { IsIndex root.new.items nodes.new.items names.new references.new.items }
    ensures ok { OnOk result (AddsToken (node_table root.old nodes.old names.old)
        (node_table root.new nodes.new names.new) (chars start.entry.token.now) doc_ref.now start.entry.frequency) }
    ensures paths { OnOk result (KeepsPaths (step_of root.old.items nodes.old.items)
        (step_of root.new.items nodes.new.items)) }
    ensures err { OnErr result (node_table root.new nodes.new names.new
        ≡ node_table root.old nodes.old names.old) }
{
    let (place, rest) = locate(root, nodes, start);
    let mut letters = rest.chars();
    match letters.next() {
        Some(c) => {
            grow(
                alloc,
                root,
                nodes,
                names,
                references,
                place,
                c,
                letters.as_str(),
                doc_ref,
                start.frequency,
            )?;
            Ok(())
        }
        None => match place {
            Place::Root => Ok(()),
            Place::At(k) => {
                set_posting(alloc, names, references, nodes, k, doc_ref, start.frequency)?;
                Ok(())
            }
        },
    }
}
