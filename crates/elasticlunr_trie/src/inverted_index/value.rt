//! The JSON value of a trie, made from the last node to the first.
ghost use Rattle.std.specs.Prelude.{Some, map, ◌≡◌, ℕ, ◌<◌, [], length, IfOk, OnOk, slice_set};
ghost use Rattle.std.specs.Prelude.{◌≢◌, slice_get};
ghost use Rattle.elasticlunr_trie_nodes.specs.Table.{Postings};
ghost use Rattle.elasticlunr_trie_nodes.specs.Pairs.{IsStrictlySorted};
ghost use Rattle.elasticlunr_trie_nodes.specs.Names.{AreNames, AreRanks, AreThere, under_names};
ghost use Rattle.elasticlunr_trie.specs.Children.{child};
ghost use Rattle.elasticlunr_trie_nodes.specs.Nodes.{AreAllNumbered};
ghost use Rattle.elasticlunr_trie_nodes.specs.Trie.{IsTrie, table_of};
ghost use Rattle.std.specs.FinMap.{entries};
ghost use Rattle.serde_json.specs.Data.{Members, object, put};
ghost use Rattle.serde_json.specs.View.{view, members_view};
ghost use Rattle.elasticlunr_trie.specs.Tree.{frequencies, IsTree};
ghost use Rattle.elasticlunr_trie.specs.Finished.{HasChildren, KeepsOtherValues, IsNode};

use elasticlunr_json::{put_member, set_member};
use elasticlunr_trie_nodes::child::Child;
use elasticlunr_trie_nodes::docs::in_order;
use elasticlunr_trie_nodes::names::{NameTexts, Names};
use elasticlunr_trie_nodes::nodes::Node;
use serde_json::{Map, Value};
use std::alloc::{AllocError, Global};

// The value of postings.
fn docs_value(
    alloc: Global,
    names: &NameTexts,
    ranked: &[(usize, usize, u64)],
) -> Result<Value, AllocError>
    requires there { AreThere names.now ranked.now }
    requires shown { (P : Postings) × (entries P
        ≡ under_names names.now (map (λ e. (e.1, e.2)) ranked.now)) }
    ensures { IfOk result (λ v. view v ≡ object
        (frequencies (under_names names.now (map (λ e. (e.1, e.2)) ranked.now)))) }
{
    let mut docs = Map::new(alloc);
    for &(_, number, term_freq) in ranked {
        let mut frequency = Map::new(alloc);
        set_member(alloc, &mut frequency, "tf", Value::from(term_freq))?;
        set_member(
            alloc,
            &mut docs,
            names.name(number),
            Value::Object(frequency),
        )?;
    }
    Ok(Value::Object(docs))
}

// Puts the finished values of children under their characters.
fn put_children(
    alloc: Global,
    members: &mut Map<String, Value>,
    children: &[Child],
    finished: &mut [Value],
) -> Result<(), AllocError>
    requires empty { members.old.entries ≡ [] }
    requires sorted { IsStrictlySorted children.now }
    requires in_range { (c : ℕ) (k : ℕ) → child children.now c ≡ Some k → k < length finished.old }
    requires apart { (c : ℕ) (d : ℕ) (k : ℕ) → child children.now c ≡ Some k → child children.now d
        ≡ Some k → c ≡ d }
    ensures put { OnOk result (HasChildren children.now finished.old
        (members_view members.new.entries)) }
    ensures kept { OnOk result (KeepsOtherValues children.now finished.old finished.new) }
{
    for child in children {
        let mut key = String::new(alloc);
        key.push(child.character())?;
        put_member(members, key, take_value(finished, child.node()))?;
    }
    Ok(())
}

// The value of a node, which takes the finished values of its children.
fn node_value(
    alloc: Global,
    children: &[Child],
    docs: Value,
    df: u64,
    finished: &mut [Value],
) -> Result<Value, AllocError>
    requires sorted { IsStrictlySorted children.now }
    requires in_range { (c : ℕ) (k : ℕ) → child children.now c ≡ Some k → k < length finished.old }
    requires apart { (c : ℕ) (d : ℕ) (k : ℕ) → child children.now c ≡ Some k → child children.now d
        ≡ Some k → c ≡ d }
    ensures node { IfOk result (λ v. (ms : Members) × (view v ≡ object ms)
        × IsNode children.now finished.old (view docs) df ms) }
    ensures kept { OnOk result (KeepsOtherValues children.now finished.old finished.new) }
{
    let mut members = Map::new(alloc);
    put_children(alloc, &mut members, children, finished)?;
    set_member(alloc, &mut members, "docs", docs)?;
    set_member(alloc, &mut members, "df", Value::from(df))?;
    Ok(Value::Object(members))
}

// Takes one of the values.
fn take_value(values: &mut [Value], i: usize) -> Value
    requires { i < length values.old }
    ensures taken { slice_get values.old i ≡ Some result }
    ensures others { (k : ℕ) → k ≢ i → slice_get values.new k ≡ slice_get values.old k }
{
    values[i].take()
}

// Sets one of the values.
fn set_value(values: &mut [Value], i: usize, value: Value)
    requires { i < length values.old }
    ensures { values.new ≡ slice_set values.old i value }
{
    values[i] = value;
}

// The tree of the root, made from the last node to the first.
fn root_value(
    alloc: Global,
    root: &[Child],
    nodes: &[Node],
    names: &NameTexts,
    ranks: &[usize],
    finished: &mut [Value],
) -> Result<Value, AllocError>
    requires trie { IsTrie root.now nodes.now }
    requires names { AreNames names.now }
    requires ranks { AreRanks names.now ranks.now }
    requires numbered { AreAllNumbered names.now nodes.now }
    requires one_each { length finished.old ≡ length nodes.now }
    ensures { IfOk result (λ v. IsTree (table_of root.now nodes.now names.now) [] (view v)) }
{
    let mut i = nodes.len();
    while i > 0 {
        i -= 1;
        let node = &nodes[i];
        let ranked = in_order(alloc, names, ranks, &node.postings)?;
        let docs = docs_value(alloc, names, &ranked)?;
        let df = ranked.len() as u64;
        let value = node_value(alloc, node.children.as_slice(), docs, df, finished)?;
        set_value(finished, i, value);
    }
    let docs = Value::Object(Map::new(alloc));
    let value = node_value(alloc, root, docs, 0, finished)?;
    Ok(value)
}

// The tree of the root.
pub(super) fn tree_value(
    alloc: Global,
    root: &[Child],
    nodes: &[Node],
    names: &Names,
) -> Result<Value, AllocError>
    requires trie { IsTrie root.now nodes.now }
    requires names { AreNames names.now }
    requires numbered { AreAllNumbered names.now nodes.now }
    ensures { IfOk result (λ v. IsTree (table_of root.now nodes.now names.now) [] (view v)) }
{
    let ranks = names.ranks(alloc)?;
    let texts = NameTexts::of(alloc, names)?;
    let mut finished = Vec::with_capacity(alloc, nodes.len())?;
    for _ in nodes {
        finished.push(Value::Null)?;
    }
    root_value(alloc, root, nodes, &texts, &ranks, &mut finished)
}
