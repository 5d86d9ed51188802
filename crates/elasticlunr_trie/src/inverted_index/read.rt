//! Reading a trie back from a JSON value, one node after another.
ghost use Rattle.std.specs.Prelude.{codes, ◌⊎◌, Some, true, encode_utf8, ◌∷◌, IfSome, ◌≡◌, ℕ, ◌<◌};
ghost use Rattle.std.specs.Prelude.{◌^◌, ◌↔◌, [], List, None, IsTrue, IfOk, IfErr, ◌≢◌};
ghost use Rattle.elasticlunr_error.specs.Text.{Text, Bytes};
ghost use Rattle.elasticlunr_trie_nodes.specs.Table.{Table, IsTable, postings_of};
ghost use Rattle.std.specs.FinMap.{entries};
ghost use Rattle.serde_json.specs.Data.{Data, object, number, unsigned, member, no_members};
ghost use Rattle.serde_json.specs.Find.{get};
ghost use Rattle.serde_json.specs.View.{view, members_view};
ghost use Rattle.elasticlunr_json.specs.Refused.{IsRefused};
ghost use Rattle.elasticlunr_trie.specs.Tree.{frequency, frequencies, HasKeysInOrder, IsTree};
ghost use Rattle.elasticlunr_trie.specs.Reading.{borrowed_values, ReadsChildren, ReadsNode};
ghost use Rattle.elasticlunr_trie.specs.Reading.{HasForeignKey};
ghost use Rattle.std.specs.Str.{all_scalars};
ghost use Rattle.elasticlunr_trie_nodes.specs.Trie.{IsIndex, table_of};

use elasticlunr_error::IndexError;
use elasticlunr_trie_nodes::child::Child;
use elasticlunr_trie_nodes::inline_list::InlineList;
use elasticlunr_trie_nodes::names::Names;
use elasticlunr_trie_nodes::nodes::{Children, Node, Reference};
use elasticlunr_trie_nodes::numbered::number_docs;
use serde_json::{Map, Value};
use std::alloc::Global;
use std::collections::BTreeMap;

// The value of an object's one member, where that has the given key.
pub(super) fn only_member<'a>(value: &'a Value, key: &str) -> Option<&'a Value>
    ensures found { IfSome result (λ v. view value.now
        ≡ object (member key.now (view v.now) no_members)) }
    ensures none { result ≡ None → (d : Data)
        → view value.now ≢ object (member key.now d no_members) }
{
    let members = value.as_object()?;
    if members.len() != 1 {
        return None;
    }
    value.get(key)
}

// The number under `tf`, where nothing else stands.
fn read_frequency(value: &Value) -> Option<u64>
    ensures found { IfSome result (λ n. view value.now ≡ frequency n) }
    ensures small { IfSome result (λ n. n < 2 ^ 64) }
    ensures none { result ≡ None → (n : ℕ) → view value.now ≢ frequency n }
{
    only_member(value, "tf")?.as_u64()
}

// The postings of the value under `docs`.
fn read_docs(alloc: Global, value: &Value) -> Result<BTreeMap<String, u64>, IndexError>
    ensures ok { IfOk result (λ m. view value.now
        ≡ object (frequencies (entries (postings_of m.entries)))) }
    ensures foreign { IfErr result (IsRefused ((es : List (Bytes × ℕ))
        → view value.now ≢ object (frequencies es))) }
{
    let Some(docs) = value.as_object() else {
        return Err(IndexError::ForeignValue);
    };
    let mut postings = BTreeMap::new(alloc);
    for (doc_ref, frequency) in docs.iter() {
        let Some(term_freq) = read_frequency(frequency) else {
            return Err(IndexError::ForeignValue);
        };
        postings.insert(doc_ref.clone()?, term_freq)?;
    }
    Ok(postings)
}

// The character of a text of one character.
fn only_char(text: &str) -> Option<char>
    ensures found { IfSome result (λ c. (text.now ≡ encode_utf8 c) × (all_scalars (c ∷ []) ≡ true)) }
    ensures none { result ≡ None → (c : ℕ) → all_scalars (c ∷ []) ≡ true
        → text.now ≢ encode_utf8 c }
{
    let mut letters = text.chars();
    let c = letters.next()?;
    match letters.next() {
        None => Some(c),
        Some(_) => None,
    }
}

// Is it a key of a node that is no child's?
fn is_own_key(key: &str) -> bool
    ensures { IsTrue result ↔ ((key.now ≡ codes "docs") ⊎ (key.now ≡ codes "df")) }
{
    key == "docs" || key == "df"
}

// The children that the members describe, numbered on from the values that wait. Their values wait
// after these. Keys come in the order of their bytes, which is that of the characters, so each
// child goes last.
fn read_children<'a>(
    alloc: Global,
    members: &'a Map<String, Value>,
    waiting: &mut Vec<&'a Value>,
) -> Result<Children, IndexError>
    ensures ok { IfOk result (λ kids. ReadsChildren kids.items
        (borrowed_values waiting.old.items) (borrowed_values waiting.new.items) (members_view members.now.entries)) }
    ensures order { IfOk result (λ _. HasKeysInOrder (members_view members.now.entries)) }
    ensures foreign { IfErr result (IsRefused (HasForeignKey (members_view members.now.entries))) }
{
    let mut children = InlineList::new(alloc);
    for (key, value) in members.iter() {
        if is_own_key(key.as_str()) {
            continue;
        }
        let Some(c) = only_char(key.as_str()) else {
            return Err(IndexError::ForeignValue);
        };
        let child = Child::new(c, waiting.len())?;
        children.push(child)?;
        waiting.push(value)?;
    }
    Ok(children)
}

// Is this number under `df`?
fn has_count(value: &Value, count: u64) -> bool
    ensures { IsTrue result ↔ (get (codes "df") (view value.now) ≡ Some (number (unsigned count))) }
{
    match value.get("df") {
        Some(df) => df.as_u64() == Some(count),
        None => false,
    }
}

// The children and the postings of the node of a value.
fn read_node<'a>(
    alloc: Global,
    value: &'a Value,
    waiting: &mut Vec<&'a Value>,
) -> Result<(Children, BTreeMap<String, u64>), IndexError>
    ensures ok { IfOk result (λ n. ReadsNode n.0.items n.1.entries
        (borrowed_values waiting.old.items) (borrowed_values waiting.new.items) (view value.now)) }
    ensures foreign { IfErr result (IsRefused ((T : Table) (p : Text) → IsTable T
        → ¬ (IsTree T p (view value.now)))) }
{
    let Some(members) = value.as_object() else {
        return Err(IndexError::ForeignValue);
    };
    let Some(docs) = value.get("docs") else {
        return Err(IndexError::ForeignValue);
    };
    let postings = read_docs(alloc, docs)?;
    if !has_count(value, postings.len() as u64) {
        return Err(IndexError::ForeignValue);
    }
    let children = read_children(alloc, members, waiting)?;
    Ok((children, postings))
}

// The root's children and the nodes of a value, with the names and the lists of their references.
pub(super) fn read_nodes(
    alloc: Global,
    value: &Value,
    names: &mut Names,
    references: &mut Vec<Reference>,
) -> Result<(Vec<Child>, Vec<Node>), IndexError>
    requires { names.old ≡ [] }
    ensures index { IfOk result (λ t. IsIndex t.0.items t.1.items names.new references.new.items) }
    ensures tree { IfOk result (λ t. IsTree (table_of t.0.items t.1.items names.new) []
        (view value.now)) }
    ensures foreign { IfErr result (IsRefused ((T : Table) → IsTable T
        → ¬ (IsTree T [] (view value.now)))) }
{
    let mut waiting = Vec::new(alloc);
    let (first, docs) = read_node(alloc, value, &mut waiting)?;
    if !docs.is_empty() {
        return Err(IndexError::ForeignValue);
    }
    let root = first.into_vec()?;
    let mut nodes = Vec::new(alloc);
    while nodes.len() < waiting.len() {
        let (children, docs) = read_node(alloc, waiting[nodes.len()], &mut waiting)?;
        let postings = number_docs(alloc, names, references, nodes.len(), &docs)?;
        nodes.push(Node { children, postings })?;
    }
    Ok((root, nodes))
}
