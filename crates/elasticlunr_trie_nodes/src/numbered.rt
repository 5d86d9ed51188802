//! Postings under names, put under numbers.
ghost use Rattle.std.specs.Prelude.{◌≡◌, IsTrue, Some, OnOk, IfOk, IfSome, slice_get};
ghost use Rattle.std.specs.FinMap.{entries};
ghost use Rattle.elasticlunr_trie_nodes.specs.Table.{postings_of};
ghost use Rattle.elasticlunr_trie_nodes.specs.Names.{AreNames, ArePostings, Extends, at, entered};
ghost use Rattle.elasticlunr_trie_nodes.specs.Names.{named_pairs};
ghost use Rattle.elasticlunr_trie_nodes.specs.NameNumbers.{KeepsOtherFrequencies};
ghost use Rattle.elasticlunr_trie_nodes.specs.Nodes.{KeepsLists, IsListed};
ghost use Rattle.elasticlunr_trie_nodes.specs.Trie.{named};

use crate::lists::list_new;
use crate::names::Names;
use crate::nodes::Reference;
use crate::postings::Postings;
use std::alloc::{AllocError, Global};
use std::collections::BTreeMap;

// Sets a posting of a node by the name of its reference, which lists the node.
fn put_posting(
    alloc: Global,
    names: &mut Names,
    references: &mut Vec<Reference>,
    k: usize,
    postings: &mut Postings,
    doc_ref: &str,
    frequency: u64,
) -> Result<(), AllocError>
    requires listed { IsListed names.old references.old.items k postings.old }
    ensures listed { OnOk result (IsListed names.new references.new.items k postings.new) }
    ensures keeps { OnOk result (KeepsLists references.old.items references.new.items) }
    ensures names { OnOk result (names.new ≡ entered names.old doc_ref.now) }
    ensures set { OnOk result (at names.new doc_ref.now postings.new ≡ Some frequency) }
    ensures others { OnOk result (KeepsOtherFrequencies names.old postings.old names.new
        postings.new doc_ref.now) }
{
    let number = names.enter(doc_ref)?;
    list_new(alloc, references, number, k)?;
    postings.set(number, frequency)?;
    Ok(())
}

/// The postings of a map, for a new node.
pub fn number_docs(
    alloc: Global,
    names: &mut Names,
    references: &mut Vec<Reference>,
    k: usize,
    docs: &BTreeMap<String, u64>,
) -> Result<Postings, AllocError>
    requires { AreNames names.old }
    ensures names { IfOk result (λ _. AreNames names.new) }
    ensures extends { IfOk result (λ _. Extends names.old names.new) }
    ensures keeps { IfOk result (λ _. KeepsLists references.old.items references.new.items) }
    ensures listed { IfOk result (λ p. IsListed names.new references.new.items k p) }
    ensures same { IfOk result (λ p. named names.new p ≡ postings_of docs.now.entries) }
{
    let mut postings = Postings::with_room(alloc, docs.len())?;
    for (doc_ref, frequency) in docs.iter() {
        put_posting(
            alloc,
            names,
            references,
            k,
            &mut postings,
            doc_ref,
            *frequency,
        )?;
    }
    Ok(postings)
}

/// The same postings under other numbers, for a new node.
pub fn renumber(
    alloc: Global,
    names: &mut Names,
    references: &mut Vec<Reference>,
    k: usize,
    old_names: &Names,
    old: &Postings,
) -> Result<Postings, AllocError>
    requires names { AreNames names.old }
    requires old_names { AreNames old_names.now }
    requires postings { ArePostings old_names.now (entries old.now) }
    ensures names { IfOk result (λ _. AreNames names.new) }
    ensures extends { IfOk result (λ _. Extends names.old names.new) }
    ensures keeps { IfOk result (λ _. KeepsLists references.old.items references.new.items) }
    ensures listed { IfOk result (λ p. IsListed names.new references.new.items k p) }
    ensures same { IfOk result (λ p. named names.new p ≡ named_pairs old_names.now
        (entries old.now)) }
{
    let count = old.len();
    let mut postings = Postings::with_room(alloc, count)?;
    for i in 0..count {
        let (number, frequency) = old.at(i);
        put_posting(
            alloc,
            names,
            references,
            k,
            &mut postings,
            old_names.name(number),
            frequency,
        )?;
    }
    Ok(postings)
}
