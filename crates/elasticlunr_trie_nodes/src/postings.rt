//! The postings of a node, by the numbers of their references.
ghost use Rattle.std.specs.FinMap as map;
ghost use Rattle.std.specs.Prelude.{◌≡◌, ◌<◌, slice_index_or, OnOk, OnErr, IfOk};
ghost use Rattle.elasticlunr_trie_nodes.specs.Pairs.{value_of, IsStrictlySorted};
ghost use Rattle.elasticlunr_trie_nodes.specs.Frequencies.{frequencies_of};

use crate::posting_list::PostingList;
use std::alloc::{AllocError, Global};
use std::marker::Model;

/// A finite map from numbers of references to frequencies, as pairs in the order of the numbers. A
/// new greatest number goes to the end without a search.
#[derive(Debug, Drop)]
pub struct Postings {
    pairs: PostingList,
}

impl Model for Postings {
    ghost use Rattle.std.specs.Coded.{coded_ℕ};
    ghost use Rattle.std.specs.FinMap as map;
    ghost use Rattle.elasticlunr_trie_nodes.specs.Frequencies.{Frequencies, frequencies_of};
    ghost use Rattle.elasticlunr_trie_nodes.specs.Pairs.{IsStrictlySorted};

    ghost Value = { Frequencies };

    ghost coded = { map.code coded_ℕ coded_ℕ };

    ghost view = { λ a. frequencies_of a.pairs.items };

    ghost invariant = { λ a. IsStrictlySorted a.pairs.items };
}

impl Postings {
    /// No postings. It does not allocate.
    pub fn new(alloc: Global) -> Self
        ensures { result ≡ map.empty }
    {
        Postings {
            pairs: PostingList::new(alloc),
        }
    }

    /// No postings, with room for a number of them.
    pub fn with_room(alloc: Global, count: usize) -> Result<Self, AllocError>
        ensures { IfOk result (λ p. p ≡ map.empty) }
    {
        let pairs = PostingList::with_room(alloc, count)?;
        Ok(Postings { pairs })
    }

    /// How many references have a posting.
    pub fn len(&self) -> usize
        ensures { result ≡ map.len self.now }
    {
        self.pairs.len()
    }

    /// The number and the frequency at a place, in the order of the numbers.
    pub fn at(&self, i: usize) -> (usize, u64)
        requires { i < map.len self.now }
        ensures { result ≡ slice_index_or (map.entries self.now) i (0, 0) }
    {
        self.pairs.get(i)
    }

    /// The frequency of a reference, if it has a posting.
    pub fn get(&self, number: usize) -> Option<u64>
        ensures { result ≡ map.get self.now number }
    {
        value_of(&self.pairs, number)
    }

    /// Sets the posting of a reference. One alone does not allocate.
    pub fn set(&mut self, number: usize, frequency: u64) -> Result<(), AllocError>
        ensures ok { OnOk result (self.new ≡ map.insert self.old number frequency) }
        ensures err { OnErr result (self.new ≡ self.old) }
    {
        set_pair(&mut self.pairs, number, frequency)
    }

    /// Takes the posting of a reference away, if it is there.
    pub fn remove(&mut self, number: usize)
        ensures { self.new ≡ map.remove self.old number }
    {
        remove_pair(&mut self.pairs, number);
    }
}

// The frequency under a number.
fn value_of(pairs: &PostingList, number: usize) -> Option<u64>
    requires { IsStrictlySorted pairs.now.items }
    ensures { result ≡ value_of pairs.now.items number }
{
    match pairs.search(number) {
        Ok(at) => Some(pairs.get(at).1),
        Err(_) => None,
    }
}

// Sets the pair of a number.
fn set_pair(pairs: &mut PostingList, number: usize, frequency: u64) -> Result<(), AllocError>
    requires { IsStrictlySorted pairs.old.items }
    ensures sorted { IsStrictlySorted pairs.new.items }
    ensures ok { OnOk result (frequencies_of pairs.new.items
        ≡ map.insert (frequencies_of pairs.old.items) number frequency) }
    ensures err { OnErr result (pairs.new.items ≡ pairs.old.items) }
{
    match pairs.search(number) {
        Ok(at) => {
            pairs.set(at, number, frequency)?;
            Ok(())
        }
        Err(at) => {
            pairs.insert(at, number, frequency)?;
            Ok(())
        }
    }
}

// Takes the pair of a number away.
fn remove_pair(pairs: &mut PostingList, number: usize)
    requires { IsStrictlySorted pairs.old.items }
    ensures sorted { IsStrictlySorted pairs.new.items }
    ensures removed { frequencies_of pairs.new.items ≡ map.remove (frequencies_of pairs.old.items)
        number }
{
    if let Ok(at) = pairs.search(number) {
        pairs.remove(at);
    }
}
