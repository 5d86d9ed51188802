//! A list of postings, which is kept short while each number and each frequency has 32 bits.
ghost use Rattle.std.specs.Prelude.{◌≡◌, ◌<◌, ◌≤◌, [], length, insert, remove, slice_set};
ghost use Rattle.std.specs.Prelude.{slice_index_or, IfOk, IfErr, IfSome, OnOk, OnErr};
ghost use Rattle.elasticlunr_trie_nodes.specs.Kept.{postings_in};
ghost use Rattle.elasticlunr_trie_nodes.specs.Pairs.{IsStrictlySorted, IsAt, IsGapFor};

use std::alloc::{AllocError, Global};
use std::marker::Model;
use std::slice;

// One short posting alone stands in place. More of them stand in a vector, so that a list takes no
// more room than one needs.
#[derive(Debug, Drop)]
enum KeptPostings {
    None,
    One((u32, u32)),
    Many(Box<Vec<(u32, u32)>>),
    Long(Box<Vec<(usize, u64)>>),
}

/// Numbers of references, each with a frequency. A posting takes 8 bytes, or 16 in a list that had
/// a number or a frequency of more than 32 bits.
#[derive(Debug, Drop)]
pub struct PostingList {
    alloc: Global,
    kept: KeptPostings,
}

impl Model for PostingList {
    ghost use Rattle.std.specs.Prelude.{ℕ};
    ghost use Rattle.std.specs.Coded.{coded_ℕ, coded×};
    ghost use Rattle.elasticlunr_trie_nodes.specs.InlineList.{InlineList as Items, few_code};
    ghost use Rattle.elasticlunr_trie_nodes.specs.Kept.{postings_in};

    ghost Value = { Items (ℕ × ℕ) };

    ghost coded = { few_code (coded× coded_ℕ coded_ℕ) };

    ghost view = { λ l. record { items = postings_in l.kept } };
}

impl PostingList {
    /// No postings. It does not allocate.
    pub fn new(alloc: Global) -> Self
        ensures { result.items ≡ [] }
    {
        PostingList {
            alloc,
            kept: KeptPostings::None,
        }
    }

    /// No postings, with room for a number of short ones. It does not allocate for one.
    pub fn with_room(alloc: Global, count: usize) -> Result<Self, AllocError>
        ensures { IfOk result (λ l. l.items ≡ []) }
    {
        if count <= 1 {
            return Ok(PostingList::new(alloc));
        }
        let postings = Vec::with_capacity(alloc, count)?;
        let kept = KeptPostings::Many(Box::new(alloc, postings)?);
        Ok(PostingList { alloc, kept })
    }

    /// How many postings there are.
    pub fn len(&self) -> usize
        ensures { result ≡ length self.now.items }
    {
        match &self.kept {
            KeptPostings::None => 0,
            KeptPostings::One(_) => 1,
            KeptPostings::Many(postings) => postings.len(),
            KeptPostings::Long(postings) => postings.len(),
        }
    }

    /// The number and the frequency at a place.
    pub fn get(&self, at: usize) -> (usize, u64)
        requires { at < length self.now.items }
        ensures { result ≡ slice_index_or self.now.items at (0, 0) }
    {
        match &self.kept {
            KeptPostings::None => (0, 0),
            KeptPostings::One(posting) => long(*posting),
            KeptPostings::Many(postings) => long(postings[at]),
            KeptPostings::Long(postings) => postings[at],
        }
    }

    /// Where a number is, or where it would go.
    pub fn search(&self, number: usize) -> Result<usize, usize>
        requires { IsStrictlySorted self.now.items }
        ensures found { IfOk result (IsAt self.now.items number) }
        ensures absent { IfErr result (IsGapFor self.now.items number) }
    {
        match &self.kept {
            KeptPostings::None => place_of(&[], number),
            KeptPostings::One(posting) => place_of(slice::from_ref(posting), number),
            KeptPostings::Many(postings) => place_of(postings.as_slice(), number),
            KeptPostings::Long(postings) => place_of_long(postings.as_slice(), number),
        }
    }

    /// Puts a posting in a place, and those from there on one further.
    pub fn insert(&mut self, at: usize, number: usize, frequency: u64) -> Result<(), AllocError>
        requires { at ≤ length self.old.items }
        ensures ok { OnOk result (self.new.items ≡ insert self.old.items at (number, frequency)) }
        ensures err { OnErr result (self.new ≡ self.old) }
    {
        if let KeptPostings::Long(postings) = &mut self.kept {
            postings.insert(at, (number, frequency))?;
            return Ok(());
        }
        match short(number, frequency) {
            Some(posting) => insert_short(self.alloc, &mut self.kept, at, posting),
            None => {
                let mut postings = widened(self.alloc, self)?;
                postings.insert(at, (number, frequency))?;
                self.kept = KeptPostings::Long(Box::new(self.alloc, postings)?);
                Ok(())
            }
        }
    }

    /// Replaces a posting.
    pub fn set(&mut self, at: usize, number: usize, frequency: u64) -> Result<(), AllocError>
        requires { at < length self.old.items }
        ensures ok { OnOk result (self.new.items
            ≡ slice_set self.old.items at (number, frequency)) }
        ensures err { OnErr result (self.new ≡ self.old) }
    {
        if let KeptPostings::Long(postings) = &mut self.kept {
            postings[at] = (number, frequency);
            return Ok(());
        }
        match short(number, frequency) {
            Some(posting) => {
                set_short(&mut self.kept, at, posting);
                Ok(())
            }
            None => {
                let mut postings = widened(self.alloc, self)?;
                postings[at] = (number, frequency);
                self.kept = KeptPostings::Long(Box::new(self.alloc, postings)?);
                Ok(())
            }
        }
    }

    /// Takes a posting away, and puts those after it one nearer.
    pub fn remove(&mut self, at: usize)
        requires { at < length self.old.items }
        ensures { self.new.items ≡ remove self.old.items at }
    {
        match &mut self.kept {
            KeptPostings::None => {}
            KeptPostings::One(_) => {
                self.kept = KeptPostings::None;
            }
            KeptPostings::Many(postings) => {
                postings.remove(at);
            }
            KeptPostings::Long(postings) => {
                postings.remove(at);
            }
        }
    }
}

// A posting in eight bytes, if it has room there.
fn short(number: usize, frequency: u64) -> Option<(u32, u32)>
    ensures { IfSome result (λ p. p ≡ (number, frequency)) }
{
    let number = u32::try_from(number).ok()?;
    let frequency = u32::try_from(frequency).ok()?;
    Some((number, frequency))
}

// The same posting in 16 bytes.
fn long(posting: (u32, u32)) -> (usize, u64)
    ensures { result ≡ posting }
{
    (posting.0 as usize, u64::from(posting.1))
}

// Where the posting of a number is, or where it would go. A number above all others is not searched
// for.
fn place_of(postings: &[(u32, u32)], number: usize) -> Result<usize, usize>
    requires { IsStrictlySorted postings.now }
    ensures found { IfOk result (IsAt postings.now number) }
    ensures absent { IfErr result (IsGapFor postings.now number) }
{
    let count = postings.len();
    if count == 0 {
        return Err(0);
    }
    if (postings[count - 1].0 as usize) < number {
        return Err(count);
    }
    postings.binary_search_by_key(&number, |posting| posting.0 as usize)
}

// The same among postings of 16 bytes.
fn place_of_long(postings: &[(usize, u64)], number: usize) -> Result<usize, usize>
    requires { IsStrictlySorted postings.now }
    ensures found { IfOk result (IsAt postings.now number) }
    ensures absent { IfErr result (IsGapFor postings.now number) }
{
    postings.binary_search_by_key(&number, |posting| posting.0)
}

// Puts a short posting in a place of short ones.
fn insert_short(
    alloc: Global,
    kept: &mut KeptPostings,
    at: usize,
    posting: (u32, u32),
) -> Result<(), AllocError>
    requires { at ≤ length (postings_in kept.old) }
    ensures ok { OnOk result (postings_in kept.new ≡ insert (postings_in kept.old) at posting) }
    ensures err { OnErr result (postings_in kept.new ≡ postings_in kept.old) }
{
    match kept {
        KeptPostings::None => {
            *kept = KeptPostings::One(posting);
        }
        KeptPostings::One(first) => {
            let mut postings = Vec::with_capacity(alloc, 2)?;
            postings.push(*first)?;
            postings.insert(at, posting)?;
            *kept = KeptPostings::Many(Box::new(alloc, postings)?);
        }
        KeptPostings::Many(postings) => {
            if at == postings.len() {
                postings.push(posting)?;
            } else {
                postings.insert(at, posting)?;
            }
        }
        KeptPostings::Long(postings) => {
            postings.insert(at, long(posting))?;
        }
    }
    Ok(())
}

// Replaces a posting by a short one.
fn set_short(kept: &mut KeptPostings, at: usize, posting: (u32, u32))
    requires { at < length (postings_in kept.old) }
    ensures { postings_in kept.new ≡ slice_set (postings_in kept.old) at posting }
{
    match kept {
        KeptPostings::None => {}
        KeptPostings::One(first) => {
            *first = posting;
        }
        KeptPostings::Many(postings) => {
            postings[at] = posting;
        }
        KeptPostings::Long(postings) => {
            postings[at] = long(posting);
        }
    }
}

// The same postings, in 16 bytes each.
fn widened(alloc: Global, list: &PostingList) -> Result<Vec<(usize, u64)>, AllocError>
    ensures { IfOk result (λ more. more.items ≡ list.now.items) }
{
    let mut more = Vec::with_capacity(alloc, list.len())?;
    for i in 0..list.len() {
        more.push(list.get(i))?;
    }
    Ok(more)
}
