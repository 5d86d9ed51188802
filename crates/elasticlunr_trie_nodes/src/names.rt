//! The names of a trie's references, each with its number.
ghost use Rattle.std.specs.Prelude.{◌≡◌, ◌++◌, ◌∷◌, [], length, slice_get, Some, OnOk, OnErr};
ghost use Rattle.std.specs.Prelude.{IfOk, IfSome, ◌<◌};
ghost use Rattle.elasticlunr_trie_nodes.specs.NameNumbers.{GainsNumber};
ghost use Rattle.elasticlunr_trie_nodes.specs.Names.{names_of, number_of, entered, AreNames};
ghost use Rattle.elasticlunr_trie_nodes.specs.Names.{AreRanks, HasNumbersBelow};
ghost use Rattle.elasticlunr_trie_nodes.specs.Names.{HasDistinctNumbers, HasRanks};

use std::alloc::{AllocError, Global};
use std::collections::BTreeMap;
use std::fmt;
use std::marker::Model;

/// Names in the order in which they came. The number of a name is its place, and no name comes
/// twice.
#[derive(Drop)]
pub struct Names {
    in_order: Vec<String>,
    numbers: BTreeMap<String, usize>,
    // the number of the name that was entered last
    recent: usize,
}

impl Model for Names {
    ghost use Rattle.std.specs.Coded.{coded_ℕ, coded_list};
    ghost use Rattle.elasticlunr_trie_nodes.specs.NameNumbers.{HasNumbersOf};
    ghost use Rattle.elasticlunr_trie_nodes.specs.Names as names;

    ghost Value = { names.Names };

    ghost coded = { coded_list (coded_list coded_ℕ) };

    ghost view = { λ a. names.names_of a.in_order.items };

    ghost invariant = { λ a. HasNumbersOf (names.names_of a.in_order.items) a.numbers
        × names.AreDistinct (names.names_of a.in_order.items) };
}

impl Names {
    /// No names. It does not allocate.
    pub fn new(alloc: Global) -> Self
        ensures { result ≡ [] }
    {
        Names {
            in_order: Vec::new(alloc),
            numbers: BTreeMap::new(alloc),
            recent: 0,
        }
    }

    /// How many names there are.
    pub fn len(&self) -> usize
        ensures { result ≡ length self.now }
    {
        self.in_order.len()
    }

    /// The number of a name.
    pub fn number_of(&self, name: &str) -> Option<usize>
        ensures { result ≡ number_of self.now name.now }
    {
        self.numbers.get(name).copied()
    }

    /// The name of a number.
    pub fn name(&self, number: usize) -> &str
        requires { number < length self.now }
        ensures { slice_get self.now number ≡ Some result.now }
    {
        &self.in_order[number]
    }

    /// For each number, the place of its name among the names in order.
    pub fn ranks(&self, alloc: Global) -> Result<Vec<usize>, AllocError>
        requires { AreNames self.now }
        ensures { IfOk result (λ ranks. AreRanks self.now ranks.items) }
    {
        let mut ranks = Vec::with_capacity(alloc, self.numbers.len())?;
        for _ in &self.in_order {
            ranks.push(0)?;
        }
        set_ranks(&self.numbers, &mut ranks);
        Ok(ranks)
    }

    /// The number of the name that was entered last, if it is this one.
    fn entered_last(&self, name: &str) -> Option<usize>
        ensures { IfSome result (λ n. number_of self.now name.now ≡ Some n) }
    {
        if self.recent >= self.in_order.len() || self.name(self.recent) != name {
            return None;
        }
        Some(self.recent)
    }

    /// The number of a name, which is added if it is new. The name that was entered last, which
    /// comes most often, is not looked up.
    pub fn enter(&mut self, name: &str) -> Result<usize, AllocError>
        ensures names { OnOk result (self.new ≡ entered self.old name.now) }
        ensures number { IfOk result (λ n. number_of self.new name.now ≡ Some n) }
        ensures err { OnErr result (self.new ≡ self.old) }
    {
        if let Some(number) = self.entered_last(name) {
            return Ok(number);
        }
        if let Some(number) = self.numbers.get(name) {
            self.recent = *number;
            return Ok(*number);
        }
        let number = add_name(&mut self.in_order, &mut self.numbers, name)?;
        self.recent = number;
        Ok(number)
    }
}

impl fmt::Debug for Names {
    fn fmt<W: fmt::Write>(&self, f: &mut fmt::Formatter<W>) -> fmt::Result {
        f.debug_struct("Names")
            .field("in_order", &self.in_order)
            .field("numbers", &self.numbers)
            .finish()
    }
}

/// Names alone, side by side in memory, since printing reads one for each posting.
///
/// A clause sees them as it sees `Names`.
#[derive(Drop)]
pub struct NameTexts {
    texts: Vec<String>,
}

impl Model for NameTexts {
    ghost use Rattle.std.specs.Coded.{coded_ℕ, coded_list};
    ghost use Rattle.elasticlunr_trie_nodes.specs.Names as names;

    ghost Value = { names.Names };

    ghost coded = { coded_list (coded_list coded_ℕ) };

    ghost view = { λ a. names.names_of a.texts.items };
}

impl NameTexts {
    /// A copy of the names that shares no memory with them.
    pub fn of(alloc: Global, names: &Names) -> Result<Self, AllocError>
        ensures { IfOk result (λ texts. texts ≡ names.now) }
    {
        Ok(NameTexts {
            texts: copies(alloc, &names.in_order)?,
        })
    }

    /// The name of a number.
    pub fn name(&self, number: usize) -> &str
        requires { number < length self.now }
        ensures { slice_get self.now number ≡ Some result.now }
    {
        &self.texts[number]
    }
}

// Copies of strings.
fn copies(alloc: Global, strings: &[String]) -> Result<Vec<String>, AllocError>
    ensures { IfOk result (λ v. names_of v.items ≡ names_of strings.now) }
{
    let mut copies = Vec::with_capacity(alloc, strings.len())?;
    for string in strings {
        copies.push(string.clone()?)?;
    }
    Ok(copies)
}

// Gives a name the next number.
fn add_name(
    in_order: &mut Vec<String>,
    numbers: &mut BTreeMap<String, usize>,
    name: &str,
) -> Result<usize, AllocError>
    ensures number { IfOk result (λ n. n ≡ length (names_of in_order.old.items)) }
    ensures name { OnOk result (names_of in_order.new.items
        ≡ names_of in_order.old.items ++ name.now ∷ []) }
    ensures numbers { OnOk result (GainsNumber numbers.old numbers.new name.now
        (length (names_of in_order.old.items))) }
    ensures same_names { OnErr result (in_order.new.items ≡ in_order.old.items) }
    ensures same_numbers { OnErr result (numbers.new.entries ≡ numbers.old.entries) }
{
    let alloc = *in_order.allocator();
    let number = in_order.as_slice().len();
    let own = String::from_str(alloc, name)?;
    let key = String::from_str(alloc, name)?;
    in_order.reserve(1)?;
    numbers.insert(key, number)?;
    in_order.push(own).unwrap();
    Ok(number)
}

// Writes the place of each entry over what stands under its number.
fn set_ranks(numbers: &BTreeMap<String, usize>, ranks: &mut Vec<usize>)
    requires in_range { HasNumbersBelow numbers.now.entries (length ranks.old.items) }
    requires apart { HasDistinctNumbers numbers.now.entries }
    ensures count { length ranks.new.items ≡ length ranks.old.items }
    ensures ranks { HasRanks numbers.now.entries ranks.new.items (length numbers.now.entries) }
{
    let count = numbers.len();
    let mut left = count;
    for (_, number) in numbers.iter() {
        ranks[*number] = count - left;
        left -= 1;
    }
}
