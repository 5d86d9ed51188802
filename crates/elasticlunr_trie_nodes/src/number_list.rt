//! A list of numbers of nodes.
ghost use Rattle.std.specs.Prelude.{◌≡◌, ◌<◌, [], ◌∷◌, ◌++◌, length, remove, slice_index};
ghost use Rattle.std.specs.Prelude.{IfOk, OnOk, OnErr};

use std::alloc::{AllocError, Global};
use std::fmt;
use std::marker::Model;

// A number takes four bytes while each has 32 bits, and else eight.
#[derive(Drop)]
enum Numbers {
    Short(Vec<u32>),
    Long(Vec<u64>),
}

/// Numbers of nodes, in the order in which they came. Each takes four bytes, or eight in a list
/// that had one of more than 32 bits.
#[derive(Drop)]
pub struct NumberList {
    numbers: Numbers,
}

impl Model for NumberList {
    ghost use Rattle.std.specs.Prelude.{ℕ};
    ghost use Rattle.std.specs.Coded.{coded_ℕ};
    ghost use Rattle.elasticlunr_trie_nodes.specs.InlineList.{InlineList as Items, few_code};
    ghost use Rattle.elasticlunr_trie_nodes.specs.Kept.{numbers_in};

    ghost Value = { Items ℕ };

    ghost coded = { few_code coded_ℕ };

    ghost view = { λ l. record { items = numbers_in l.numbers } };
}

impl NumberList {
    /// No numbers. It does not allocate.
    pub fn new(alloc: Global) -> Self
        ensures { result.items ≡ [] }
    {
        NumberList {
            numbers: Numbers::Short(Vec::new(alloc)),
        }
    }

    /// How many numbers there are.
    pub fn len(&self) -> usize
        ensures { result ≡ length self.now.items }
    {
        match &self.numbers {
            Numbers::Short(numbers) => numbers.len(),
            Numbers::Long(numbers) => numbers.len(),
        }
    }

    /// The number at a place.
    pub fn get(&self, at: usize) -> usize
        requires { at < length self.now.items }
        ensures { result ≡ slice_index self.now.items at }
    {
        match &self.numbers {
            Numbers::Short(numbers) => numbers[at] as usize,
            Numbers::Long(numbers) => numbers[at] as usize,
        }
    }

    /// Makes room for more numbers.
    pub fn reserve(&mut self, count: usize) -> Result<(), AllocError>
        ensures { self.new ≡ self.old }
    {
        match &mut self.numbers {
            Numbers::Short(numbers) => numbers.reserve(count),
            Numbers::Long(numbers) => numbers.reserve(count),
        }
    }

    /// Puts a number at the end.
    pub fn push(&mut self, number: usize) -> Result<(), AllocError>
        ensures ok { OnOk result (self.new.items ≡ self.old.items ++ number ∷ []) }
        ensures err { OnErr result (self.new ≡ self.old) }
    {
        match &mut self.numbers {
            Numbers::Short(numbers) => match u32::try_from(number) {
                Ok(short) => {
                    numbers.push(short)?;
                }
                Err(_) => {
                    let mut more = widened(numbers)?;
                    more.push(number as u64)?;
                    self.numbers = Numbers::Long(more);
                }
            },
            Numbers::Long(numbers) => {
                numbers.push(number as u64)?;
            }
        }
        Ok(())
    }

    /// Removes the number at a place. Those after it move down by one place.
    pub fn remove(&mut self, at: usize)
        requires { at < length self.old.items }
        ensures { self.new.items ≡ remove self.old.items at }
    {
        match &mut self.numbers {
            Numbers::Short(numbers) => {
                numbers.remove(at);
            }
            Numbers::Long(numbers) => {
                numbers.remove(at);
            }
        }
    }
}

impl fmt::Debug for NumberList {
    fn fmt<W: fmt::Write>(&self, f: &mut fmt::Formatter<W>) -> fmt::Result {
        match &self.numbers {
            Numbers::Short(numbers) => numbers.fmt(f),
            Numbers::Long(numbers) => numbers.fmt(f),
        }
    }
}

// The same numbers, in eight bytes each.
fn widened(numbers: &Vec<u32>) -> Result<Vec<u64>, AllocError>
    ensures { IfOk result (λ more. more.items ≡ numbers.now.items) }
{
    let mut more = Vec::new(*numbers.allocator());
    for number in numbers {
        more.push(u64::from(*number))?;
    }
    Ok(more)
}
