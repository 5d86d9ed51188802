//! A list that keeps one item in place, or else the place of a vector.
ghost use Rattle.std.specs.Mem.{FitsInMemory};
ghost use Rattle.std.specs.Prelude.{◌≡◌, ◌<◌, ◌≤◌, [], ◌∷◌, ◌++◌, length, insert, remove};
ghost use Rattle.std.specs.Prelude.{slice_set, IfOk, OnOk, OnErr};

use std::alloc::{AllocError, Global};
use std::marker::Model;
use std::slice;

// More than one item stand in a vector, so that a list takes no more room than one item needs.
#[derive(Debug, Drop)]
enum Kept<T> {
    None,
    One(T),
    Many(Box<Vec<T>>),
}

/// A list. It does not allocate for one item.
#[derive(Debug, Drop)]
pub struct InlineList<T> {
    alloc: Global,
    kept: Kept<T>,
}

impl<T> Model for InlineList<T> {
    ghost use Rattle.elasticlunr_trie_nodes.specs.InlineList.{InlineList as Items, few_code};

    ghost Value = { Items T };

    ghost coded = { few_code T.code };

    ghost use Rattle.elasticlunr_trie_nodes.specs.Kept.{kept_items};

    ghost view = { λ f. record { items = kept_items f.kept } };
}

impl<T: Copy> InlineList<T> {
    /// No items. It does not allocate.
    pub fn new(alloc: Global) -> Self
        ensures { result.items ≡ [] }
    {
        InlineList {
            alloc,
            kept: Kept::None,
        }
    }

    /// One item. It does not allocate.
    pub fn one(alloc: Global, item: T) -> Self
        ensures { result.items ≡ item ∷ [] }
    {
        InlineList {
            alloc,
            kept: Kept::One(item),
        }
    }

    /// No items, with room for a number of them. It does not allocate for one.
    pub fn with_room(alloc: Global, count: usize) -> Result<Self, AllocError>
        ensures { IfOk result (λ f. f.items ≡ []) }
    {
        if count <= 1 {
            return Ok(InlineList::new(alloc));
        }
        let items = Vec::with_capacity(alloc, count)?;
        let kept = Kept::Many(Box::new(alloc, items)?);
        Ok(InlineList { alloc, kept })
    }

    /// The items.
    pub fn as_slice(&self) -> &[T]
        requires { FitsInMemory T.row }
        ensures { result.now ≡ self.now.items }
    {
        match &self.kept {
            Kept::None => &[],
            Kept::One(item) => slice::from_ref(item),
            Kept::Many(items) => items.as_slice(),
        }
    }

    /// Puts an item in a place, and those from there on one further.
    pub fn insert(&mut self, at: usize, item: T) -> Result<(), AllocError>
        requires { at ≤ length self.old.items }
        ensures ok { OnOk result (self.new.items ≡ insert self.old.items at item) }
        ensures err { OnErr result (self.new ≡ self.old) }
    {
        match &mut self.kept {
            Kept::None => {
                self.kept = Kept::One(item);
            }
            Kept::One(first) => {
                let mut items = Vec::with_capacity(self.alloc, 2)?;
                items.push(*first)?;
                items.insert(at, item)?;
                self.kept = Kept::Many(Box::new(self.alloc, items)?);
            }
            Kept::Many(items) => {
                if at == items.len() {
                    items.push(item)?;
                } else {
                    items.insert(at, item)?;
                }
            }
        }
        Ok(())
    }

    /// Puts an item at the end.
    pub fn push(&mut self, item: T) -> Result<(), AllocError>
        ensures ok { OnOk result (self.new.items ≡ self.old.items ++ item ∷ []) }
        ensures err { OnErr result (self.new ≡ self.old) }
    {
        match &mut self.kept {
            Kept::None => {
                self.kept = Kept::One(item);
            }
            Kept::One(first) => {
                let mut items = Vec::with_capacity(self.alloc, 2)?;
                items.push(*first)?;
                items.push(item)?;
                self.kept = Kept::Many(Box::new(self.alloc, items)?);
            }
            Kept::Many(items) => {
                items.push(item)?;
            }
        }
        Ok(())
    }

    /// Replaces an item.
    pub fn set(&mut self, at: usize, item: T)
        requires { at < length self.old.items }
        ensures { self.new.items ≡ slice_set self.old.items at item }
    {
        match &mut self.kept {
            Kept::None => {}
            Kept::One(first) => {
                *first = item;
            }
            Kept::Many(items) => {
                items[at] = item;
            }
        }
    }

    /// Takes an item away, and puts those after it one nearer.
    pub fn remove(&mut self, at: usize)
        requires { at < length self.old.items }
        ensures { self.new.items ≡ remove self.old.items at }
    {
        match &mut self.kept {
            Kept::None => {}
            Kept::One(_) => {
                self.kept = Kept::None;
            }
            Kept::Many(items) => {
                items.remove(at);
            }
        }
    }

    /// The items as a vector.
    pub fn into_vec(self) -> Result<Vec<T>, AllocError>
        ensures { IfOk result (λ v. v.items ≡ self.items) }
    {
        let InlineList { alloc, kept } = self;
        match kept {
            Kept::None => Ok(Vec::new(alloc)),
            Kept::One(item) => {
                let mut items = Vec::new(alloc);
                items.push(item)?;
                Ok(items)
            }
            Kept::Many(items) => Ok(Box::into_inner(items)),
        }
    }
}
