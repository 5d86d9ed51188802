//! The numbers of the references.
ghost use Rattle.std.specs.Prelude.{◌≡◌, ◌<◌, All, IfOk, IfSome, List, Some, length, take};
ghost use Rattle.std.specs.List.Sorted.{IsStrictlySortedBy, IsStrictlySortedBy-prop};
ghost use Rattle.std.proofs.Props.{props};
ghost use Rattle.elasticlunr_error.specs.Text.{Bytes, text_cmp};
ghost use Rattle.elasticlunr_pieces.specs.Entries.{number_of};
ghost use Rattle.elasticlunr_pieces.specs.Numbers.{told_texts};
ghost use Rattle.elasticlunr_pieces.specs.Slots.{HasPlace};

use crate::slots::{Slot, place_of, slots_of};
use std::alloc::{AllocError, Global};

/// The references of the documents in the order of their bytes. The number of a reference is its
/// place, from 0.
///
/// A posting asks for the number of its reference, so most references also stand in a slot of their
/// hash, with their place. One that isn't found there is searched for among all of them, so none
/// takes longer than that, whatever the references are.
#[derive(Drop)]
pub(crate) struct Numbers<'a> {
    references: Vec<&'a str>,
    slots: Vec<Slot>,
    ghost ordered: { IsStrictlySortedBy text_cmp (told_texts references.items) } by { IsStrictlySortedBy-prop text_cmp (told_texts references.items) },
    ghost placed: { All (HasPlace (told_texts references.items)) slots.items } by { Prim.hlevel props },
}

impl<'a> Numbers<'a> {
    /// The numbers of references that rise. Each takes 128 to 256 bytes.
    pub(crate) fn new(alloc: Global, references: Vec<&'a str>) -> Result<Numbers<'a>, AllocError>
        requires ordered { IsStrictlySortedBy text_cmp (told_texts references.items) }
        ensures { IfOk result (λ numbers. numbers.references ≡ references.entry) }
    {
        let slots = slots_of(alloc, &references)?;
        Ok(Numbers { references, slots })
    }

    /// The number of a reference.
    pub(crate) fn number(&self, reference: &str) -> Option<usize>
        ensures { result ≡ number_of (told_texts self.now.references.items) reference.now }
    {
        let references = self.references.as_slice();
        let slots = self.slots.as_slice();
        match place_of(slots, reference) {
            Some(number) => Some(number),
            None => references.binary_search(&reference).ok(),
        }
    }

    /// The references, in order.
    pub(crate) fn references(&self) -> &[&'a str]
        ensures { result.now ≡ self.now.references.items }
    {
        &self.references
    }
}
