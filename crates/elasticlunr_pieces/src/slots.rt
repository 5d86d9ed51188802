//! Texts with their places, each in a slot of its hash. A slot has the text itself, so a look-up
//! waits for memory once.
ghost use Rattle.std.specs.Prelude.{◌≡◌, ◌<◌, All, IfOk, IfSome, List, Some, length, take};
ghost use Rattle.std.specs.List.Sorted.{IsStrictlySortedBy};
ghost use Rattle.elasticlunr_error.specs.Text.{Bytes, text_cmp};
ghost use Rattle.elasticlunr_pieces.specs.Entries.{number_of};
ghost use Rattle.elasticlunr_pieces.specs.Numbers.{told_texts};
ghost use Rattle.elasticlunr_pieces.specs.Slots.{HasPlace};

use std::alloc::{AllocError, Global};
use std::hash::{BuildHasher, BuildHasherDefault, FoldHasher};

/// How many bytes of a text a slot has room for. A longer text has no slot.
const ROOM: usize = 59;

/// In how many slots a text may stand: in the one of its hash, and in those that follow.
const REACH: usize = 8;

/// A text and its place. The empty text marks a free slot.
#[derive(Clone, Copy)]
pub(crate) struct Slot {
    place: u32,
    length: u8,
    text: [u8; ROOM],
}

impl Slot {
    // What a free slot has.
    fn free() -> Slot
        ensures { result.length ≡ 0 }
    {
        Slot {
            place: 0,
            length: 0,
            text: [0; ROOM],
        }
    }

    // A text with its place, if it has room.
    fn new(text: &str, place: u32) -> Option<Slot>
        ensures { IfSome result (λ slot. (take slot.length slot.text ≡ text.now)
            × (slot.place ≡ place)) }
    {
        if text.len() > ROOM {
            return None;
        }
        let mut room = [0; ROOM];
        room[..text.len()].copy_from_slice(text.as_bytes());
        Some(Slot {
            place,
            length: text.len() as u8,
            text: room,
        })
    }

    // The bytes of the text.
    fn bytes(&self) -> &[u8]
        ensures { result.now ≡ take self.now.length self.now.text }
    {
        self.text.get(..self.length as usize).unwrap_or(&self.text)
    }
}

/// The place of a text among texts that rise, if a slot of its hash has it.
pub(crate) fn place_of(slots: &[Slot], text: &str) -> Option<usize>
    ensures { IfSome result (λ n. (texts : List Bytes) → All (HasPlace texts) slots.now
        → number_of texts text.now ≡ Some n) }
{
    if text.is_empty() || text.len() > ROOM {
        return None;
    }
    let hash = hash_of(text);
    for further in 0..REACH {
        let slot = slots.get(number_of_slot(slots, hash, further))?;
        if slot.length == 0 {
            return None;
        }
        if slot.bytes() == text.as_bytes() {
            return Some(slot.place as usize);
        }
    }
    None
}

/// Texts that rise with their places, each in a slot of its hash, if it has room and one is free.
pub(crate) fn slots_of(alloc: Global, texts: &[&str]) -> Result<Vec<Slot>, AllocError>
    requires { IsStrictlySortedBy text_cmp (told_texts texts.now) }
    ensures { IfOk result (λ slots. All (HasPlace (told_texts texts.now)) slots.items) }
{
    let count = texts.len().saturating_mul(2);
    let count = count.checked_next_power_of_two().unwrap_or(0);
    let mut slots = Vec::from_elem(alloc, Slot::free(), count)?;
    for place in 0..texts.len() {
        put_text(&mut slots, texts, place);
    }
    Ok(slots)
}

// Puts the text of a place in a slot of its hash, if it has room and one is free.
fn put_text(slots: &mut [Slot], texts: &[&str], place: usize)
    requires there { place < length texts.now }
    requires order { IsStrictlySortedBy text_cmp (told_texts texts.now) }
    ensures { All (HasPlace (told_texts texts.now)) slots.old
        → All (HasPlace (told_texts texts.now)) slots.new }
{
    let text = texts[place];
    let Ok(number) = u32::try_from(place) else {
        return;
    };
    let Some(slot) = Slot::new(text, number) else {
        return;
    };
    put_slot(slots, hash_of(text), slot);
}

// Puts a slot where a free one of its hash is, if one is.
fn put_slot(slots: &mut [Slot], hash: u64, slot: Slot)
    ensures { (texts : List Bytes) → All (HasPlace texts) slots.old → HasPlace texts slot
        → All (HasPlace texts) slots.new }
{
    let Some(number) = free_slot(slots, hash) else {
        return;
    };
    slots[number] = slot;
}

// The first of the slots of a hash that is free, if one is.
fn free_slot(slots: &[Slot], hash: u64) -> Option<usize>
    ensures { IfSome result (λ number. number < length slots.now) }
{
    for further in 0..REACH {
        let number = number_of_slot(slots, hash, further);
        if slots.get(number)?.length == 0 {
            return Some(number);
        }
    }
    None
}

// The number of a slot: so many further than that of the hash. The number of slots is a power of 2.
fn number_of_slot(slots: &[Slot], hash: u64, further: usize) -> usize {
    (hash as usize).wrapping_add(further) & slots.len().wrapping_sub(1)
}

fn hash_of(text: &str) -> u64 {
    BuildHasherDefault::<FoldHasher>::new().hash_one(text)
}
