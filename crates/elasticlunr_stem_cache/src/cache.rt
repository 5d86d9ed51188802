//! Words that were stemmed, with their stems.
ghost use Rattle.std.specs.Prelude.{◌≡◌, true, IfSome, IfOk, All};
ghost use Rattle.std.specs.Str.{chars};
ghost use Rattle.elasticlunr_error.specs.Text.{text_of};
ghost use Rattle.elasticlunr_stem_cache.specs.Entries.{IsRight};
ghost use Rattle.elasticlunr_stem_cache.specs.Tables.{IsStem};
ghost use Rattle.elasticlunr_stem_tables.specs.declared.language.Language.{Language};
ghost use Rattle.elasticlunr_stem_tables.specs.declared.language.Version.{Version};

use elasticlunr_stem_tables::{Language, Version};
use std::alloc::{AllocError, Global};
use std::hash::{FoldHasher, Hash, Hasher};
use std::mem;

/// How many slots there are at first: a power of two.
const FEWEST: usize = 1024;

/// How many there are at most: a power of two.
const MOST: usize = 131072;

/// How many bytes a word has at most that is remembered.
const LONGEST: usize = 64;

/// A word with its stem.
#[derive(Drop)]
pub struct Entry {
    pub word: String,
    pub stem: String,
}

/// Words with their stems by one table. Each word has two slots, the one that its hash names and the
/// one beside it. So a look-up visits two slots, whatever the words are. Where a quarter of the
/// slots have a word, twice as many are made.
#[derive(Drop)]
pub struct Cache {
    language: Language,
    version: Version,
    slots: Vec<Option<Entry>>,
    filled: usize,
    ghost right: { All (IsRight language version) slots.items },
}

impl Cache {
    /// Stems by the table of a language. Nothing is remembered yet, and no memory is taken.
    pub fn new(alloc: Global, language: Language, version: Version) -> Self {
        Cache {
            language,
            version,
            slots: Vec::new(alloc),
            filled: 0,
        }
    }

    fn is_of(&self, language: Language, version: Version) -> bool
        ensures { result ≡ true → (self.now.language ≡ language) × (self.now.version ≡ version) }
    {
        self.language == language && self.version == version
    }

    /// The stem of a word by the table of a language, if it is remembered.
    pub fn get(&self, language: Language, version: Version, word: &str) -> Option<&str>
        ensures { IfSome result (λ stem. IsStem language version (chars word.now)
            (chars stem.now)) }
    {
        if !self.is_of(language, version) {
            return None;
        }
        let place = slot_of(word, self.slots.len());
        match self.stem_at(place, word) {
            Some(stem) => Some(stem),
            None => self.stem_at(place ^ 1, word),
        }
    }

    /// The stem of a word, if it stands in the slot of this number.
    fn stem_at(&self, place: usize, word: &str) -> Option<&str>
        ensures { IfSome result (λ stem. IsStem self.now.language self.now.version (chars word.now)
            (chars stem.now)) }
    {
        let entry = self.slots.get(place)?.as_ref()?;
        if entry.word.as_str() != word {
            return None;
        }
        Some(entry.stem.as_str())
    }

    /// Remembers a stem by the table of a language. Another word may be forgotten for it.
    pub fn put(
        &mut self,
        alloc: Global,
        language: Language,
        version: Version,
        entry: Entry,
    ) -> Result<(), AllocError>
        requires { IsStem language version (text_of entry.word) (text_of entry.stem) }
    {
        if !self.is_of(language, version) || entry.word.len() > LONGEST {
            return Ok(());
        }
        self.make_room(alloc)?;
        let is_more = put_entry(&mut self.slots, entry);
        self.filled = self.filled.saturating_add(usize::from(is_more));
        Ok(())
    }

    /// Makes twice as many slots where a quarter of them have a word, up to a limit.
    fn make_room(&mut self, alloc: Global) -> Result<(), AllocError>
        ensures language { self.new.language ≡ self.old.language }
        ensures version { self.new.version ≡ self.old.version }
    {
        let count = self.slots.len();
        if self.filled < count / 4 || count >= MOST {
            return Ok(());
        }
        let more = free_slots(alloc, count.saturating_mul(2).max(FEWEST))?;
        let slots = mem::replace(&mut self.slots, Vec::new(alloc));
        self.slots = moved(slots, more);
        Ok(())
    }
}

/// So many slots in which nothing stands.
#[tactic(auto, using(crate::proofs::Stems::none_right))]
fn free_slots(alloc: Global, count: usize) -> Result<Vec<Option<Entry>>, AllocError>
    ensures { IfOk result (λ slots. (language : Language) (version : Version)
        → All (IsRight language version) slots.items) }
{
    let mut slots = Vec::with_capacity(alloc, count)?;
    for _ in 0..count {
        slots.push(None)?;
    }
    Ok(slots)
}

/// The other slots, with the words that stand in these.
fn moved(slots: Vec<Option<Entry>>, others: Vec<Option<Entry>>) -> Vec<Option<Entry>>
    ensures { (language : Language) (version : Version)
        → All (IsRight language version) slots.items
        → All (IsRight language version) others.items
        → All (IsRight language version) result.items }
{
    let mut others = others;
    for slot in slots {
        if let Some(entry) = slot {
            put_entry(&mut others, entry);
        }
    }
    others
}

/// Puts a word with its stem in its slot. What stood there stands in the slot beside it then, and
/// what stood in that one is forgotten. Whether one more slot has a word.
fn put_entry(slots: &mut Vec<Option<Entry>>, entry: Entry) -> bool
    ensures { (language : Language) (version : Version)
        → All (IsRight language version) slots.old.items
        → IsStem language version (text_of entry.word) (text_of entry.stem)
        → All (IsRight language version) slots.new.items }
{
    let place = slot_of(entry.word.as_str(), slots.len());
    let older = put_at(slots, place, Some(entry));
    if older.is_none() {
        return true;
    }
    put_at(slots, place ^ 1, older).is_none()
}

/// Puts something in the slot of this number, if there is one: what stood in it.
fn put_at(slots: &mut Vec<Option<Entry>>, place: usize, entry: Option<Entry>) -> Option<Entry>
    ensures new { (language : Language) (version : Version)
        → All (IsRight language version) slots.old.items → IsRight language version entry
        → All (IsRight language version) slots.new.items }
    ensures result { (language : Language) (version : Version)
        → All (IsRight language version) slots.old.items → IsRight language version entry
        → IsRight language version result }
{
    match slots.get_mut(place) {
        Some(slot) => mem::replace(slot, entry),
        None => entry,
    }
}

/// The number of the slot of a word among so many, a power of two.
fn slot_of(word: &str, count: usize) -> usize {
    let mut state = FoldHasher::default();
    word.hash(&mut state);
    state.finish() as usize & count.saturating_sub(1)
}
