//! The head of an index in pieces.
ghost use Rattle.std.specs.Prelude.{◌≡◌, ◌≢◌, ◌+◌, ◌<◌, ◌≤◌, ◌↔◌, ℕ, List, Contains, Some, IfErr};
ghost use Rattle.std.specs.Prelude.{AllPairs, Decides, IfNone, IfOk, IfSome, OnOk, codes, map, slice_get};
ghost use Rattle.std.specs.Prelude.{slice_range, string_bytes, vec_len};
ghost use Rattle.std.specs.Ordering.{nat_cmp};
ghost use Rattle.std.specs.List.Sorted.{IsStrictlySortedBy};
ghost use Rattle.elasticlunr_error.specs.Text.{Bytes, bytes_of, text_cmp};
ghost use Rattle.elasticlunr_json.specs.Maps.{count};
ghost use Rattle.elasticlunr_piece_head.specs.Choice.{IsNeeded, IsNeededForOne};
ghost use Rattle.elasticlunr_piece_head.specs.Fault.{IsHeadFault, IsOfMember, IsSizesFault};
ghost use Rattle.elasticlunr_piece_head.specs.Fault.{IsUnfit, IsValueFault};
ghost use Rattle.elasticlunr_piece_head.specs.Fit.{FitLengths, FitNumbers, FitSizes, FitTexts, Fits};
ghost use Rattle.elasticlunr_piece_head.specs.Fit.{FitTitles, stored};
ghost use Rattle.elasticlunr_piece_head.specs.Holders.{HasDocument, HasOneDocument, holders_from};
ghost use Rattle.elasticlunr_piece_head.specs.Head.{HasDocumentsAt, Says, documents_before, texts_size, tries_size};
ghost use Rattle.elasticlunr_piece_head.specs.Values.{Has, array_of};
ghost use Rattle.serde_json.specs.Data.{Data, string};
ghost use Rattle.serde_json.specs.Read.{read};
ghost use Rattle.serde_json.specs.View.{view};

use crate::choice::{PieceRange, put_number, put_range, range_for};
use crate::counts::{holders_of, sum_of, total_of};
use crate::fault::HeadFault;
use crate::members::{bool_in, lengths_in, numbers_in, text_in, texts_in};
use crate::names::{are_different, rise};
use serde_json::Value;
use std::alloc::{AllocError, Global};
use std::collections::BTreeSet;

/// What the head of an index in pieces says of the index, and of its pieces.
#[derive(Drop)]
pub struct PieceHead {
    pub fields: Vec<String>,
    /// What the head says is the name of the folder of the pieces.
    pub folder: String,
    pub language: String,
    /// For each field the length of each document, in the order of the references.
    pub lengths: Vec<Vec<Option<usize>>>,
    pub stages: Vec<String>,
    pub ref_field: String,
    /// The references of the documents, in the order of their bytes.
    pub references: Vec<String>,
    /// Whether texts are stored.
    pub save: bool,
    /// The bytes of each piece: first those of the tries, then those of the texts and the titles.
    pub sizes: Vec<usize>,
    /// How many documents each piece of the texts has.
    pub texts: Vec<usize>,
    /// How many documents each piece of the titles has.
    pub titles: Vec<usize>,
    /// The first token of each piece of the tries, in order.
    pub tries: Vec<String>,
}

impl PieceHead {
    /// Reads the text of a head. A text whose members don't fit together is refused: where fields
    /// come twice, references or first tokens don't rise, or there are other numbers of lengths, of
    /// documents in pieces or of sizes.
    pub fn read(alloc: Global, text: &str) -> Result<PieceHead, HeadFault>
        ensures says { IfOk result (λ head. (v : Data) × (read text.now ≡ Some v) × Says v head) }
        ensures ordered { IfOk result (λ head.
            IsStrictlySortedBy text_cmp (bytes_of head.references.items)) }
        ensures rising { IfOk result (λ head.
            IsStrictlySortedBy text_cmp (bytes_of head.tries.items)) }
        ensures fits { IfOk result Fits }
        ensures fault { IfErr result (IsHeadFault text.now) }
    {
        let value = match Value::from_str(alloc, text) {
            Ok(value) => value,
            Err(e) if e.is_memory() => return Err(HeadFault::Memory),
            Err(_) => return Err(HeadFault::NotRead),
        };
        let head = PieceHead::of_value(alloc, &value)?;
        head.check_numbers()?;
        Ok(head)
    }

    /// The members of the value of a head.
    fn of_value(alloc: Global, value: &Value) -> Result<PieceHead, HeadFault>
        ensures says { IfOk result (Says (view value.now)) }
        ensures ordered { IfOk result (λ head.
            IsStrictlySortedBy text_cmp (bytes_of head.references.items)) }
        ensures rising { IfOk result (λ head.
            IsStrictlySortedBy text_cmp (bytes_of head.tries.items)) }
        ensures differ { IfOk result (λ head.
            AllPairs (λ name other. name ≢ other) (bytes_of head.fields.items)) }
        ensures fault { IfErr result (IsValueFault (view value.now)) }
    {
        Ok(PieceHead {
            fields: fields_in(alloc, value)?,
            folder: text_in(alloc, value, "folder")?,
            language: text_in(alloc, value, "lang")?,
            lengths: lengths_in(alloc, value, "lengths")?,
            stages: texts_in(alloc, value, "pipeline")?,
            ref_field: text_in(alloc, value, "ref")?,
            references: rising_in(alloc, value, "references")?,
            save: bool_in(value, "save")?,
            sizes: sizes_in(alloc, value)?,
            texts: numbers_in(alloc, value, "texts")?,
            titles: numbers_in(alloc, value, "titles")?,
            tries: rising_in(alloc, value, "tries")?,
        })
    }

    /// Whether the numbers of its members fit together.
    fn check_numbers(&self) -> Result<(), HeadFault>
        ensures fit { OnOk result (FitNumbers self.now) }
        ensures fault { IfErr result (IsUnfit self.now) }
    {
        if !self.lengths_fit() {
            return Err(HeadFault::Member("lengths"));
        }
        if !self.texts_fit() {
            return Err(HeadFault::Member("texts"));
        }
        if !self.titles_fit() {
            return Err(HeadFault::Member("titles"));
        }
        if !self.sizes_fit() {
            return Err(HeadFault::Member("sizes"));
        }
        Ok(())
    }

    /// Whether each field has a length for each reference.
    fn lengths_fit(&self) -> bool
        ensures { Decides result (FitLengths self.now) }
    {
        let documents = self.references.len();
        let are_whole = self.lengths.iter().all(|it| it.len() == documents);
        are_whole && self.lengths.len() == self.fields.len()
    }

    /// How many documents have texts.
    fn stored(&self) -> usize
        ensures { result ≡ stored self.now }
    {
        if self.save { self.references.len() } else { 0 }
    }

    /// Whether the pieces of the texts have the documents that have texts.
    fn texts_fit(&self) -> bool
        ensures { Decides result (FitTexts self.now) }
    {
        match total_of(&self.texts) {
            Some(total) => total == self.stored(),
            None => false,
        }
    }

    /// Whether the pieces of the titles have as many documents, if there are any.
    fn titles_fit(&self) -> bool
        ensures { Decides result (FitTitles self.now) }
    {
        match total_of(&self.titles) {
            Some(total) => total == 0 || total == self.stored(),
            None => false,
        }
    }

    /// Whether there is a size for each piece.
    fn sizes_fit(&self) -> bool
        ensures { Decides result (FitSizes self.now) }
    {
        let pieces = self.tries.len().saturating_add(self.texts.len());
        self.sizes.len() == pieces.saturating_add(self.titles.len())
    }

    /// The pieces of the tries that can have this token, or with `expand` a token that begins with
    /// it.
    pub fn pieces_with(&self, token: &String, expand: bool) -> PieceRange
        ensures { IsStrictlySortedBy text_cmp (bytes_of self.now.tries.items) → (number : ℕ)
            → ((result.from ≤ number) × (number < result.end))
            ↔ IsNeeded (bytes_of self.now.tries.items) expand (string_bytes token.now) number }
    {
        range_for(&self.tries, token, expand)
    }

    /// The numbers of the pieces of the tries that can have one of these tokens, or with `expand` a
    /// token that begins with one: each once, in order.
    pub fn pieces_for(
        &self,
        alloc: Global,
        tokens: &[String],
        expand: bool,
    ) -> Result<Vec<usize>, AllocError>
        ensures needed { IfOk result (λ numbers.
            IsStrictlySortedBy text_cmp (bytes_of self.now.tries.items)
            → (n : ℕ) → Contains numbers.items n
            ↔ IsNeededForOne (bytes_of self.now.tries.items) expand (bytes_of tokens.now) n) }
        ensures order { IfOk result (λ numbers. IsStrictlySortedBy nat_cmp numbers.items) }
    {
        let mut numbers = BTreeSet::new(alloc);
        for token in tokens {
            put_range(self.pieces_with(token, expand), &mut numbers)?;
        }
        let numbers = numbers.into_iter().collect(alloc)?;
        Ok(numbers)
    }

    /// The numbers of the pieces of the texts that have the documents of these references: each
    /// once, in order.
    pub fn pieces_with_texts(
        &self,
        alloc: Global,
        references: &[&String],
    ) -> Result<Vec<usize>, AllocError>
        ensures needed { IfOk result (λ numbers.
            IsStrictlySortedBy text_cmp (bytes_of self.now.references.items)
            → (n : ℕ) → Contains numbers.items n
            ↔ HasOneDocument self.now (map (λ r. string_bytes r.now) references.now) n) }
        ensures order { IfOk result (λ numbers. IsStrictlySortedBy nat_cmp numbers.items) }
    {
        let holders = holders_of(alloc, &self.texts)?;
        let mut numbers = BTreeSet::new(alloc);
        for reference in references {
            put_number(self.holder_in(&holders, *reference), &mut numbers)?;
        }
        let numbers = numbers.into_iter().collect(alloc)?;
        Ok(numbers)
    }

    /// The number of the piece of the texts that has the document of a reference.
    fn holder_in(&self, holders: &[usize], reference: &String) -> Option<usize>
        requires { holders.now ≡ holders_from 0 self.now.texts.items }
        ensures { IsStrictlySortedBy text_cmp (bytes_of self.now.references.items) → (number : ℕ)
            → (result ≡ Some number)
            ↔ HasDocument self.now number (string_bytes reference.now) }
    {
        match self.references.binary_search(reference) {
            Ok(place) => match holders.get(place) {
                Some(number) => Some(*number),
                None => None,
            },
            Err(_) => None,
        }
    }

    /// The bytes of a piece of the tries.
    pub fn size_of_tries(&self, number: usize) -> Option<usize>
        ensures there { IfSome result (λ size. slice_get self.now.sizes.items number ≡ Some size) }
        ensures size { result ≡ tries_size self.now number }
    {
        if number < self.tries.len() {
            self.sizes.get(number).copied()
        } else {
            None
        }
    }

    /// The bytes of a piece of the texts.
    pub fn size_of_texts(&self, number: usize) -> Option<usize>
        ensures there { IfSome result (λ size.
            slice_get self.now.sizes.items (vec_len self.now.tries + number) ≡ Some size) }
        ensures size { result ≡ texts_size self.now number }
    {
        if number < self.texts.len() {
            let place = self.tries.len().checked_add(number)?;
            self.sizes.get(place).copied()
        } else {
            None
        }
    }

    /// The references of the documents of a piece of the texts.
    pub fn references_in(&self, number: usize) -> Option<&[String]>
        ensures some { IfSome result (λ references. references.now ≡ slice_range
            self.now.references.items (documents_before self.now.texts.items number)
            (documents_before self.now.texts.items (number + 1))) }
        ensures there { IfSome result (λ _. HasDocumentsAt self.now number) }
        ensures none { IfNone result (¬ HasDocumentsAt self.now number) }
    {
        let before = sum_of(self.texts.get(..number)?)?;
        let end = before.checked_add(*self.texts.get(number)?)?;
        self.references.get(before..end)
    }
}

/// The names of the fields, which differ.
fn fields_in(alloc: Global, value: &Value) -> Result<Vec<String>, HeadFault>
    ensures has { IfOk result (λ fields.
        Has (view value.now) (codes "fields") (array_of string (bytes_of fields.items))) }
    ensures differ { IfOk result (λ fields.
        AllPairs (λ name other. name ≢ other) (bytes_of fields.items)) }
    ensures fault { IfErr result (IsOfMember (codes "fields") ((names : List Bytes)
        → Has (view value.now) (codes "fields") (array_of string names)
        → ¬ AllPairs (λ name other. name ≢ other) names)) }
{
    let fields = texts_in(alloc, value, "fields")?;
    if are_different(alloc, &fields)? {
        Ok(fields)
    } else {
        Err(HeadFault::Member("fields"))
    }
}

/// The texts of the array under a key, which rise.
fn rising_in(alloc: Global, value: &Value, key: &'static str) -> Result<Vec<String>, HeadFault>
    ensures has { IfOk result (λ texts.
        Has (view value.now) key.now (array_of string (bytes_of texts.items))) }
    ensures rise { IfOk result (λ texts. IsStrictlySortedBy text_cmp (bytes_of texts.items)) }
    ensures fault { IfErr result (IsOfMember key.now ((texts : List Bytes)
        → Has (view value.now) key.now (array_of string texts)
        → ¬ IsStrictlySortedBy text_cmp texts)) }
{
    let texts = texts_in(alloc, value, key)?;
    if rise(&texts) {
        Ok(texts)
    } else {
        Err(HeadFault::Member(key))
    }
}

/// The bytes of each piece.
fn sizes_in(alloc: Global, value: &Value) -> Result<Vec<usize>, HeadFault>
    ensures has { IfOk result (λ sizes.
        Has (view value.now) (codes "sizes") (array_of count sizes.items)) }
    ensures fault { IfErr result (IsSizesFault (view value.now)) }
{
    if value.get("sizes").is_none() {
        return Err(HeadFault::Older);
    }
    numbers_in(alloc, value, "sizes")
}
