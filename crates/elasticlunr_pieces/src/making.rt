//! The pieces of an index, one after the other, and its head.
ghost use Rattle.std.specs.Prelude.{◌≡◌, ◌<◌, ◌≤◌, ◌++◌, List, [], vec_len, IfOk, OnOk};
ghost use Rattle.std.specs.Prelude.{OnErr, OnSome, IfNone, IsOkUnless, slice_get};
ghost use Rattle.std.specs.Option.{option_to_list};
ghost use Rattle.elasticlunr_error.specs.Text.{Bytes, bytes_of};
ghost use Rattle.elasticlunr_error.specs.declared.error.IndexError.TheVariants.{Memory};
ghost use Rattle.elasticlunr_store.specs.Contents.{TextMap};
ghost use Rattle.elasticlunr_pieces.specs.Numbers.{told_texts, texts_at};
ghost use Rattle.elasticlunr_pieces.specs.Pieces.{ArePieces, entries_left, HasMade, IsHead, IsNext};
ghost use Rattle.elasticlunr_pieces.specs.Pieces.{MakesTexts, MakesTitles, MakesTries};

use crate::cut::Form;
use crate::documents::{documents_of, references_of};
use crate::folder::folder_name;
use crate::head_value::{Places, head_text};
use crate::numbers::Numbers;
use crate::progress::{Progress, next_of};
use crate::texts::DocumentEntries;
use crate::titles::{TitleEntries, titles_of};
use crate::tokens::tokens_of;
use crate::tries::TokenEntries;
use elasticlunr_error::IndexError;
use elasticlunr_print::Parts;
use sha2::{Digest, Sha256};
use std::alloc::{AllocError, Global};
use std::collections::BTreeMap;

/// A file of the folder: its name, as `t0.json` or `d0.json`, and its text.
#[derive(Drop)]
pub struct Piece {
    pub name: String,
    pub text: String,
}

/// The text of the head, and the name of the folder of the pieces.
#[derive(Drop)]
pub struct Head {
    pub folder: String,
    pub text: String,
}

/// Makes the pieces of an index, one after the other: first those of the tries, then those of the
/// texts, and then those of the titles.
///
/// It borrows the index. It has a copy of each token, and for each reference up to 272 bytes, 8 for
/// its document and 16 for its title. Of the pieces it has where each begins, and the text of one
/// entry at most. A posting takes a look-up of its reference by a hash, and where that does not find
/// it a binary search.
#[derive(Drop)]
pub struct Pieces<'a> {
    alloc: Global,
    parts: Parts<'a>,
    field: &'a str,
    size: usize,
    numbers: Numbers<'a>,
    tokens: Vec<String>,
    documents: Vec<&'a BTreeMap<String, String>>,
    headings: Vec<&'a str>,
    tries: Progress,
    texts: Progress,
    titles: Progress,
    hasher: Sha256,
}

impl<'a> Pieces<'a> {
    /// The pieces of what is printed of an index, with the titles that are in a field. A piece of
    /// the tries has at most so many bytes, one of the texts an eighth of them, and one of the
    /// titles a 32nd, unless it has one entry alone.
    pub fn new(
        alloc: Global,
        parts: Parts<'a>,
        field: &'a str,
        size: usize,
    ) -> Result<Pieces<'a>, IndexError>
        ensures made { IfOk result (λ pieces. HasMade pieces [] [] []) }
        ensures parts { IfOk result (λ pieces. pieces.parts ≡ parts.entry) }
        ensures size { IfOk result (λ pieces. pieces.size ≡ size) }
        ensures field { IfOk result (λ pieces. pieces.field ≡ field.entry) }
        ensures memory { IsOkUnless result Memory }
    {
        let references = references_of(alloc, parts.store)?;
        let numbers = Numbers::new(alloc, references)?;
        let tokens = tokens_of(alloc, parts.tries)?;
        let documents = documents_of(alloc, parts.store)?;
        let headings = titles_of(alloc, parts.fields, field, &documents)?;
        Ok(Pieces {
            alloc,
            parts,
            field,
            size,
            numbers,
            tokens,
            documents,
            headings,
            tries: Progress::new(alloc),
            texts: Progress::new(alloc),
            titles: Progress::new(alloc),
            hasher: Sha256::new(),
        })
    }

    /// The next piece, `None` once all were made. Each takes at least one of the entries that are
    /// left, so a loop over the pieces comes to an end. Where memory is refused, nothing has changed
    /// that a later call shows.
    pub fn next_piece(&mut self) -> Result<Option<Piece>, IndexError>
        ensures next { IfOk result (λ piece. (tries : List (List Bytes))
            (texts : List (List TextMap)) (titles : List (List Bytes))
            → HasMade self.old tries texts titles
            → IsNext self.old self.new tries texts titles piece) }
        ensures parts { self.new.parts ≡ self.old.parts }
        ensures size { self.new.size ≡ self.old.size }
        ensures field { self.new.field ≡ self.old.field }
        ensures err { OnErr result ((tries : List (List Bytes)) (texts : List (List TextMap))
            (titles : List (List Bytes)) → HasMade self.old tries texts titles
            → HasMade self.new tries texts titles) }
        ensures fewer { IfOk result (λ piece. OnSome piece
            (entries_left self.new < entries_left self.old)) }
        ensures none { IfOk result (λ piece. IfNone piece (entries_left self.new ≡ 0)) }
        ensures left { OnErr result (entries_left self.new ≡ entries_left self.old) }
        ensures memory { IsOkUnless result Memory }
    {
        if self.tries.next < self.tokens.len() {
            return Ok(Some(self.next_of_tries()?));
        }
        if self.texts.next < self.documents.len() {
            return Ok(Some(self.next_of_texts()?));
        }
        if self.titles.next < self.headings.len() {
            return Ok(Some(self.next_of_titles()?));
        }
        Ok(None)
    }

    // The next piece of the tries.
    fn next_of_tries(&mut self) -> Result<Piece, AllocError>
        requires { self.old.tries.next < vec_len self.old.tokens }
        ensures made { IfOk result (λ piece. (tries : List (List Bytes))
            (texts : List (List TextMap)) (titles : List (List Bytes))
            → HasMade self.old tries texts titles
            → MakesTries self.old self.new tries texts titles piece) }
        ensures parts { self.new.parts ≡ self.old.parts }
        ensures size { self.new.size ≡ self.old.size }
        ensures field { self.new.field ≡ self.old.field }
        ensures err { OnErr result ((tries : List (List Bytes)) (texts : List (List TextMap))
            (titles : List (List Bytes)) → HasMade self.old tries texts titles
            → HasMade self.new tries texts titles) }
        ensures fewer { OnOk result (entries_left self.new < entries_left self.old) }
        ensures left { OnErr result (entries_left self.new ≡ entries_left self.old) }
    {
        let entries = TokenEntries {
            alloc: self.alloc,
            tokens: &self.tokens,
            tries: self.parts.tries,
            numbers: &self.numbers,
        };
        let form = Form {
            opening: "{",
            closing: "}",
            size: self.size,
        };
        let piece = next_of(self.alloc, &entries, &mut self.tries, form, "t")?;
        self.hasher.update(piece.text.as_str());
        Ok(piece)
    }

    // The next piece of the texts.
    fn next_of_texts(&mut self) -> Result<Piece, AllocError>
        requires tries { vec_len self.old.tokens ≤ self.old.tries.next }
        requires there { self.old.texts.next < vec_len self.old.documents }
        ensures made { IfOk result (λ piece. (tries : List (List Bytes))
            (texts : List (List TextMap)) (titles : List (List Bytes))
            → HasMade self.old tries texts titles
            → MakesTexts self.old self.new tries texts titles piece) }
        ensures parts { self.new.parts ≡ self.old.parts }
        ensures size { self.new.size ≡ self.old.size }
        ensures field { self.new.field ≡ self.old.field }
        ensures err { OnErr result ((tries : List (List Bytes)) (texts : List (List TextMap))
            (titles : List (List Bytes)) → HasMade self.old tries texts titles
            → HasMade self.new tries texts titles) }
        ensures fewer { OnOk result (entries_left self.new < entries_left self.old) }
        ensures left { OnErr result (entries_left self.new ≡ entries_left self.old) }
    {
        let entries = DocumentEntries {
            alloc: self.alloc,
            documents: &self.documents,
        };
        let form = Form {
            opening: "[",
            closing: "]",
            size: self.size / 8,
        };
        let piece = next_of(self.alloc, &entries, &mut self.texts, form, "d")?;
        self.hasher.update(piece.text.as_str());
        Ok(piece)
    }

    // The next piece of the titles.
    fn next_of_titles(&mut self) -> Result<Piece, AllocError>
        requires tries { vec_len self.old.tokens ≤ self.old.tries.next }
        requires texts { vec_len self.old.documents ≤ self.old.texts.next }
        requires there { self.old.titles.next < vec_len self.old.headings }
        ensures made { IfOk result (λ piece. (tries : List (List Bytes))
            (texts : List (List TextMap)) (titles : List (List Bytes))
            → HasMade self.old tries texts titles
            → MakesTitles self.old self.new tries texts titles piece) }
        ensures parts { self.new.parts ≡ self.old.parts }
        ensures size { self.new.size ≡ self.old.size }
        ensures field { self.new.field ≡ self.old.field }
        ensures err { OnErr result ((tries : List (List Bytes)) (texts : List (List TextMap))
            (titles : List (List Bytes)) → HasMade self.old tries texts titles
            → HasMade self.new tries texts titles) }
        ensures fewer { OnOk result (entries_left self.new < entries_left self.old) }
        ensures left { OnErr result (entries_left self.new ≡ entries_left self.old) }
    {
        let entries = TitleEntries {
            alloc: self.alloc,
            titles: &self.headings,
        };
        let form = Form {
            opening: "[",
            closing: "]",
            size: self.size / 32,
        };
        let piece = next_of(self.alloc, &entries, &mut self.titles, form, "h")?;
        self.hasher.update(piece.text.as_str());
        Ok(piece)
    }

    /// The head of the pieces that were made: of all pieces of the index, once no entries are left.
    pub fn head(self) -> Result<Head, IndexError>
        ensures head { IfOk result (λ head. (tries : List (List Bytes))
            (texts : List (List TextMap)) (titles : List (List Bytes))
            → HasMade self.entry tries texts titles
            → IsHead self.entry.parts self.entry.field.now tries texts titles head) }
        ensures all { IfOk result (λ _. entries_left self.entry ≡ 0 → (tries : List (List Bytes))
            (texts : List (List TextMap)) (titles : List (List Bytes))
            → HasMade self.entry tries texts titles → ArePieces self.entry.parts
            self.entry.field.now self.entry.size tries texts titles) }
        ensures memory { IsOkUnless result Memory }
    {
        let Pieces {
            alloc,
            parts,
            field,
            numbers,
            tokens,
            tries,
            texts,
            titles,
            hasher,
            ..
        } = self;
        let folder = folder_name(alloc, hasher)?;
        let firsts = tokens_at(alloc, &tokens, &tries.starts)?;
        let sizes = all_sizes(alloc, &tries.sizes, &texts.sizes, &titles.sizes)?;
        let places = Places {
            folder: &folder,
            tries: &firsts,
            texts: &texts.counts,
            titles: &titles.counts,
            sizes: &sizes,
            title: field,
        };
        let text = head_text(alloc, parts, numbers.references(), places)?;
        Ok(Head { folder, text })
    }
}

// The sizes of all pieces.
fn all_sizes(
    alloc: Global,
    tries: &[usize],
    texts: &[usize],
    titles: &[usize],
) -> Result<Vec<usize>, AllocError>
    ensures { IfOk result (λ sizes. sizes.items ≡ (tries.now ++ texts.now) ++ titles.now) }
{
    let mut sizes = Vec::from_slice(alloc, tries)?;
    sizes.extend_from_slice(texts)?;
    sizes.extend_from_slice(titles)?;
    Ok(sizes)
}

// The tokens that are there at these places.
fn tokens_at<'a>(
    alloc: Global,
    tokens: &'a [String],
    places: &[usize],
) -> Result<Vec<&'a str>, AllocError>
    ensures { IfOk result (λ found. told_texts found.items
        ≡ texts_at (bytes_of tokens.now) places.now) }
{
    let mut found = Vec::with_capacity(alloc, places.len())?;
    for place in places {
        push_token(tokens, *place, &mut found)?;
    }
    Ok(found)
}

// Pushes the token that is there at a place.
fn push_token<'a>(
    tokens: &'a [String],
    place: usize,
    found: &mut Vec<&'a str>,
) -> Result<(), AllocError>
    ensures { OnOk result (told_texts found.new.items ≡ told_texts found.old.items
        ++ option_to_list (slice_get (bytes_of tokens.now) place)) }
{
    if place >= tokens.len() {
        return Ok(());
    }
    found.push(tokens[place].as_str())?;
    Ok(())
}
