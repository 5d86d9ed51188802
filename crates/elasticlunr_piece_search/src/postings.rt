//! The pieces of the tries: tokens with their postings in each field.
ghost use Rattle.std.specs.Prelude.{◌≡◌, ◌<◌, ℕ, List, IfErr, IfOk, OnOk, length, slice_index_or};
ghost use Rattle.std.specs.Prelude.{[], ◌∷◌, ◌≢◌, true, false, option_map};
ghost use Rattle.elasticlunr_error.specs.Text.{Bytes, bytes_of};
ghost use Rattle.elasticlunr_json.specs.Maps.{count, members};
ghost use Rattle.elasticlunr_piece_head.specs.Values.{array_of, items_of};
ghost use Rattle.elasticlunr_trie.specs.Table.{Table, IsChanged, add};
ghost use Rattle.std.specs.List.{AllByRecursion};
ghost use Rattle.std.specs.Str.{chars};
ghost use Rattle.elasticlunr_piece_search.specs.Entries.{AreEntriesAdded, AreNumbers, AreTokensFrom};
ghost use Rattle.elasticlunr_piece_search.specs.Entries.{Entry, HasLists, IsBelow, IsEntryAdded};
ghost use Rattle.elasticlunr_piece_search.specs.Entries.{IsListAdded, Numbered, list_value, tokens_in};
ghost use Rattle.elasticlunr_piece_search.specs.Faults.{IsOther};
ghost use Rattle.elasticlunr_piece_search.specs.declared.fault.PieceFault.TheVariants.{Memory};
ghost use Rattle.serde_json.specs.View.{items_view, members_view, view};

use crate::fault::PieceFault;
use elasticlunr_trie::InvertedIndex;
use serde_json::{Map, Value};

/// Whether the first token of a piece is this one, and all are below the first one of the next
/// piece.
pub(crate) fn has_tokens_of(piece: &Map<String, Value>, first: &str, next: Option<&str>) -> bool
    ensures yes { result ≡ true → AreTokensFrom first.now (option_map (λ n. n.now) next.entry)
        (tokens_in piece.now.entries) }
    ensures no { result ≡ false → AreTokensFrom first.now (option_map (λ n. n.now) next.entry)
        (tokens_in piece.now.entries) → ⊥ }
{
    begins_with(piece, first) && are_below(piece, next)
}

/// Whether the first token of a piece is this one.
fn begins_with(piece: &Map<String, Value>, first: &str) -> bool
    ensures yes { result ≡ true → (rest : List Bytes)
        × (tokens_in piece.now.entries ≡ first.now ∷ rest) }
    ensures no { result ≡ false → (rest : List Bytes)
        → tokens_in piece.now.entries ≢ first.now ∷ rest }
{
    match piece.iter().next() {
        Some((token, _)) => token.as_str() == first,
        None => false,
    }
}

/// Whether the tokens of a piece are below the first one of the next piece.
fn are_below(piece: &Map<String, Value>, next: Option<&str>) -> bool
    ensures yes { result ≡ true → AllByRecursion (IsBelow (option_map (λ n. n.now) next.entry))
        (tokens_in piece.now.entries) }
    ensures no { result ≡ false → AllByRecursion (IsBelow (option_map (λ n. n.now) next.entry))
        (tokens_in piece.now.entries) → ⊥ }
{
    let Some(limit) = next else {
        return true;
    };
    for (token, _) in piece.iter() {
        if token.as_str() >= limit {
            return false;
        }
    }
    true
}

/// Adds the postings of the tokens of a piece.
pub(crate) fn add_entries(
    tries: &mut [InvertedIndex],
    references: &[String],
    piece: &Map<String, Value>,
) -> Result<(), PieceFault>
    ensures added { OnOk result ((entries : List Entry)
        × (members_view piece.now.entries ≡ members (array_of list_value) entries)
        × AreEntriesAdded (bytes_of references.now) entries tries.old tries.new) }
    ensures many { length tries.new ≡ length tries.old }
    ensures err { IfErr result (IsOther ((entries : List Entry)
        → AllByRecursion (HasLists (length (bytes_of references.now)) (length tries.old)) entries
        → members_view piece.now.entries ≡ members (array_of list_value) entries → ⊥)) }
{
    for (token, fields) in piece.iter() {
        add_fields(tries, references, token.as_str(), fields)?;
    }
    Ok(())
}

/// Adds the postings of a token, in each field, to the field's trie.
fn add_fields(
    tries: &mut [InvertedIndex],
    references: &[String],
    token: &str,
    fields: &Value,
) -> Result<(), PieceFault>
    ensures added { OnOk result ((lists : List Numbered)
        × (view fields.now ≡ array_of list_value lists)
        × IsEntryAdded (bytes_of references.now) (token.now, lists) tries.old tries.new) }
    ensures err { IfErr result (IsOther ((lists : List Numbered) → length lists ≡ length tries.old
        → AllByRecursion (AreNumbers (length (bytes_of references.now))) lists
        → view fields.now ≡ array_of list_value lists → ⊥)) }
{
    let Some(lists) = fields.as_array() else {
        return Err(PieceFault::Other);
    };
    if lists.len() != tries.len() {
        return Err(PieceFault::Other);
    }
    add_lists(tries, references, token, lists)
}

/// Adds the postings of a token, a list for each trie.
fn add_lists(
    tries: &mut [InvertedIndex],
    references: &[String],
    token: &str,
    values: &[Value],
) -> Result<(), PieceFault>
    requires { length values.now ≡ length tries.old }
    ensures added { OnOk result ((lists : List Numbered)
        × (items_view values.now ≡ items_of list_value lists)
        × IsEntryAdded (bytes_of references.now) (token.now, lists) tries.old tries.new) }
    ensures err { IfErr result (IsOther ((lists : List Numbered)
        → AllByRecursion (AreNumbers (length (bytes_of references.now))) lists
        → items_view values.now ≡ items_of list_value lists → ⊥)) }
{
    for place in 0..tries.len() {
        add_postings(&mut tries[place], references, token, &values[place])?;
    }
    Ok(())
}

/// Adds postings: the number of a reference and a frequency in turn.
fn add_postings(
    trie: &mut InvertedIndex,
    references: &[String],
    token: &str,
    list: &Value,
) -> Result<(), PieceFault>
    ensures added { OnOk result ((ps : Numbered) × (view list.now ≡ list_value ps)
        × IsListAdded (bytes_of references.now) token.now ps trie.old trie.new) }
    ensures err { IfErr result (IsOther ((ps : Numbered)
        → AreNumbers (length (bytes_of references.now)) ps → view list.now ≡ list_value ps → ⊥)) }
{
    let Some(items) = list.as_array() else {
        return Err(PieceFault::Other);
    };
    let mut rest = items.as_slice();
    'postings: while let Some((number, more)) = rest.split_first() {
        let Some((frequency, more)) = more.split_first() else {
            return Err(PieceFault::Other);
        };
        let (reference, frequency) = posting_of(references, number, frequency)?;
        add_posting(trie, reference, token, frequency)?;
        rest = more;
    }
    Ok(())
}

/// The reference that a number names, and a frequency.
fn posting_of<'r>(
    references: &'r [String],
    number: &Value,
    frequency: &Value,
) -> Result<(&'r str, u64), PieceFault>
    ensures posting { IfOk result (λ posting. (n : ℕ) × (n < length (bytes_of references.now))
        × (view number.now ≡ count n) × (view frequency.now ≡ count posting.1)
        × (posting.0.now ≡ slice_index_or (bytes_of references.now) n [])) }
    ensures err { IfErr result (IsOther ((n f : ℕ) → n < length (bytes_of references.now)
        → view number.now ≡ count n → view frequency.now ≡ count f → ⊥)) }
{
    let Some(number) = number.as_u64() else {
        return Err(PieceFault::Other);
    };
    let Some(frequency) = frequency.as_u64() else {
        return Err(PieceFault::Other);
    };
    match references.get(number as usize) {
        Some(reference) => Ok((reference.as_str(), frequency)),
        None => Err(PieceFault::Other),
    }
}

/// Adds the posting of a reference.
fn add_posting(
    trie: &mut InvertedIndex,
    reference: &str,
    token: &str,
    frequency: u64,
) -> Result<(), PieceFault>
    ensures added { OnOk result (IsChanged (add (chars token.now) reference.now frequency) trie.old
        trie.new) }
    ensures err { IfErr result (λ e. e ≡ Memory) }
{
    match trie.add_token(reference, token, frequency) {
        Ok(()) => Ok(()),
        Err(_) => Err(PieceFault::Memory),
    }
}
