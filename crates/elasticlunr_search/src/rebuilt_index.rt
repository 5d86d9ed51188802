//! The parts of a printed index, rebuilt from its text and judged by printing them.
ghost use Rattle.std.specs.Prelude.{◌≡◌, ◌<◌, true, All, IfOk, IfSome, length, vec_len};
ghost use Rattle.elasticlunr_text.specs.Text.{bytes_of};
ghost use Rattle.elasticlunr_commands.specs.Fields.{all_differ as differ};
ghost use Rattle.elasticlunr_json.specs.Tokens.{IsSmallToken};
ghost use Rattle.elasticlunr_print.specs.Parts.{IsPrinted};
ghost use Rattle.elasticlunr_store.specs.Contents.{IsConsistent};
ghost use Rattle.elasticlunr_search.specs.RebuiltIndex.{IsRebuilt};
ghost use Rattle.json.specs.Lex.{tokens};
ghost use Rattle.json.specs.Tree.{json_tokens};
ghost use Rattle.serde_json.specs.Data.{Data};
ghost use Rattle.serde_json.specs.Written.{outline};

use crate::error::SearchError;
use crate::printed::Printed;
use crate::rebuild::{Rebuilt, rebuild};
use crate::same_text::SameText;
use crate::searcher::place_of;
use elasticlunr_print::{Parts, write_index};
use elasticlunr_trie::InvertedIndex;
use json::{Reader, Scratch};
use std::alloc::{AllocError, Global};

/// How many fields are looked for one by one.
const MANY_FIELDS: usize = 1_000;

/// The parts of an index, and the names of its language and its stages.
#[derive(Drop)]
pub(crate) struct RebuiltIndex {
    pub language: String,
    pub stages: Vec<String>,
    pub printed: Printed,
}

/// The parts of the index that the text is printed of, in any layout and at any depth. `None` where
/// the text has other tokens than an index is printed with, and where there are many fields.
pub(crate) fn rebuild_and_compare(
    alloc: Global,
    text: &str,
) -> Result<Option<RebuiltIndex>, AllocError>
    ensures { IfOk result (λ o. IfSome o (IsRebuilt text.now)) }
{
    let mut scratch = Scratch::new(alloc);
    match rebuilt_of(alloc, text, &mut scratch) {
        Ok(rebuilt) => judged(alloc, text, &mut scratch, rebuilt),
        Err(SearchError::Memory) => Err(AllocError),
        Err(_) => Ok(None),
    }
}

/// What the text has, as it seems.
fn rebuilt_of(alloc: Global, text: &str, scratch: &mut Scratch) -> Result<Rebuilt, SearchError>
    ensures { IfOk result (λ r. IsConsistent r.store) }
{
    let mut reader = Reader::new(text, scratch)?;
    rebuild(alloc, text, &mut reader)
}

/// What was rebuilt, if the text is printed of it.
fn judged(
    alloc: Global,
    text: &str,
    scratch: &mut Scratch,
    rebuilt: Rebuilt,
) -> Result<Option<RebuiltIndex>, AllocError>
    requires { IsConsistent rebuilt.store }
    ensures { IfOk result (λ o. IfSome o (IsRebuilt text.now)) }
{
    let Rebuilt {
        fields,
        ref_field,
        language,
        stages,
        tries,
        store,
    } = rebuilt;
    if !all_differ(&fields) {
        return Ok(None);
    }
    let Some(tries) = in_order(alloc, &fields, tries)? else {
        return Ok(None);
    };
    let parts = Parts {
        fields: &fields,
        ref_field: ref_field.as_str(),
        language: language.as_str(),
        stages: &stages,
        tries: &tries,
        store: &store,
    };
    if !is_text_of(alloc, parts, text, scratch)? {
        return Ok(None);
    }
    Ok(Some(RebuiltIndex {
        language,
        stages,
        printed: Printed {
            fields,
            tries,
            store,
        },
    }))
}

/// Whether the names are few, and no two of them the same.
fn all_differ(names: &[String]) -> bool
    ensures { result ≡ true → differ (bytes_of names.now) ≡ true }
{
    if names.len() > MANY_FIELDS {
        return false;
    }
    let mut rest = names;
    'names: while let Some((first, others)) = rest.split_first() {
        if place_of(others, first.as_str()).is_some() {
            return false;
        }
        rest = others;
    }
    true
}

/// The tries in the order of the fields, if there are as many. More tries are not looked through:
/// the text is not printed of these fields.
fn in_order(
    alloc: Global,
    fields: &[String],
    mut named: Vec<(String, InvertedIndex)>,
) -> Result<Option<Vec<InvertedIndex>>, AllocError>
    ensures { IfOk result (λ o. IfSome o (λ tries. vec_len tries ≡ length fields.now)) }
{
    if named.len() != fields.len() {
        return Ok(None);
    }
    let mut tries = Vec::new(alloc);
    for field in fields {
        let Some(place) = place_among(&named, field.as_str()) else {
            return Ok(None);
        };
        tries.push(named.swap_remove(place).1)?;
    }
    Ok(Some(tries))
}

/// Where the trie of this name stands.
fn place_among(named: &[(String, InvertedIndex)], name: &str) -> Option<usize>
    ensures { IfSome result (λ i. i < length named.now) }
{
    for (i, other) in named.iter().enumerate() {
        if other.0.as_str() == name {
            return Some(i);
        }
    }
    None
}

/// Whether the tokens of the text are those that an index with these parts is printed with.
fn is_text_of(
    alloc: Global,
    parts: Parts<'_>,
    text: &str,
    scratch: &mut Scratch,
) -> Result<bool, AllocError>
    ensures { IfOk result (λ is. is ≡ true → (v : Data) × IsPrinted parts.entry v
        × (tokens text.now ≡ json_tokens (outline v)) × All IsSmallToken (tokens text.now)) }
{
    let mut out = SameText::new(text, scratch)?;
    match write_index(alloc, parts, &mut out) {
        Ok(()) => Ok(out.is_all_of(text)),
        Err(_) if out.differs() => Ok(false),
        Err(refused) => Err(refused),
    }
}
