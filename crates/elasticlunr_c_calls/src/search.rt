//! What a search in the flat form finds in the text of an index.
ghost use Rattle.std.specs.Prelude.{◌≡◌, IfErr, IfOk, Err, string_bytes};
ghost use Rattle.elasticlunr_c_calls.specs.Searches.{AreFoundIn, IsAskedBy, IsNoSearch};
ghost use Rattle.elasticlunr_c_calls.specs.Searches.{IsNotSearched, IsSearched, needed_asked};
ghost use Rattle.elasticlunr_c_calls.specs.Searches.{is_memory, refused_line};
ghost use Rattle.elasticlunr_flat.specs.Told.{needed_told, search_told};
ghost use Rattle.elasticlunr_flat.specs.declared.fault.FlatError.TheVariants.{Malformed};

use elasticlunr_flat::{FlatError, Needed, Search, read_search};
use elasticlunr_hits::asked;
use elasticlunr_hits::asked::Asked;
use elasticlunr_hits::in_text::lines_in;
use elasticlunr_hits::lines::LineForm;
use elasticlunr_search::answer::{Refusal, reason};
use std::alloc::{AllocError, Global};
use std::str;

/// How a search ends.
#[derive(Clone, Copy)]
pub enum SearchOutcome {
    /// There are lines of hits, or none where nothing is found.
    Found,
    /// Nothing was searched, for this reason.
    Refused(Refusal),
}

/// Which words are needed.
fn needed_of(needed: Needed) -> asked::Needed
    ensures { needed_asked result ≡ needed_told needed }
{
    match needed {
        Needed::One => asked::Needed::One,
        Needed::EachInOneField => asked::Needed::EachInOneField,
        Needed::Each => asked::Needed::Each,
    }
}

/// What a search asks for.
fn asked_of<'a>(search: Search<'a>) -> Asked<'a>
    ensures { IsAskedBy (search_told search.entry) result }
{
    let limit = if search.limit == 0 {
        None
    } else {
        Some(search.limit as usize)
    };
    Asked {
        query: search.query,
        needed: needed_of(search.needed),
        expand: search.expand,
        fields: search.fields,
        boosts: search.boosts,
        limit,
    }
}

/// The lines of the hits in the text of an index.
fn found_in(alloc: Global, index: &[u8], asked: &Asked<'_>) -> Result<String, Refusal>
    ensures found { IfOk result (λ lines. AreFoundIn index.now asked.now (string_bytes lines)) }
    ensures refused { IfErr result (IsNotSearched index.now asked.now) }
{
    match str::from_utf8(index) {
        Ok(text) => lines_in(alloc, text, asked, LineForm::Json),
        Err(_) => Err(Refusal::NotRead),
    }
}

/// The same text in an allocated block, even if it is empty, since the caller frees the block.
fn in_a_block(alloc: Global, text: String) -> Result<String, AllocError>
    ensures { IfOk result (λ block. string_bytes block ≡ string_bytes text) }
{
    if text.is_empty() {
        String::with_capacity(alloc, 1)
    } else {
        Ok(text)
    }
}

/// Whether memory ran out.
fn is_memory(refusal: Refusal) -> bool
    ensures { result ≡ is_memory refusal }
{
    match refusal {
        Refusal::Memory => true,
        Refusal::NotARequest
        | Refusal::NotRead
        | Refusal::TooDeep
        | Refusal::UnknownLanguage
        | Refusal::OtherPipeline
        | Refusal::NoFields
        | Refusal::NoTries
        | Refusal::NoStore
        | Refusal::NoSuchField => false,
    }
}

/// The line of a refusal.
fn line_of(alloc: Global, refusal: Refusal) -> Result<String, AllocError>
    ensures { IfOk result (λ text. string_bytes text ≡ refused_line refusal) }
{
    let mut text = String::from_str(alloc, "refused: ")?;
    text.push_str(reason(refusal))?;
    text.push('\n')?;
    Ok(text)
}

/// The outcome of a search, and what answers it: a line of JSON for each hit in the text of the
/// index, the best first, or the line of a refusal.
pub fn search_index(
    alloc: Global,
    index: &[u8],
    search: &[u8],
) -> Result<(SearchOutcome, String), FlatError>
    ensures ok { IfOk result (λ a. IsSearched index.now search.now a.0 (string_bytes a.1)) }
    ensures malformed { result ≡ Err Malformed → IsNoSearch search.now }
{
    let search = read_search(alloc, search)?;
    match found_in(alloc, index, &asked_of(search)) {
        Ok(lines) => {
            let lines = in_a_block(alloc, lines)?;
            Ok((SearchOutcome::Found, lines))
        }
        Err(refusal) => {
            if is_memory(refusal) {
                return Err(FlatError::Memory);
            }
            let line = line_of(alloc, refusal)?;
            Ok((SearchOutcome::Refused(refusal), line))
        }
    }
}
