//! What is found for a text that has a request and an index, and in the text of an index.
ghost use Rattle.std.specs.Prelude.{◌≡◌, ◌⊎◌, Some, None, IfOk, IfErr, IfSome, codes, option_map};
ghost use Rattle.std.specs.Prelude.{string_bytes};
ghost use Rattle.elasticlunr_text.specs.Text.{bytes_of};
ghost use Rattle.elasticlunr_lang.specs.Known.{language_name};
ghost use Rattle.elasticlunr_search.specs.Answers.{AreFoundOf, AreLinesFound, IsFoundBelow};
ghost use Rattle.elasticlunr_search.specs.Lines.{lines};
ghost use Rattle.elasticlunr_search.specs.Readers.{ReadsAs};
ghost use Rattle.elasticlunr_search.specs.Source.{IsSource};
ghost use Rattle.elasticlunr_search.specs.Unanswered.{IsNotSearched, IsRefusedBelow};
ghost use Rattle.elasticlunr_search.specs.Unanswered.{IsTextNotSearched, NamesNone, refusal_text};
ghost use Rattle.elasticlunr_search.specs.declared.answer.Refusal.TheVariants.{NotARequest};
ghost use Rattle.elasticlunr_search.specs.declared.answer.Refusal.TheVariants.{UnknownLanguage};
ghost use Rattle.elasticlunr_search.specs.declared.answer.Refusal.TheVariants.{Memory};
ghost use Rattle.serde_json.specs.Data.{Data, string};
ghost use Rattle.serde_json.specs.Find.{get};
ghost use Rattle.serde_json.specs.Read.{read};
ghost use Rattle.serde_json.specs.View.{view};

use crate::error::SearchError;
use crate::request::{Request, request_of};
use crate::searcher::Searcher;
use crate::source::Source;
use crate::words::Join;
use elasticlunr::laws::values::printed_texts_have_their_parts;
use elasticlunr_lang::{AnyLanguage, Language, from_name};
use serde_json::Value;
use std::alloc::{AllocError, AllocFailed, Global};

/// Why nothing was searched.
#[derive(Clone, Copy)]
pub enum Refusal {
    NotARequest,
    NotRead,
    TooDeep,
    UnknownLanguage,
    OtherPipeline,
    NoFields,
    NoTries,
    NoStore,
    NoSuchField,
    Memory,
}

impl From<AllocError> for Refusal {
    ghost use Rattle.elasticlunr_search.specs.declared.answer.Refusal.TheVariants.{Memory};
    ghost use Rattle.std.specs.Prelude.{◌≡◌};

    ghost from_gives = { λ _ e. e ≡ Memory };

    fn from(_refused: AllocError) -> Refusal {
        Refusal::Memory
    }
}

impl<T: Drop> From<AllocFailed<T>> for Refusal {
    ghost use Rattle.elasticlunr_search.specs.declared.answer.Refusal.TheVariants.{Memory};
    ghost use Rattle.std.specs.Prelude.{◌≡◌};

    ghost from_gives = { λ _ e. e ≡ Memory };

    fn from(_refused: AllocFailed<T>) -> Refusal {
        Refusal::Memory
    }
}

impl From<SearchError> for Refusal {
    ghost use Rattle.elasticlunr_search.specs.Unanswered.{refusal_of};
    ghost use Rattle.std.specs.Prelude.{◌≡◌};

    ghost from_gives = { λ error e. e ≡ refusal_of error };

    fn from(error: SearchError) -> Refusal {
        match error {
            SearchError::NotRead => Refusal::NotRead,
            SearchError::TooDeep => Refusal::TooDeep,
            SearchError::OtherLanguage => Refusal::UnknownLanguage,
            SearchError::OtherPipeline => Refusal::OtherPipeline,
            SearchError::BadFields => Refusal::NoFields,
            SearchError::BadTries => Refusal::NoTries,
            SearchError::BadStore => Refusal::NoStore,
            SearchError::NoSuchField => Refusal::NoSuchField,
            SearchError::Memory => Refusal::Memory,
        }
    }
}

/// The words of a refusal.
pub fn reason(refusal: Refusal) -> &'static str
    ensures { result.now ≡ refusal_text refusal }
{
    match refusal {
        Refusal::NotARequest => "not a request",
        Refusal::NotRead => "not JSON",
        Refusal::TooDeep => "nested deeper than 127 levels",
        Refusal::UnknownLanguage => "unknown language",
        Refusal::OtherPipeline => "other stages than its language has",
        Refusal::NoFields => "no fields",
        Refusal::NoTries => "no trie of a field",
        Refusal::NoStore => "no document store",
        Refusal::NoSuchField => "no such field",
        Refusal::Memory => "out of memory",
    }
}

/// The lines of the references that are found: of a text whose first line is a request, with the
/// text of an index below it.
pub fn answer(alloc: Global, input: &str) -> Result<String, Refusal>
    ensures found { IfOk result (λ text. IsFoundBelow input.now (string_bytes text)) }
    ensures refused { IfErr result (IsRefusedBelow input.now) }
{
    let Some((line, text)) = input.split_once('\n') else {
        return Err(Refusal::NotARequest);
    };
    let line = json(alloc, line)?;
    let Some(request) = request_of(&line) else {
        return Err(Refusal::NotARequest);
    };
    let source = Source::of_text(alloc, text)?;
    let found = find_in(alloc, &request, source)?;
    Ok(lines_of(alloc, &found)?)
}

/// The value of a line.
fn json(alloc: Global, line: &str) -> Result<Value, Refusal>
    ensures ok { IfOk result (λ value. read line.now ≡ Some (view value)) }
    ensures err { IfErr result (λ e. (e ≡ Memory) ⊎ ((e ≡ NotARequest) × (read line.now ≡ None))) }
{
    match Value::from_str(alloc, line) {
        Ok(value) => Ok(value),
        Err(e) if e.is_memory() => Err(Refusal::Memory),
        Err(_) => Err(Refusal::NotARequest),
    }
}

/// The references that are found in an index, by the language that it names.
fn find_in(alloc: Global, request: &Request<'_>, source: Source) -> Result<Vec<String>, Refusal>
    ensures found { IfOk result (λ found. (v : Data) → IsSource source v
        → AreFoundOf v request.now (bytes_of found.items)) }
    ensures refused { IfErr result (λ e. (v : Data) → IsSource source v
        → IsNotSearched v (Some request.now.field.now) e) }
{
    printed_texts_have_their_parts();
    let language = language_of(&source)?;
    let searcher = Searcher::from_source(alloc, language, source)?;
    let found = searcher.find(request.join, request.field, request.query)?;
    Ok(found)
}

/// The lines of the references that are found in the text of an index, by the language that it
/// names: that have one of the query's tokens, or each, in the field of this name, or else in one
/// or more of all.
pub fn lines_found(
    alloc: Global,
    text: &str,
    join: Join,
    field: Option<&str>,
    query: &str,
) -> Result<String, Refusal>
    ensures found { IfOk result (λ lines. (v : Data) × ReadsAs text.now v
        × AreLinesFound v join (option_map (λ f. f.now) field.entry) query.now
        (string_bytes lines)) }
    ensures refused { IfErr result (IsTextNotSearched text.now
        (option_map (λ f. f.now) field.entry)) }
{
    printed_texts_have_their_parts();
    let source = Source::of_text(alloc, text)?;
    let language = language_of(&source)?;
    let searcher = Searcher::from_source(alloc, language, source)?;
    let found = searcher.find_within(join, field, query)?;
    Ok(lines_of(alloc, &found)?)
}

/// The language that an index names.
pub(crate) fn language_of(source: &Source) -> Result<AnyLanguage, Refusal>
    ensures named { IfOk result (λ language. (v : Data) → IsSource source.now v
        → get (codes "lang") v ≡ Some (string (language_name language))) }
    ensures none { IfErr result (λ e. (e ≡ UnknownLanguage)
        × ((v : Data) → IsSource source.now v → NamesNone v)) }
{
    let Some(name) = source.language() else {
        return Err(Refusal::UnknownLanguage);
    };
    match from_name(name) {
        Some(language) => Ok(language),
        None => Err(Refusal::UnknownLanguage),
    }
}

/// Each reference, with a line feed after it.
fn lines_of(alloc: Global, references: &[String]) -> Result<String, AllocError>
    ensures { IfOk result (λ text. string_bytes text ≡ lines (bytes_of references.now)) }
{
    let mut text = String::new(alloc);
    for reference in references {
        text.push_str(reference.as_str())?;
        text.push('\n')?;
    }
    Ok(text)
}
