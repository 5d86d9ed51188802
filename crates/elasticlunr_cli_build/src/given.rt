//! What the command line says of an index.
ghost use Rattle.std.specs.Prelude.{◌≡◌, map, option_map, string_bytes, IfOk};
ghost use Rattle.elasticlunr_cli_build.specs.Words.{AreSettings, names_in, rules_in};
ghost use Rattle.elasticlunr_input.specs.Settled.{own_rules, settings_told};
ghost use Rattle.elasticlunr_text.specs.Text.{bytes_of};

use clap::ArgMatches;
use elasticlunr_input::settings::{Rules, Settings};
use std::alloc::{AllocError, Global};

/// What the words say, but for the language, which has been looked up, and for the characters of a
/// word, which have been read as a number.
pub fn settings_given(
    alloc: Global,
    given: &ArgMatches<'_>,
    language: Option<String>,
    longest: Option<usize>,
) -> Result<Settings, AllocError>
    ensures { IfOk result (λ settings. AreSettings given.now (option_map string_bytes language)
        longest (settings_told settings)) }
{
    let stored = owned_names(alloc, given.get_str("store"))?;
    Ok(Settings {
        reference: owned(alloc, given.get_str("ref"))?,
        fields: owned_names(alloc, given.get_str("fields"))?,
        language,
        drops_texts: given.get_flag("no-save"),
        pretty: given.get_flag("pretty"),
        rules: rules_given(alloc, stored, longest, given.get_flag("stems")),
        indexes_reference: given.get_flag("index-ref"),
    })
}

/// The rules of these, where one of them is given.
fn rules_given(
    alloc: Global,
    stored: Option<Vec<String>>,
    longest: Option<usize>,
    stems: bool,
) -> Option<Rules>
    ensures { own_rules result
        ≡ rules_in (option_map (λ names. bytes_of names.items) stored) longest stems }
{
    match (stored, longest) {
        (Some(stored), longest) => Some(Rules {
            stored,
            longest,
            stems,
        }),
        (None, None) if !stems => None,
        (None, longest) => Some(Rules {
            stored: Vec::new(alloc),
            longest,
            stems,
        }),
    }
}

/// A copy of a text.
fn owned(alloc: Global, text: Option<&str>) -> Result<Option<String>, AllocError>
    ensures { IfOk result (λ copy. option_map string_bytes copy
        ≡ option_map (λ s. s.now) text.entry) }
{
    match text {
        Some(text) => Ok(Some(String::from_str(alloc, text)?)),
        None => Ok(None),
    }
}

/// Copies of the names in a text with commas between them.
fn owned_names(alloc: Global, text: Option<&str>) -> Result<Option<Vec<String>>, AllocError>
    ensures { IfOk result (λ names.
        option_map (λ copies. bytes_of copies.items) names
        ≡ option_map (λ s. names_in s.now) text.entry) }
{
    match text {
        Some(text) => Ok(Some(copies_of(alloc, &names_in(alloc, text)?)?)),
        None => Ok(None),
    }
}

/// The parts of a text between commas.
fn names_in(alloc: Global, text: &str) -> Result<Vec<&str>, AllocError>
    ensures { IfOk result (λ names. map (λ name. name.now) names.items ≡ names_in text.now) }
{
    text.split(',').collect(alloc)
}

/// Copies of texts.
fn copies_of(alloc: Global, texts: &[&str]) -> Result<Vec<String>, AllocError>
    ensures { IfOk result (λ copies. bytes_of copies.items ≡ map (λ text. text.now) texts.now) }
{
    let mut copies = Vec::new(alloc);
    for text in texts {
        copies.push(String::from_str(alloc, *text)?)?;
    }
    Ok(copies)
}
