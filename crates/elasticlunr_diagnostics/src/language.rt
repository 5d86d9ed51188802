//! The language that is asked for.
ghost use Rattle.std.specs.Prelude.{◌≡◌, map, option_map, string_bytes, IfOk};
ghost use Rattle.elasticlunr_text.specs.Text.{bytes_of};
ghost use Rattle.elasticlunr_lang.specs.Known.{all_languages, language_name};
ghost use Rattle.elasticlunr_diagnostics.specs.Called.{is_called, name_asked, same_but_for_case};

use crate::nearest::nearest;
use elasticlunr_lang::{AnyLanguage, Language, languages};
use std::alloc::{AllocError, Global};

/// The name of the language that has this name or code, in capitals or small letters.
pub fn language_name(alloc: Global, asked: &str) -> Result<Option<String>, AllocError>
    ensures { IfOk result (λ name. option_map string_bytes name ≡ name_asked asked.now) }
{
    for language in languages() {
        if is_called(alloc, language, asked)? {
            return Ok(Some(language.name(alloc)?));
        }
    }
    Ok(None)
}

/// Whether a language has this name or code, in capitals or small letters.
fn is_called(alloc: Global, language: AnyLanguage, asked: &str) -> Result<bool, AllocError>
    ensures { IfOk result (λ is_called_so. is_called_so ≡ is_called asked.now language) }
{
    let name = language.name(alloc)?;
    let code = language.code(alloc)?;
    Ok(same_but_for_case(name.as_str(), asked) || same_but_for_case(code.as_str(), asked))
}

/// Whether texts are equal but for the case of ASCII letters.
fn same_but_for_case(text: &str, other: &str) -> bool
    ensures { result ≡ same_but_for_case text.now other.now }
{
    text.eq_ignore_ascii_case(other)
}

/// That no language has this name, and the nearest name.
pub fn unknown_language(alloc: Global, asked: &str) -> Result<String, AllocError> {
    let names = all_names(alloc)?;
    let mut known = Vec::new(alloc);
    for name in &names {
        known.push(name.as_str())?;
    }
    match nearest(alloc, asked, &known)? {
        Some(near) => format!(in alloc; "unknown language \"{asked}\"; did you mean \"{near}\"?"),
        None => format!(in alloc; "unknown language \"{asked}\"; see `elasticlunr languages`"),
    }
}

/// The names of the languages.
fn all_names(alloc: Global) -> Result<Vec<String>, AllocError>
    ensures { IfOk result (λ names. bytes_of names.items ≡ map language_name all_languages) }
{
    let mut names = Vec::new(alloc);
    for language in languages() {
        names.push(language.name(alloc)?)?;
    }
    Ok(names)
}
