//! `languages`: the names, the codes, the stages and the stemmers.

use elasticlunr_diagnostics::outcome::Outcome;
use elasticlunr_lang::{AnyLanguage, Language, languages};
use elasticlunr_stem_stage::with_table;
use elasticlunr_text::pipeline::Pipeline;
use std::alloc::{AllocError, Global};
use std::io;

/// Prints a line for each language.
pub fn list_languages(rt: &HostRuntime) -> io::Result<Outcome> {
    let text = languages_text(rt.alloc())?;
    print!(rt; "{text}")?;
    Ok(Outcome::Done)
}

/// A line for each language.
fn languages_text(alloc: Global) -> Result<String, AllocError> {
    let mut text = String::new(alloc);
    for language in languages() {
        let line = language_line(alloc, language)?;
        text.push_str(line.as_str())?;
    }
    Ok(text)
}

/// The name, the code and the names of the stages, the stemmer that `--stems` puts after these, and
/// a line feed.
fn language_line(alloc: Global, language: AnyLanguage) -> Result<String, AllocError> {
    let name = language.name(alloc)?;
    let code = language.code(alloc)?;
    let stages = stages_text(alloc, language)?;
    if with_table(language).is_some() {
        return format!(in alloc; "{name:<12}{code:<4}{stages} (--stems: stemmer-{code})\n");
    }
    format!(in alloc; "{name:<12}{code:<4}{stages}\n")
}

/// The names of the stages, with a comma between them.
fn stages_text(alloc: Global, language: AnyLanguage) -> Result<String, AllocError> {
    let empty = Pipeline {
        queue: Vec::new(alloc),
    };
    let names = language.make_pipeline(alloc, empty)?.names(alloc)?;
    let mut text = String::new(alloc);
    for (number, name) in names.iter().enumerate() {
        if number > 0 {
            text.push_str(", ")?;
        }
        text.push_str(name.as_str())?;
    }
    Ok(text)
}
