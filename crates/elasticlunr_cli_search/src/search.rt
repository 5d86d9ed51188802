//! `search`: what a query finds in a printed index.

use crate::asked::{Misuse, asked_of};
use crate::in_pieces::{Stop, answer_in_pieces, is_folder};
use crate::show::{Found, shown_hits};
use clap::ArgMatches;
use elasticlunr_cli_words::files::{input_name, read_input};
use elasticlunr_cli_words::tell::{failed, say, troubled};
use elasticlunr_diagnostics::form::read_value;
use elasticlunr_diagnostics::message::{InputError, unplaced};
use elasticlunr_diagnostics::nearest::nearest;
use elasticlunr_diagnostics::outcome::Outcome;
use elasticlunr_diagnostics::script::index_in;
use elasticlunr_diagnostics::shown::shown_lines;
use elasticlunr_hits::asked::Asked;
use elasticlunr_hits::hits::hits_of;
use elasticlunr_hits::lines::{LineForm, found_lines};
use elasticlunr_input::mark::without_mark;
use elasticlunr_lang::AnyLanguage;
use elasticlunr_search::answer::Refusal;
use elasticlunr_search::named::read_named;
use elasticlunr_search::{SearchError, Searcher};
use std::alloc::{AllocError, Global};
use std::io::{self, IsTerminal};
use std::str;

/// What is printed of hits.
#[derive(Clone, Copy)]
pub(crate) enum Form {
    /// A line for each.
    Lines(LineForm),
    /// For readers: ranks, titles, references and lines of their texts.
    Shown,
}

impl Form {
    /// Whether texts of documents are printed.
    pub(crate) fn has_texts(self) -> bool {
        !matches!(self, Form::Lines(LineForm::References))
    }
}

/// What is printed, and what is said of it.
#[derive(Drop)]
pub(crate) struct Answer {
    text: String,
    /// Why there is no hit, where there is none.
    note: Option<String>,
}

/// Prints what is found, best first.
pub fn search(rt: &HostRuntime, given: &ArgMatches<'_>) -> io::Result<Outcome> {
    let alloc = rt.alloc();
    let asked = match asked_of(alloc, given) {
        Ok(asked) => asked,
        Err(misuse) => return misused(rt, misuse),
    };
    let file = given.get_str("index");
    let form = form_of(given, rt.stdout().is_terminal());
    match file {
        Some(folder) if is_folder(rt, folder) => match answer_in_pieces(rt, folder, &asked, form) {
            Ok(answer) => print_answer(rt, folder, &answer),
            Err(Stop::File(file, trouble)) => troubled(rt, file.as_str(), trouble),
            Err(Stop::Memory) => troubled(rt, folder, InputError::Memory),
        },
        _ => search_file(rt, file, &asked, form),
    }
}

/// Prints what is found in a file, or in standard input.
fn search_file(
    rt: &HostRuntime,
    file: Option<&str>,
    asked: &Asked<'_>,
    form: Form,
) -> io::Result<Outcome> {
    let bytes = match read_input(rt, file) {
        Ok(bytes) => bytes,
        Err(e) => return failed(rt, input_name(file), &e),
    };
    match answer_in(rt.alloc(), &bytes, asked, form) {
        Ok(answer) => print_answer(rt, input_name(file), &answer),
        Err(trouble) => troubled(rt, input_name(file), trouble),
    }
}

/// Prints what is found in the index of a file.
fn print_answer(rt: &HostRuntime, file: &str, answer: &Answer) -> io::Result<Outcome> {
    print_lines(rt, answer.text.as_str())?;
    if let Some(note) = &answer.note {
        say_of(rt, file, note.as_str())?;
    }
    Ok(Outcome::Done)
}

/// Says something of a file.
fn say_of(rt: &HostRuntime, file: &str, said: &str) -> io::Result<()> {
    let line = format!(in rt.alloc(); "{file}: {said}")?;
    say(rt, line.as_str())
}

/// What is printed, to a terminal or elsewhere.
fn form_of(given: &ArgMatches<'_>, is_terminal: bool) -> Form {
    if given.get_flag("json") {
        Form::Lines(LineForm::Json)
    } else if is_terminal {
        Form::Shown
    } else {
        Form::Lines(LineForm::References)
    }
}

/// Says why the words of the command line ask for nothing.
fn misused(rt: &HostRuntime, misuse: Misuse<'_>) -> io::Result<Outcome> {
    let alloc = rt.alloc();
    let said = match misuse {
        Misuse::NoBoost(text) => {
            format!(in alloc;
                "`--boost {text}`: expected FIELD=NUMBER, with a number from 0 to 255"
            )?
        }
        Misuse::NotSearched(field) => {
            format!(in alloc; "`--boost` of the field \"{field}\", which `--field` leaves out")?
        }
        Misuse::Memory => {
            eprintln!(rt; "elasticlunr: out of memory")?;
            return Ok(Outcome::Failed);
        }
    };
    say(rt, format!(in alloc; "error: {said}")?.as_str())?;
    Ok(Outcome::Misused)
}

/// Prints lines: as they are, or to a terminal so that it takes none of them for a command.
fn print_lines(rt: &HostRuntime, lines: &str) -> io::Result<()> {
    if rt.stdout().is_terminal() {
        let lines = shown_lines(rt.alloc(), lines)?;
        print!(rt; "{lines}")
    } else {
        print!(rt; "{lines}")
    }
}

/// What is found in an index. A file has the index as it is or in a script, and maybe a byte order
/// mark before it.
fn answer_in(
    alloc: Global,
    file: &[u8],
    asked: &Asked<'_>,
    form: Form,
) -> Result<Answer, InputError> {
    let whole = without_mark(file);
    let index = index_in(whole);
    let Ok(text) = str::from_utf8(index) else {
        return Err(unread(alloc, whole, index)?);
    };
    match read_named(alloc, text) {
        Ok(searcher) => answer_of(alloc, &searcher, asked, form),
        Err(Refusal::NotRead) => Err(unread(alloc, whole, index)?),
        Err(refusal) => Err(not_searched(alloc, refusal)?),
    }
}

/// What a searcher finds.
pub(crate) fn answer_of(
    alloc: Global,
    searcher: &Searcher<AnyLanguage>,
    asked: &Asked<'_>,
    form: Form,
) -> Result<Answer, InputError> {
    check_fields(alloc, searcher.fields(), asked)?;
    match hits_text(alloc, searcher, asked, form) {
        Ok(answer) => Ok(answer),
        Err(e) => Err(not_searched(alloc, Refusal::from(e))?),
    }
}

/// The hits of a search, as they are printed.
fn hits_text(
    alloc: Global,
    searcher: &Searcher<AnyLanguage>,
    asked: &Asked<'_>,
    form: Form,
) -> Result<Answer, SearchError> {
    let text = match form {
        Form::Lines(form) => found_lines(alloc, searcher, asked, form)?,
        Form::Shown => {
            let hits = hits_of(alloc, searcher, asked)?;
            shown_hits(&found_by(alloc, searcher, asked)?, &hits)?
        }
    };
    // There is a line for each hit.
    let note = if text.is_empty() {
        Some(why_nothing(alloc, searcher, asked.query)?)
    } else {
        None
    };
    Ok(Answer { text, note })
}

/// By what the words of texts are found.
fn found_by<'s>(
    alloc: Global,
    searcher: &'s Searcher<AnyLanguage>,
    asked: &Asked<'_>,
) -> Result<Found<'s>, SearchError> {
    Ok(Found {
        alloc,
        searcher,
        tokens: searcher.query_tokens(asked.query)?,
        expand: asked.expand,
    })
}

/// Why a query found nothing.
fn why_nothing(
    alloc: Global,
    searcher: &Searcher<AnyLanguage>,
    query: &str,
) -> Result<String, SearchError> {
    let said = if searcher.query_tokens(query)?.is_empty() {
        "the query has no word that can be found"
    } else {
        "nothing was found"
    };
    Ok(String::from_str(alloc, said)?)
}

/// Refuses what is asked for where an index with these fields lacks one of it.
pub(crate) fn check_fields(
    alloc: Global,
    names: &[String],
    asked: &Asked<'_>,
) -> Result<(), InputError> {
    match unknown_field(names, asked) {
        Some(field) => Err(no_field(alloc, field, names)?),
        None => Ok(()),
    }
}

/// A field that is asked for and that the index doesn't have.
fn unknown_field<'a>(names: &[String], asked: &Asked<'a>) -> Option<&'a str> {
    for field in &asked.fields {
        if !has_name(names, *field) {
            return Some(*field);
        }
    }
    for (field, _) in &asked.boosts {
        if !has_name(names, *field) {
            return Some(*field);
        }
    }
    None
}

fn has_name(names: &[String], name: &str) -> bool {
    names.iter().any(|it| it.as_str() == name)
}

/// Why the index that stands in a file is not read.
fn unread(alloc: Global, whole: &[u8], index: &[u8]) -> Result<InputError, AllocError> {
    match read_value(alloc, index) {
        Ok(_) => refused(alloc, "not an index"),
        // In a script the place would not be that in the file.
        Err(InputError::Refused(_)) if index.len() < whole.len() => {
            refused(alloc, "not an index: what stands in the script is not JSON")
        }
        Err(trouble) => Ok(trouble),
    }
}

/// Why a file is not JSON.
pub(crate) fn unread_file(alloc: Global, bytes: &[u8]) -> Result<InputError, AllocError> {
    unread(alloc, bytes, bytes)
}

/// That an index has no such field, but these.
fn no_field(alloc: Global, field: &str, names: &[String]) -> Result<InputError, AllocError> {
    let mut fields = Vec::new(alloc);
    for name in names {
        fields.push(name.as_str())?;
    }
    let said = match nearest(alloc, field, &fields)? {
        Some(near) => format!(in alloc; "no field \"{field}\"; did you mean \"{near}\"?")?,
        None => format!(in alloc; "no field \"{field}\"")?,
    };
    Ok(InputError::Refused(unplaced(said)))
}

/// Why nothing was searched.
pub(crate) fn not_searched(alloc: Global, refusal: Refusal) -> Result<InputError, AllocError> {
    match refusal {
        Refusal::Memory => Ok(InputError::Memory),
        Refusal::TooDeep => refused(alloc, "not an index: nested deeper than 127 levels"),
        Refusal::UnknownLanguage => refused(alloc, "not an index: it names no language"),
        Refusal::OtherPipeline => refused(
            alloc,
            "it doesn't name the pipeline that its language has here, with stems or without",
        ),
        Refusal::NoFields => refused(alloc, "not an index: it has no list of fields"),
        Refusal::NoTries => refused(alloc, "not an index: a field has no trie"),
        Refusal::NoStore => refused(alloc, "not an index: it has no document store"),
        _ => refused(alloc, "not an index"),
    }
}

/// A refusal with these words.
pub(crate) fn refused(alloc: Global, said: &str) -> Result<InputError, AllocError> {
    Ok(InputError::Refused(unplaced(String::from_str(alloc, said)?)))
}
