//! `build` and `check`.

use crate::given::settings_given;
use crate::pieces::{Cut, Cutting, PIECE_SIZE, publish_pieces};
use clap::ArgMatches;
use elasticlunr_cli_words::files::{Input, input_name, open_input, write_output};
use elasticlunr_cli_words::tell::{failed, say, troubled, warn};
use elasticlunr_diagnostics::form::form_of;
use elasticlunr_diagnostics::language::{language_name, unknown_language};
use elasticlunr_diagnostics::message::counted;
use elasticlunr_diagnostics::outcome::Outcome;
use elasticlunr_diagnostics::script::script_of;
use elasticlunr_input::index::{Line, Make, Marked, made_from};
use elasticlunr_input::notes::Notes;
use elasticlunr_input::settings::Settings;
use elasticlunr_publish::site::{Fault, discard, new_pieces};
use std::io::{self, BufReader, IsTerminal, Read};
use std::time::Instant;

/// The bytes of an input whose index takes more than a moment.
const MUCH: usize = 1_000_000;

/// The bytes after which it is said again how far an input was read.
const STEP: usize = 16_000_000;

/// The bytes of an input that are read at once.
const BUFFER: usize = 65_536;

/// What is done with the text of an index.
#[derive(Clone, Copy)]
pub enum Use {
    Write,
    Check,
}

/// What is asked for, and when that began.
#[derive(Drop)]
struct Task<'r, 'a> {
    given: &'r ArgMatches<'a>,
    wanted: Use,
    begun: Instant,
}

impl Task<'_, '_> {
    /// The seconds since it was begun.
    fn seconds(&self, rt: &HostRuntime) -> io::Result<f64> {
        Ok(self.begun.elapsed(rt)?.as_secs_f64())
    }

    /// Says how far it is, where that is asked for, or much was done and a terminal shows it.
    fn progress(&self, rt: &HostRuntime, done: &str, bytes: usize) -> io::Result<()> {
        let is_watched = bytes >= MUCH && rt.stderr().is_terminal();
        if is_watched || self.given.get_flag("progress") {
            let seconds = self.seconds(rt)?;
            eprintln!(rt; "elasticlunr: {done} {bytes} bytes, {seconds:.1} s")?;
        }
        Ok(())
    }
}

/// An input that says how far it was read.
#[derive(Drop)]
struct Watched<'r, 'a> {
    input: Input,
    rt: &'r HostRuntime,
    task: &'r Task<'r, 'a>,
    /// How many bytes were read.
    bytes: usize,
    /// After how many it is said again.
    next: usize,
    /// Whether the end was reached.
    is_told: bool,
}

impl Read for Watched<'_, '_> {
    fn read(&mut self, buf: &mut [u8]) -> io::Result<usize> {
        let count = self.input.read(buf)?;
        self.bytes = self.bytes.saturating_add(count);
        let is_end = count == 0;
        if !self.is_told && (is_end || self.bytes >= self.next) {
            self.is_told = is_end;
            self.next = self.bytes.saturating_add(STEP);
            self.task.progress(self.rt, "read", self.bytes)?;
        }
        Ok(count)
    }
}

/// Builds an index in the language that is asked for.
pub fn build(rt: &HostRuntime, given: &ArgMatches<'_>, wanted: Use) -> io::Result<Outcome> {
    if let Some((option, wants, said)) = misuse_of(given) {
        let line = format!(in rt.alloc(); "elasticlunr: --{option}: {wants}, found \"{said}\"")?;
        say(rt, line.as_str())?;
        return Ok(Outcome::Misused);
    }
    let task = Task {
        given,
        wanted,
        begun: Instant::now(rt)?,
    };
    let Some(asked) = given.get_str("lang") else {
        return build_from(rt, &task, None);
    };
    match language_name(rt.alloc(), asked)? {
        Some(name) => build_from(rt, &task, Some(name)),
        None => {
            let said = unknown_language(rt.alloc(), asked)?;
            let line = format!(in rt.alloc(); "elasticlunr: --lang: {said}")?;
            say(rt, line.as_str())?;
            Ok(Outcome::Misused)
        }
    }
}

/// The option that has another value than it wants, what it wants, and its value.
fn misuse_of<'a>(given: &ArgMatches<'a>) -> Option<(&'static str, &'static str, &'a str)> {
    if given.get_str("pieces") == Some("") {
        return Some(("pieces", "expected a folder", ""));
    }
    if let Some(said) = unread_number(given, "piece-size") {
        return Some((
            "piece-size",
            "expected a whole number of bytes, at least 1",
            said,
        ));
    }
    if let Some(said) = unread_number(given, "max-token") {
        return Some((
            "max-token",
            "expected a whole number of characters, at least 1",
            said,
        ));
    }
    let said = unread_number(given, "keep")?;
    Some(("keep", "expected a whole number, at least 1", said))
}

/// The value of an option, where it is no number from 1.
fn unread_number<'a>(given: &ArgMatches<'a>, option: &str) -> Option<&'a str> {
    let said = given.get_str(option)?;
    match number_of(said) {
        Some(_) => None,
        None => Some(said),
    }
}

/// Opens the input, and builds its index.
fn build_from(
    rt: &HostRuntime,
    task: &Task<'_, '_>,
    language: Option<String>,
) -> io::Result<Outcome> {
    let longest = task.given.get_str("max-token").and_then(number_of);
    let settings = settings_given(rt.alloc(), task.given, language, longest)?;
    let file = task.given.get_str("file");
    match open_input(rt, file) {
        Ok(input) => build_of(rt, task, &settings, input),
        Err(e) => failed(rt, input_name(file), &e),
    }
}

/// Of how many heads the folders are kept.
fn keep_of(task: &Task<'_, '_>) -> usize {
    let keep = task.given.get_str("keep").and_then(number_of);
    keep.unwrap_or(1)
}

/// The number of a text, where it is one from 1.
fn number_of(text: &str) -> Option<usize> {
    match text.parse::<usize>() {
        Ok(size) if size > 0 => Some(size),
        _ => None,
    }
}

/// Builds the index of an input, and does with it what the options ask for.
fn build_of(
    rt: &HostRuntime,
    task: &Task<'_, '_>,
    settings: &Settings,
    input: Input,
) -> io::Result<Outcome> {
    let Some(folder) = task.given.get_str("pieces") else {
        let mut notes = Notes::new(rt.alloc());
        return match made_in(rt, task, settings, input, &mut notes, &Line)? {
            Ok(line) => use_index(rt, task, line.as_str(), &notes),
            Err(ended) => Ok(ended),
        };
    };
    let temporary = match new_pieces(rt, folder) {
        Ok(temporary) => temporary,
        Err(e) => return failed(rt, folder, &e),
    };
    let ended = build_pieces(rt, task, settings, input, temporary.path.as_str());
    if !matches!(ended, Ok(Outcome::Done)) {
        discard(rt, temporary.path.as_str());
    }
    ended
}

/// Builds the index of an input in pieces, which are written to this folder first.
fn build_pieces(
    rt: &HostRuntime,
    task: &Task<'_, '_>,
    settings: &Settings,
    input: Input,
    temporary: &str,
) -> io::Result<Outcome> {
    let given = task.given;
    let size = given.get_str("piece-size").and_then(number_of);
    let cutting = Cutting {
        rt,
        folder: given.get_str("pieces").unwrap_or("."),
        temporary,
        size: size.unwrap_or(PIECE_SIZE),
        title: given.get_str("title").unwrap_or("title"),
        with_text: given.get_str("output").is_some(),
    };
    let mut notes = Notes::new(rt.alloc());
    match made_in(rt, task, settings, input, &mut notes, &cutting)? {
        Ok(Ok(cut)) => use_pieces(task, &cutting, &cut, &notes),
        Ok(Err(fault)) => failed(rt, fault.file.as_str(), &fault.error),
        Err(ended) => Ok(ended),
    }
}

/// What is made of the index of an input, or how it ended without an index.
fn made_in<M: Make>(
    rt: &HostRuntime,
    task: &Task<'_, '_>,
    settings: &Settings,
    input: Input,
    notes: &mut Notes,
    maker: &M,
) -> io::Result<Result<M::Made, Outcome>> {
    let name = input_name(task.given.get_str("file"));
    let form = task.given.get_str("format").and_then(form_of);
    let watched = Watched {
        input,
        rt,
        task,
        bytes: 0,
        next: STEP,
        is_told: false,
    };
    let mut reader = BufReader::with_capacity(rt.alloc(), BUFFER, Marked::new(watched))?;
    match made_from(rt.alloc(), &mut reader, form, settings, notes, maker) {
        Ok(made) => Ok(Ok(made)),
        Err(trouble) => Ok(Err(troubled(rt, name, trouble)?)),
    }
}

/// Prints the warnings, and says whether they are refusals and there is one.
fn is_refused(rt: &HostRuntime, task: &Task<'_, '_>, notes: &Notes) -> io::Result<bool> {
    let name = input_name(task.given.get_str("file"));
    warn(rt, name, &notes.warnings)?;
    Ok(task.given.get_flag("strict") && !notes.warnings.is_empty())
}

/// Does with the text of an index what the options ask for.
fn use_index(
    rt: &HostRuntime,
    task: &Task<'_, '_>,
    line: &str,
    notes: &Notes,
) -> io::Result<Outcome> {
    task.progress(rt, "made an index of", line.len())?;
    if is_refused(rt, task, notes)? {
        return Ok(Outcome::Refused);
    }
    match task.wanted {
        Use::Write => write_index(rt, task, line, notes),
        Use::Check => Ok(Outcome::Done),
    }
}

/// Writes the text of an index, and says how much it is.
fn write_index(
    rt: &HostRuntime,
    task: &Task<'_, '_>,
    line: &str,
    notes: &Notes,
) -> io::Result<Outcome> {
    // Made before anything is written, so that no memory is asked for after that.
    let counted = counted_of(rt, notes)?;
    match write_text(rt, task, line) {
        Ok(()) => {
            let (bytes, seconds) = (line.len(), task.seconds(rt)?);
            eprintln!(rt; "elasticlunr: {counted}, {bytes} bytes, {seconds:.1} s")?;
            Ok(Outcome::Done)
        }
        Err(e) => failed(rt, output_name(task), &e),
    }
}

/// How many documents and tokens there are.
fn counted_of(rt: &HostRuntime, notes: &Notes) -> io::Result<String> {
    let documents = counted(rt.alloc(), notes.documents, "document")?;
    let tokens = counted(rt.alloc(), notes.token_count(), "token")?;
    Ok(format!(in rt.alloc(); "{documents}, {tokens}")?)
}

/// Writes the text of an index, in a script where that is asked for.
fn write_text(rt: &HostRuntime, task: &Task<'_, '_>, line: &str) -> io::Result<()> {
    let output = task.given.get_str("output");
    match task.given.get_str("js") {
        Some(before) => {
            let script = script_of(rt.alloc(), before, line)?;
            write_output(rt, output, script.as_str())
        }
        None => write_output(rt, output, line),
    }
}

/// The name of the output in a message.
fn output_name<'a>(task: &'a Task<'_, '_>) -> &'a str {
    match task.given.get_str("output") {
        Some(name) => name,
        None => "standard output",
    }
}

/// Writes the text of an index where that is asked for, publishes the pieces, and says how many
/// there are.
fn use_pieces(
    task: &Task<'_, '_>,
    cutting: &Cutting<'_>,
    cut: &Cut,
    notes: &Notes,
) -> io::Result<Outcome> {
    let rt = cutting.rt;
    task.progress(rt, "made pieces of", cut.sizes.bytes)?;
    if is_refused(rt, task, notes)? {
        return Ok(Outcome::Refused);
    }
    let counted = counted_pieces(rt, cut, notes)?;
    if let Some(text) = &cut.text {
        if let Err(e) = write_text(rt, task, text.as_str()) {
            return failed(rt, output_name(task), &e);
        }
    }
    match publish_pieces(cutting, &cut.head, keep_of(task))? {
        Ok(()) => {
            let seconds = task.seconds(rt)?;
            eprintln!(rt; "elasticlunr: {counted}, {seconds:.1} s")?;
            Ok(Outcome::Done)
        }
        Err(Fault { file, error }) => failed(rt, file.as_str(), &error),
    }
}

/// How many documents, tokens and pieces there are, and the bytes of head, pieces and text.
fn counted_pieces(rt: &HostRuntime, cut: &Cut, notes: &Notes) -> io::Result<String> {
    let counted_notes = counted_of(rt, notes)?;
    let pieces = counted(rt.alloc(), cut.sizes.count, "piece")?;
    let (head, largest) = (cut.head.text.len(), cut.sizes.largest);
    let sizes = format!(in rt.alloc();
        "{pieces}, {head} bytes in the head, {largest} in the largest piece"
    )?;
    match &cut.text {
        Some(text) => {
            let bytes = text.len();
            Ok(format!(in rt.alloc(); "{counted_notes}, {bytes} bytes, {sizes}")?)
        }
        None => Ok(format!(in rt.alloc(); "{counted_notes}, {sizes}")?),
    }
}
