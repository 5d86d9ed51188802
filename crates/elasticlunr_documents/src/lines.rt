//! The text of the index of documents as lines of JSON, an object each.
//!
//! Lines are read one by one: a line and its value are let go before the next one is read. Lines of
//! white space are passed over.

ghost use Rattle.std.specs.Prelude.{◌≡◌, [], true, Some, None, option_map, string_bytes, IfOk};
ghost use Rattle.std.specs.Prelude.{IfErr, OnOk};
ghost use Rattle.elasticlunr.specs.Index.{plan_of, StandsFor};
ghost use Rattle.elasticlunr.specs.History.{Commands};
ghost use Rattle.elasticlunr_lang.specs.Known.{language_name};
ghost use Rattle.elasticlunr_text.specs.Text.{Bytes};
ghost use Rattle.elasticlunr_job.specs.Commands.{language_tokens};
ghost use Rattle.elasticlunr_job.specs.Filled.{IsBuiltFor, IsMadeUnder};
ghost use Rattle.elasticlunr_documents.specs.Lines.{FailsLines, IfDevice, IsLineOfLines};
ghost use Rattle.elasticlunr_documents.specs.Lines.{IsMadeOfLines};
ghost use Rattle.elasticlunr_documents.specs.LinesTold.{IsFilledBy, IsTaken, IsUnread};
ghost use Rattle.elasticlunr_documents.specs.LinesTold.{IsUnreadAfter, IsValueOf, StopsFilling};
ghost use Rattle.elasticlunr_documents.specs.LinesTold.{StopsOn, StopsReading};
ghost use Rattle.elasticlunr_documents.specs.Objects.{job_of};
ghost use Rattle.elasticlunr_documents.specs.Seen.{SawLines};
ghost use Rattle.elasticlunr_job_format.specs.Job.{Document};
ghost use Rattle.elasticlunr_job_format.specs.LineRead.{AreAll};
ghost use Rattle.elasticlunr_job_format.specs.Objects.{HasProblem, IsDocumentOf};
ghost use Rattle.elasticlunr_job_format.specs.ObjectsTold.{object_told, options_told};
ghost use Rattle.elasticlunr_job_format.specs.Reading.{reading};
ghost use Rattle.serde_json.specs.Data.{Data};
ghost use Rattle.serde_json.specs.View.{view};

use crate::marked::MarkedRead;
use crate::objects::{AddError, Object, ObjectFault, Options, object_of};
use elasticlunr::lang::{AnyLanguage, from_name};
use elasticlunr::{Index, IndexBuilder, IndexError};
use elasticlunr_job::kept::{all_words, kept_lists, stems_by, values_with};
use elasticlunr_job::laws::an_index_is_built_for_a_job;
use elasticlunr_job::make::{Line, Make};
use elasticlunr_job::outcome::{JobError, Refusal};
pub use elasticlunr_job_format::lines::is_blank;
use elasticlunr_job_format::read::read_json;
pub use elasticlunr_job_format::reader::read_line;
use elasticlunr_stem_stage::language_pipeline;
use serde_json::Value;
use std::alloc::{AllocError, Global};
use std::io;

/// The line that was read last, without its line feed.
#[derive(Drop)]
pub struct LastLine {
    pub text: Vec<u8>,
    /// How many line feeds stand before it.
    pub before: usize,
}

impl LastLine {
    /// Of nothing that was read yet.
    pub fn new(alloc: Global) -> LastLine
        ensures text { result.text.items ≡ [] }
        ensures before { result.before ≡ 0 }
    {
        LastLine {
            text: Vec::new(alloc),
            before: 0,
        }
    }
}

/// What sees each document that is added.
pub trait Watch {
    /// What the watch sees of a document: the watch before and after it, the value, and the
    /// document that the value is.
    ghost sees: { Self → Self → Data → Document → Type 0 };

    /// Sees the next document.
    fn document(&mut self, object: &Object<'_>) -> Result<(), AllocError>
        ensures { OnOk result (sees self.old self.new (view object.now.value.now)
            (object_told object.now)) };
}

/// Why the index of lines is not printed.
#[derive(Drop)]
pub enum LinesError {
    /// The language is unknown, or a field stands twice.
    Refused(Refusal),
    /// The number of the first line that is no document, from 1 without the blank ones, and what is
    /// wrong with it.
    Document(usize, ObjectFault),
    /// A read of the reader failed.
    Device(io::Error),
    /// More lines than a `usize` can number.
    TooManyLines,
    /// Out of memory.
    Memory,
}

impl From<AllocError> for LinesError {
    ghost use Rattle.elasticlunr_documents.specs.declared.lines.LinesError.TheVariants.{Memory};
    ghost use Rattle.std.specs.Prelude.{◌≡◌};

    ghost from_gives = { λ _ e. e ≡ Memory };

    fn from(_refused: AllocError) -> LinesError {
        LinesError::Memory
    }
}

impl From<IndexError> for LinesError {
    ghost use Rattle.std.specs.Prelude.{◌≡◌};
    ghost use Rattle.elasticlunr_documents.specs.LinesTold.{index_error_of};

    ghost from_gives = { λ refused e. e ≡ index_error_of refused };

    fn from(refused: IndexError) -> LinesError {
        match refused {
            IndexError::DuplicateField => LinesError::Refused(Refusal::DuplicateField),
            _ => LinesError::Memory,
        }
    }
}

/// The value of the line of this number.
fn value_on(alloc: Global, line: &[u8], number: usize) -> Result<Value, LinesError>
    ensures ok { IfOk result (λ value. reading line.now ≡ Some (view value)) }
    ensures err { IfErr result (StopsOn number (λ problem. (reading line.now ≡ None)
        × (problem ≡ ObjectFault.NotJson))) }
{
    match read_json(alloc, line) {
        Ok(value) => Ok(value),
        Err(JobError::Memory) => Err(LinesError::Memory),
        Err(JobError::Refused(_)) => Err(LinesError::Document(number, ObjectFault::NotJson)),
    }
}

/// Why a line was not read: the reader has failed, or else there was no memory for the line.
fn unread<R: MarkedRead>(reader: &R, error: io::Error) -> LinesError
    ensures err { IsUnread result }
    ensures device { IfDevice (R.has_failed reader.now ≡ true) result }
{
    if reader.has_failed() {
        LinesError::Device(error)
    } else {
        LinesError::Memory
    }
}

/// Reads the next line, and its value where it isn't blank: it has this number then. Also whether a
/// line feed was after it.
fn next_value<R: MarkedRead>(
    alloc: Global,
    reader: &mut R,
    line: &mut Vec<u8>,
    number: usize,
) -> Result<(Option<Value>, bool), LinesError>
    ensures taken { IfOk result (λ read.
        IsTaken (R.remaining reader.old) (R.remaining reader.new) line.new.items read.1) }
    ensures value { IfOk result (λ read. IsValueOf line.new.items (option_map view read.0)) }
    ensures err { IfErr result (StopsReading number
        (IsUnreadAfter (R.remaining reader.old) (R.remaining reader.new) line.new.items)) }
    ensures device { IfErr result (IfDevice (R.has_failed reader.new ≡ true)) }
{
    let more = match read_line(reader, line) {
        Ok(more) => more,
        Err(e) => return Err(unread(reader, e)),
    };
    if is_blank(line) {
        return Ok((None, more));
    }
    let value = value_on(alloc, line, number)?;
    Ok((Some(value), more))
}

/// The document in the line of this number, which the watch sees.
fn object_on<'a, W: Watch>(
    alloc: Global,
    options: &Options<'_>,
    value: &'a Value,
    number: usize,
    watch: &mut W,
) -> Result<Object<'a>, LinesError>
    ensures ok { IfOk result (λ object. IsDocumentOf (options_told options.now) (view value.now)
        (object_told object)) }
    ensures seen { IfOk result (λ object.
        W.sees watch.old watch.new (view value.now) (object_told object)) }
    ensures err { IfErr result (StopsOn number
        (HasProblem (options_told options.now) (view value.now))) }
{
    match object_of(alloc, options, value) {
        Ok(object) => {
            watch.document(&object)?;
            Ok(object)
        }
        Err(AddError::Memory) => Err(LinesError::Memory),
        Err(AddError::ObjectFault(problem)) => Err(LinesError::Document(number, problem)),
    }
}

/// What is made of an index.
fn made<M: Make>(maker: &M, index: &Index<AnyLanguage>, pretty: bool) -> Result<M::Made, LinesError>
    ensures ok { IfOk result (λ made. (commands : Commands)
        → StandsFor language_name name_text index.now commands
        → M.makes maker.now made pretty (plan_of language_name name_text index.now) commands) }
    ensures err { IfErr result (λ e. e ≡ LinesError.Memory) }
{
    match maker.make(index, pretty) {
        Ok(made) => Ok(made),
        Err(_) => Err(LinesError::Memory),
    }
}

/// Adds the documents in the lines of a reader to a new index: what is made of it then.
fn fill_and_make<R: MarkedRead, W: Watch, M: Make>(
    alloc: Global,
    options: &Options<'_>,
    reader: &mut R,
    last: &mut LastLine,
    watch: &mut W,
    maker: &M,
    mut index: Index<AnyLanguage>,
) -> Result<M::Made, LinesError>
    ensures ok { IfOk result (λ made. (language : AnyLanguage)
        → IsBuiltFor (options_told options.now).rules (job_of (options_told options.now) [])
        language (plan_of language_name name_text index)
        (IsMadeUnder (options_told options.now).rules (options_told options.now).fields
        language_tokens leaves index) (StandsFor language_name name_text index)
        → (text : Bytes) × AreAll (R.remaining reader.old) text
        × IsFilledBy (options_told options.now) language text (M.makes maker.now made)) }
    ensures seen { OnOk result ((text : Bytes) × AreAll (R.remaining reader.old) text
        × SawLines W.sees (options_told options.now) text watch.old watch.new) }
    ensures err { IfErr result (StopsFilling (options_told options.now) (R.remaining reader.old)
        last.new) }
    ensures device { IfErr result (IfDevice (R.has_failed reader.new ≡ true)) }
{
    let mut number: usize = 0;
    'lines: for before in 0..usize::MAX {
        last.before = before;
        let (value, more) = next_value(alloc, reader, &mut last.text, number + 1)?;
        let Some(value) = value else {
            if more {
                continue;
            }
            return made(maker, &index, options.pretty);
        };
        number += 1;
        let object = object_on(alloc, options, &value, number, watch)?;
        let texts = object.values(alloc)?;
        let kept = kept_lists(alloc, &options.rules, &options.fields, &texts)?;
        let words = all_words(alloc, &kept)?;
        let values = values_with(alloc, &texts, &words, &kept)?;
        let Ok(()) = index.add_doc_with_tokens(object.reference.as_str(), &values) else {
            // It has a value for each field, so it is not refused: memory runs out.
            return Err(LinesError::Memory);
        };
        if !more {
            return made(maker, &index, options.pretty);
        }
    }
    Err(LinesError::TooManyLines)
}

/// What is made of the index of the documents in the lines of a reader. It takes the memory of the
/// index, of one line and of its value. The watch sees each document before it is added. After an
/// error of a document its line is the one that was read last.
pub fn lines_made<R: MarkedRead, W: Watch, M: Make>(
    alloc: Global,
    options: &Options<'_>,
    reader: &mut R,
    last: &mut LastLine,
    watch: &mut W,
    maker: &M,
) -> Result<M::Made, LinesError>
    ensures ok { IfOk result (λ made. (text : Bytes) × AreAll (R.remaining reader.old) text
        × IsMadeOfLines (options_told options.now) text (M.makes maker.now made)) }
    ensures seen { OnOk result ((text : Bytes) × AreAll (R.remaining reader.old) text
        × SawLines W.sees (options_told options.now) text watch.old watch.new) }
    ensures err { IfErr result (FailsLines (options_told options.now) (R.remaining reader.old)
        last.new) }
    ensures device { IfErr result (IfDevice (R.has_failed reader.new ≡ true)) }
{
    let Some(language) = from_name(options.language) else {
        return Err(LinesError::Refused(Refusal::UnknownLanguage));
    };
    let pipeline = language_pipeline(alloc, language, stems_by(&options.rules))?;
    let index = IndexBuilder::with_language(alloc, language)?
        .with_pipeline(pipeline)
        .save_docs(options.save)
        .set_ref(options.reference_field)?
        .add_fields(&options.fields)?
        .build()?;
    an_index_is_built_for_a_job(&index);
    fill_and_make(alloc, options, reader, last, watch, maker, index)
}

/// The text of the index of the documents in the lines of a reader, and a line feed.
pub fn lines_line<R: MarkedRead, W: Watch>(
    alloc: Global,
    options: &Options<'_>,
    reader: &mut R,
    last: &mut LastLine,
    watch: &mut W,
) -> Result<String, LinesError>
    ensures ok { IfOk result (λ line. (text : Bytes) × AreAll (R.remaining reader.old) text
        × IsLineOfLines (options_told options.now) text (string_bytes line)) }
    ensures seen { OnOk result ((text : Bytes) × AreAll (R.remaining reader.old) text
        × SawLines W.sees (options_told options.now) text watch.old watch.new) }
    ensures err { IfErr result (FailsLines (options_told options.now) (R.remaining reader.old)
        last.new) }
    ensures device { IfErr result (IfDevice (R.has_failed reader.new ≡ true)) }
{
    lines_made(alloc, options, reader, last, watch, &Line)
}
