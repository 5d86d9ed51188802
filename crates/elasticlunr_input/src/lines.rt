//! Documents that are lines of JSON, read one by one.
ghost use Rattle.std.specs.Fmt.{option_append};
ghost use Rattle.std.specs.Prelude.{◌≡◌, ◌∷◌, [], List, map, filter, true, Option, Some, None};
ghost use Rattle.std.specs.Prelude.{IfOk, IfErr, IfSome, IfNone, OnOk};
ghost use Rattle.elasticlunr_text.specs.Text.{Bytes};
ghost use Rattle.elasticlunr_job_format.specs.Job.{Document};
ghost use Rattle.elasticlunr_job_format.specs.LineRead.{AreAll};
ghost use Rattle.elasticlunr_job_format.specs.Lines.{is_filled};
ghost use Rattle.elasticlunr_job_format.specs.Objects.{HasProblem, IsDocumentOf};
ghost use Rattle.elasticlunr_job_format.specs.ObjectsTold.{options_told};
ghost use Rattle.elasticlunr_job_format.specs.Reading.{reading};
ghost use Rattle.elasticlunr_documents.specs.Lines.{FailsLines, IsMadeOfLines};
ghost use Rattle.elasticlunr_documents.specs.Seen.{SawLines};
ghost use Rattle.elasticlunr_json_place.specs.Members.{IsPlaceOf};
ghost use Rattle.elasticlunr_json_place.specs.Places.{IsPlaceIn};
ghost use Rattle.elasticlunr_input.specs.FaultPlaces.{object_fault_path};
ghost use Rattle.elasticlunr_input.specs.Inputs.{AreRefusedLines, HasHead, IsBelow, IsPlacedBelow};
ghost use Rattle.elasticlunr_input.specs.Inputs.{IsPlaceInLine, IsRefusedFirst, IsTroubleOf};
ghost use Rattle.elasticlunr_input.specs.Inputs.{IsUnreadLine};
ghost use Rattle.elasticlunr_input.specs.NotedAll.{AreNotedLines, Notices};
ghost use Rattle.elasticlunr_diagnostics.specs.Messages.{IfPlaced, IsMemoryOr, IsMemoryOrDevice};
ghost use Rattle.serde_json.specs.Data.{Data};
ghost use Rattle.serde_json.specs.View.{view};

use crate::documents::{object_fault_key, object_fault_text, path_of, settings_fault};
use crate::notes::Notes;
use elasticlunr_diagnostics::message::{InputError, Message, lowered, not_json, unplaced};
use elasticlunr_documents::lines::{LastLine, LinesError, Watch, is_blank, lines_made, read_line};
use elasticlunr_documents::marked::MarkedRead;
use elasticlunr_documents::objects::{AddError, Object, ObjectFault, Options, object_of};
use elasticlunr_job::make::Make;
use elasticlunr_json_place::member::{Step, place_of};
use elasticlunr_json_place::place::Place;
use serde_json::{Error, Value};
use std::alloc::{AllocError, Global};
use std::io::{BufRead, Read};

/// Reads a text up to the end of its first line that isn't blank, or to its own end, and gives what
/// it read. The line that it read last stays.
pub(crate) fn read_head<R: BufRead>(
    alloc: Global,
    reader: &mut R,
    last: &mut LastLine,
) -> Result<Vec<u8>, InputError>
    ensures ok { IfOk result (λ head.
        HasHead (R.remaining reader.old) (R.remaining reader.new) head.items last.new) }
    ensures err { IfErr result IsMemoryOrDevice }
{
    let mut head = Vec::new(alloc);
    'lines: for before in 0..usize::MAX {
        let more = read_line(reader, &mut last.text)?;
        last.before = before;
        head.extend_from_slice(&last.text)?;
        if !more {
            return Ok(head);
        }
        head.push(b'\n')?;
        if !is_blank(&last.text) {
            return Ok(head);
        }
    }
    // The head has a line feed for each line, and fewer bytes than that.
    unreachable!()
}

impl Watch for Notes {
    ghost use Rattle.elasticlunr_input.specs.NotedAll.{Notices};

    ghost sees = { Notices };

    fn document(&mut self, object: &Object<'_>) -> Result<(), AllocError> {
        self.object(object)
    }
}

/// The value of the first line, which was read last, where it isn't blank.
pub(crate) fn first_value(alloc: Global, last: &LastLine) -> Result<Vec<Value>, InputError>
    ensures ok { IfOk result (λ values. map Some (map view values.items)
        ≡ map reading (filter is_filled (last.now.text.items ∷ []))) }
    ensures err { IfErr result (IsMemoryOr
        ((is_filled last.now.text.items ≡ true) × (reading last.now.text.items ≡ None))) }
    ensures place { IfErr result (IfPlaced
        (IsBelow last.now.before (IsPlaceIn last.now.text.items))) }
    ensures placed { IfErr result (IsUnreadLine last.now) }
{
    let mut values = Vec::new(alloc);
    if is_blank(&last.text) {
        return Ok(values);
    }
    match Value::from_slice(alloc, &last.text) {
        Ok(value) => {
            values.push(value)?;
            Ok(values)
        }
        Err(e) if e.is_memory() => Err(InputError::Memory),
        Err(e) => Err(InputError::Refused(line_unread(alloc, last, &e)?)),
    }
}

/// What keeps a value from being a document.
fn problem_of(
    alloc: Global,
    options: &Options<'_>,
    value: &Value,
) -> Result<Option<ObjectFault>, AllocError>
    ensures some { IfOk result (λ found. IfSome found
        (HasProblem (options_told options.now) (view value.now))) }
    ensures none { IfOk result (λ found. IfNone found
        ((doc : Document) × IsDocumentOf (options_told options.now) (view value.now) doc)) }
{
    match object_of(alloc, options, value) {
        Ok(object) => {
            drop(object);
            Ok(None)
        }
        Err(AddError::ObjectFault(problem)) => Ok(Some(problem)),
        Err(AddError::Memory) => Err(AllocError),
    }
}

/// Refuses the first of the values where it is no document; it stands in the line that was read
/// last.
pub(crate) fn check_first(
    alloc: Global,
    options: &Options<'_>,
    values: &[Value],
    last: &LastLine,
) -> Result<(), InputError>
    ensures ok { OnOk result ((d : Data) → (rest : List Data) → map view values.now ≡ d ∷ rest
        → (doc : Document) × IsDocumentOf (options_told options.now) d doc) }
    ensures err { IfErr result (IsRefusedFirst (options_told options.now) (map view values.now)
        last.now) }
{
    let Some(value) = values.first() else {
        return Ok(());
    };
    match problem_of(alloc, options, value)? {
        None => Ok(()),
        Some(problem) => {
            let message = line_refused(alloc, options, last, 1, problem)?;
            Err(InputError::Refused(message))
        }
    }
}

/// What is wrong with the line that was read last, which is not JSON.
fn line_unread(alloc: Global, last: &LastLine, error: &Error) -> Result<Message, AllocError>
    ensures { IfOk result (λ message.
        IsPlacedBelow last.now.before (IsPlaceIn last.now.text.items) message.place) }
{
    let message = not_json(alloc, &last.text, error)?;
    Ok(lowered(message, last.before))
}

/// The place of what is wrong with the value of a line, which is no document.
fn line_place(
    alloc: Global,
    options: &Options<'_>,
    line: &[u8],
    problem: ObjectFault,
) -> Result<Option<Place>, AllocError>
    ensures { IfOk result (λ place. IfSome place
        (IsPlaceOf None (object_fault_path (options_told options.now) problem) line.now)) }
{
    let key = Step::Key(object_fault_key(options, problem));
    place_of(alloc, line, None, path_of(&[key], problem))
}

/// What is wrong with the value of the line that was read last, which has this number and is no
/// document.
fn value_refused(
    alloc: Global,
    options: &Options<'_>,
    last: &LastLine,
    value: &Value,
    number: usize,
    problem: ObjectFault,
) -> Result<Message, AllocError>
    ensures { IfOk result (λ message. IfSome message.place (IsBelow last.now.before
        (IsPlaceOf None (object_fault_path (options_told options.now) problem)
        last.now.text.items))) }
{
    let place = line_place(alloc, options, &last.text, problem)?;
    let text = object_fault_text(alloc, options, number, Some(value), problem)?;
    Ok(lowered(Message { place, text }, last.before))
}

/// What is wrong with the line that was read last, which has this number and is no document.
pub(crate) fn line_refused(
    alloc: Global,
    options: &Options<'_>,
    last: &LastLine,
    number: usize,
    problem: ObjectFault,
) -> Result<Message, AllocError>
    ensures { IfOk result (λ message. IfSome message.place (IsBelow last.now.before
        (IsPlaceInLine (options_told options.now) last.now.text.items problem))) }
{
    match Value::from_slice(alloc, &last.text) {
        Ok(value) => value_refused(alloc, options, last, &value, number, problem),
        Err(e) if e.is_memory() => Err(AllocError),
        Err(e) => line_unread(alloc, last, &e),
    }
}

/// Why no index of lines is printed; where a line is no document, it is the one that was read last.
fn input_error_of(
    alloc: Global,
    options: &Options<'_>,
    last: &LastLine,
    error: LinesError,
) -> Result<InputError, AllocError>
    ensures cause { IfOk result (IsTroubleOf error) }
    ensures refused { IfOk result (λ e. (left : Option Bytes)
        → FailsLines (options_told options.now) left last.now error
        → AreRefusedLines (options_told options.now) left e) }
{
    match error {
        LinesError::Memory => Ok(InputError::Memory),
        LinesError::TooManyLines => Ok(InputError::TooManyLines),
        LinesError::Device(e) => Ok(InputError::Device(e)),
        LinesError::Refused(refusal) => {
            let said = settings_fault(alloc, options, refusal)?;
            Ok(InputError::Refused(unplaced(said)))
        }
        LinesError::Document(number, problem) => {
            let message = line_refused(alloc, options, last, number, problem)?;
            Ok(InputError::Refused(message))
        }
    }
}

/// What is made of the index of the documents in lines, of which a head was read before; what is
/// suspicious goes to the notes.
pub(crate) fn lines_made_of<R: MarkedRead, M: Make>(
    alloc: Global,
    options: &Options<'_>,
    head: &[u8],
    last: &mut LastLine,
    reader: &mut R,
    notes: &mut Notes,
    maker: &M,
) -> Result<M::Made, InputError>
    ensures ok { IfOk result (λ made. (text : Bytes)
        × AreAll (option_append (Some head.now) (R.remaining reader.old)) text
        × IsMadeOfLines (options_told options.now) text (M.makes maker.now made)) }
    ensures noted { OnOk result ((text : Bytes)
        × AreAll (option_append (Some head.now) (R.remaining reader.old)) text
        × AreNotedLines (options_told options.now) text notes.old notes.new) }
    ensures err { IfErr result (AreRefusedLines (options_told options.now)
        (option_append (Some head.now) (R.remaining reader.old))) }
{
    match watched(alloc, options, head, last, reader, notes, maker) {
        Ok(made) => {
            notes.end(&options.fields)?;
            Ok(made)
        }
        Err(e) => Err(input_error_of(alloc, options, last, e)?),
    }
}

/// The same, while what is suspicious in each document goes to the notes.
fn watched<R: MarkedRead, M: Make>(
    alloc: Global,
    options: &Options<'_>,
    head: &[u8],
    last: &mut LastLine,
    reader: &mut R,
    notes: &mut Notes,
    maker: &M,
) -> Result<M::Made, LinesError>
    ensures ok { IfOk result (λ made. (text : Bytes)
        × AreAll (option_append (Some head.now) (R.remaining reader.old)) text
        × IsMadeOfLines (options_told options.now) text (M.makes maker.now made)) }
    ensures seen { OnOk result ((text : Bytes)
        × AreAll (option_append (Some head.now) (R.remaining reader.old)) text
        × SawLines Notices (options_told options.now) text notes.old notes.new) }
    ensures err { IfErr result (FailsLines (options_told options.now)
        (option_append (Some head.now) (R.remaining reader.old)) last.new) }
{
    let mut all = head.chain(reader);
    lines_made(alloc, options, &mut all, last, notes, maker)
}
