//! The index of an input, of each form.
ghost use Rattle.std.specs.Prelude.{◌≡◌, ◌++◌, List, true, map, string_bytes, unwrap_or, IfOk};
ghost use Rattle.std.specs.Prelude.{IfErr, IfSome, OnOk};
ghost use Rattle.elasticlunr_job_format.specs.ObjectsTold.{options_told, texts_told};
ghost use Rattle.elasticlunr_input.specs.Asked.{AreMadeWith, options_of};
ghost use Rattle.elasticlunr_input.specs.Counts.{HasCounts, token_count};
ghost use Rattle.elasticlunr_input.specs.FaultPlaces.{IsPlaceInObjects};
ghost use Rattle.elasticlunr_input.specs.Fields.{fields_of_first};
ghost use Rattle.elasticlunr_diagnostics.specs.Forms.{asked_or_told};
ghost use Rattle.elasticlunr_input.specs.Indexes.{IsIndexOf, IsMadeAs, IsMadeFrom};
ghost use Rattle.elasticlunr_input.specs.Indexes.{IsPlacedIfNotJson};
ghost use Rattle.elasticlunr_input.specs.Indexes.{IsRefusedInput};
ghost use Rattle.elasticlunr_input.specs.Inputs.{IsHeadOf};
ghost use Rattle.elasticlunr_input.specs.Lines.{IsLinesMadeWith};
ghost use Rattle.elasticlunr_input.specs.Mark.{without_mark};
ghost use Rattle.elasticlunr_input.specs.NotedAll.{AreNotedObjects};
ghost use Rattle.elasticlunr_input.specs.NotedFrom.{IsNotedAs, WarnOfInput};
ghost use Rattle.elasticlunr_input.specs.Refused.{IsRefusedObjects};
ghost use Rattle.elasticlunr_diagnostics.specs.Messages.{IfPlaced};
ghost use Rattle.elasticlunr_input.specs.RefusedPlaces.{IsInputPlace};
ghost use Rattle.elasticlunr_input.specs.RefusedRead.{AreRefusedFrom, IfDevice, IsRefusedFrom};
ghost use Rattle.elasticlunr_input.specs.Settled as settled;
ghost use Rattle.elasticlunr_input.specs.Settled.{settings_told};
ghost use Rattle.elasticlunr_input.specs.Warnings.{EndWithWordless, warnings_of};
ghost use Rattle.elasticlunr_text.specs.Text.{Bytes};
ghost use Rattle.elasticlunr_diagnostics.specs.declared.form.Form.TheVariants as form;
ghost use Rattle.serde_json.specs.View.{view};

use crate::counts::Counted;
use crate::documents::{first_fields, note_objects, objects_made_of};
use crate::jobs::{job_made_of, job_refused};
use crate::lines::{check_first, first_value, lines_made_of, read_head};
use crate::mark::{read_start, without_mark};
use crate::notes::Notes;
use crate::references::{reference_name, with_reference};
use crate::settings::{Settings, rules_of, text_or, texts_of, with_stored};
use elasticlunr_diagnostics::form::{Form, asked_or_told, read_value};
use elasticlunr_diagnostics::message::{InputError, wants};
use elasticlunr_documents::lines::LastLine;
pub use elasticlunr_documents::marked::{Marked, MarkedRead};
use elasticlunr_documents::objects::Options;
pub use elasticlunr_job::make::{Line, Make};
use elasticlunr_job::outcome::JobError;
use serde_json::Value;
use std::alloc::{AllocError, Global};
use std::io::Read;

/// What is made of the index of an input; what is suspicious goes to the notes, whose warnings are
/// of no use after an error. A byte order mark before the input is passed over, and no place counts
/// it. Lines are read one by one, and the value of a line is let go before the next one is read; of
/// an input in another form all is read, and held.
pub fn made_from<R: MarkedRead, M: Make>(
    alloc: Global,
    reader: &mut R,
    asked: Option<Form>,
    settings: &Settings,
    notes: &mut Notes,
    maker: &M,
) -> Result<M::Made, InputError>
    ensures ok { IfOk result (λ made. IfSome (R.remaining reader.old) (λ text.
        IsMadeFrom asked (settings_told settings.now) (without_mark text)
        (M.makes maker.now made))) }
    ensures counts { OnOk result (IfSome (R.remaining reader.old) (λ text.
        IsMadeFrom asked (settings_told settings.now) (without_mark text)
        (λ _ plan commands. HasCounts plan commands notes.new.documents (token_count notes.new)))) }
    ensures warnings { OnOk result (IfSome (R.remaining reader.old) (λ text. (earlier : List Bytes)
        × WarnOfInput (asked_or_told asked (without_mark text)) (settings_told settings.now)
        (without_mark text) notes.old earlier
        × IsMadeFrom asked (settings_told settings.now) (without_mark text)
        (λ _ plan commands. EndWithWordless plan commands earlier (warnings_of notes.new)))) }
    ensures err { IfErr result (λ e. IfSome (R.remaining reader.old) (λ text.
        IsRefusedFrom (asked_or_told asked (without_mark text)) (settings_told settings.now)
        (without_mark text) e)) }
    ensures device { IfErr result (IfDevice (R.has_failed reader.new ≡ true)) }
{
    let counted = Counted { alloc, maker };
    match made_of_input(alloc, reader, asked, settings, notes, &counted) {
        Ok((made, counts)) => {
            notes.long_words()?;
            notes.count(&counts)?;
            Ok(made)
        }
        Err(trouble) => Err(blamed(reader, trouble)),
    }
}

/// The text of the index of an input, and a line feed; for the rest as [`made_from`].
pub fn index_from<R: MarkedRead>(
    alloc: Global,
    reader: &mut R,
    asked: Option<Form>,
    settings: &Settings,
    notes: &mut Notes,
) -> Result<String, InputError>
    ensures ok { IfOk result (λ line. IfSome (R.remaining reader.old) (λ text.
        IsIndexOf asked (settings_told settings.now) (without_mark text) (string_bytes line))) }
    ensures counts { OnOk result (IfSome (R.remaining reader.old) (λ text.
        IsMadeFrom asked (settings_told settings.now) (without_mark text)
        (λ _ plan commands. HasCounts plan commands notes.new.documents (token_count notes.new)))) }
    ensures warnings { OnOk result (IfSome (R.remaining reader.old) (λ text. (earlier : List Bytes)
        × WarnOfInput (asked_or_told asked (without_mark text)) (settings_told settings.now)
        (without_mark text) notes.old earlier
        × IsMadeFrom asked (settings_told settings.now) (without_mark text)
        (λ _ plan commands. EndWithWordless plan commands earlier (warnings_of notes.new)))) }
    ensures err { IfErr result (λ e. IfSome (R.remaining reader.old) (λ text.
        IsRefusedFrom (asked_or_told asked (without_mark text)) (settings_told settings.now)
        (without_mark text) e)) }
    ensures device { IfErr result (IfDevice (R.has_failed reader.new ≡ true)) }
{
    made_from(alloc, reader, asked, settings, notes, &Line)
}

/// The same trouble, but that the reader is to blame only where it has failed: what else keeps it
/// from reading on is that there is no memory for what is read.
fn blamed<R: MarkedRead>(reader: &R, trouble: InputError) -> InputError
    ensures device { IfDevice (R.has_failed reader.now ≡ true) result }
    ensures refused { (kind : Form) (asked : settled.Settings) (text : Bytes)
        → IsRefusedFrom kind asked text trouble → IsRefusedFrom kind asked text result }
{
    match trouble {
        InputError::Refused(message) => InputError::Refused(message),
        InputError::Device(e) => {
            if reader.has_failed() {
                InputError::Device(e)
            } else {
                InputError::Memory
            }
        }
        InputError::TooManyLines => InputError::TooManyLines,
        InputError::Memory => InputError::Memory,
    }
}

/// What is made of the index of an input, as far as it is read.
fn made_of_input<R: MarkedRead, M: Make>(
    alloc: Global,
    reader: &mut R,
    asked: Option<Form>,
    settings: &Settings,
    notes: &mut Notes,
    maker: &M,
) -> Result<M::Made, InputError>
    ensures ok { IfOk result (λ made. IfSome (R.remaining reader.old) (λ text.
        IsMadeFrom asked (settings_told settings.now) (without_mark text)
        (M.makes maker.now made))) }
    ensures noted { OnOk result (IfSome (R.remaining reader.old) (λ text.
        IsNotedAs (asked_or_told asked (without_mark text)) (settings_told settings.now)
        (without_mark text) notes.old notes.new)) }
    ensures err { IfErr result (λ e. IfSome (R.remaining reader.old) (λ text.
        IsRefusedFrom (asked_or_told asked (without_mark text)) (settings_told settings.now)
        (without_mark text) e)) }
{
    let start = read_start(alloc, reader)?;
    let mut all = without_mark(&start).chain(reader);
    made_unmarked(alloc, &mut all, asked, settings, notes, maker)
}

/// The same of an input that has no mark before it.
fn made_unmarked<R: MarkedRead, M: Make>(
    alloc: Global,
    reader: &mut R,
    asked: Option<Form>,
    settings: &Settings,
    notes: &mut Notes,
    maker: &M,
) -> Result<M::Made, InputError>
    ensures ok { IfOk result (λ made. IfSome (R.remaining reader.old) (λ text.
        IsMadeFrom asked (settings_told settings.now) text (M.makes maker.now made))) }
    ensures noted { OnOk result (IfSome (R.remaining reader.old) (λ text.
        IsNotedAs (asked_or_told asked text) (settings_told settings.now) text notes.old
        notes.new)) }
    ensures err { IfErr result (λ e. IfSome (R.remaining reader.old) (λ text.
        IsRefusedFrom (asked_or_told asked text) (settings_told settings.now) text e)) }
{
    let mut last = LastLine::new(alloc);
    let mut text = read_head(alloc, reader, &mut last)?;
    match asked_or_told(alloc, &text, asked)? {
        Form::Lines => { made_of_lines(alloc, &text, &mut last, reader, settings, notes, maker) },
        Form::Job => {
            drop(last);
            reader.read_to_end(&mut text)?;
            made_of_job(alloc, &text, settings, notes, maker)
        }
        Form::Objects => {
            drop(last);
            reader.read_to_end(&mut text)?;
            made_of_array(alloc, &text, settings, notes, maker)
        }
    }
}

/// What is made of the index of a job.
fn made_of_job<M: Make>(
    alloc: Global,
    text: &[u8],
    settings: &Settings,
    notes: &mut Notes,
    maker: &M,
) -> Result<M::Made, InputError>
    ensures ok { IfOk result (λ made.
        IsMadeAs form.Job (settings_told settings.now) text.now (M.makes maker.now made)) }
    ensures noted { OnOk result (IsNotedAs form.Job (settings_told settings.now) text.now
        notes.old notes.new) }
    ensures err { IfErr result (IsRefusedInput form.Job (settings_told settings.now) text.now) }
    ensures place { IfErr result (IfPlaced (IsInputPlace form.Job (settings_told settings.now)
        text.now)) }
    ensures placed { IfErr result (IsPlacedIfNotJson form.Job text.now) }
{
    let value = read_value(alloc, text)?;
    match job_made_of(alloc, &value, settings, notes, maker) {
        Ok(made) => Ok(made),
        Err(JobError::Memory) => Err(InputError::Memory),
        Err(JobError::Refused(refusal)) => {
            Err(InputError::Refused(job_refused(alloc, text, &value, settings, refusal)?))
        }
    }
}

/// What is made of the index of an array of objects.
fn made_of_array<M: Make>(
    alloc: Global,
    text: &[u8],
    settings: &Settings,
    notes: &mut Notes,
    maker: &M,
) -> Result<M::Made, InputError>
    ensures ok { IfOk result (λ made.
        IsMadeAs form.Objects (settings_told settings.now) text.now (M.makes maker.now made)) }
    ensures noted { OnOk result (IsNotedAs form.Objects (settings_told settings.now) text.now
        notes.old notes.new) }
    ensures err { IfErr result (IsRefusedInput form.Objects (settings_told settings.now) text.now) }
    ensures place { IfErr result (IfPlaced (IsInputPlace form.Objects (settings_told settings.now)
        text.now)) }
    ensures placed { IfErr result (IsPlacedIfNotJson form.Objects text.now) }
{
    let value = read_value(alloc, text)?;
    let Some(items) = value.as_array() else {
        let message = wants(alloc, text, &[], "the input", &value, "an array of objects")?;
        return Err(InputError::Refused(message));
    };
    made_of_objects(alloc, text, items, settings, notes, maker)
}

/// What is made of the index of a line for each object, the first of which was read last and ends
/// the head.
fn made_of_lines<R: MarkedRead, M: Make>(
    alloc: Global,
    head: &[u8],
    last: &mut LastLine,
    reader: &mut R,
    settings: &Settings,
    notes: &mut Notes,
    maker: &M,
) -> Result<M::Made, InputError>
    ensures ok { IfOk result (λ made. IfSome (R.remaining reader.old) (λ rest.
        IsHeadOf head.now rest last.old.text.items last.old.before
        → IsLinesMadeWith (settings_told settings.now) (head.now ++ rest)
        (M.makes maker.now made))) }
    ensures noted { OnOk result (IfSome (R.remaining reader.old) (λ rest.
        IsHeadOf head.now rest last.old.text.items last.old.before
        → IsNotedAs form.Lines (settings_told settings.now) (head.now ++ rest) notes.old
        notes.new)) }
    ensures err { IfErr result (λ e. IfSome (R.remaining reader.old) (λ rest.
        IsHeadOf head.now rest last.old.text.items last.old.before
        → AreRefusedFrom (settings_told settings.now) (head.now ++ rest) e)) }
{
    let first = first_value(alloc, last)?;
    let items = first.as_slice();
    let reference = reference_field_of(alloc, settings, items)?;
    let options = options_of(alloc, settings, items, reference.as_str())?;
    check_first(alloc, &options, items, last)?;
    notes.begin(&options, settings)?;
    lines_made_of(alloc, &options, head, last, reader, notes, maker)
}

/// What is made of the index of objects.
fn made_of_objects<M: Make>(
    alloc: Global,
    text: &[u8],
    items: &[Value],
    settings: &Settings,
    notes: &mut Notes,
    maker: &M,
) -> Result<M::Made, InputError>
    ensures ok { IfOk result (λ made.
        AreMadeWith (settings_told settings.now) (map view items.now) (M.makes maker.now made)) }
    ensures noted { OnOk result (AreNotedObjects (settings_told settings.now)
        (options_of (settings_told settings.now) (map view items.now)) (map view items.now)
        notes.old notes.new) }
    ensures err { IfErr result (IsRefusedObjects
        (options_of (settings_told settings.now) (map view items.now)) (map view items.now)) }
    ensures place { IfErr result (IfPlaced (IsPlaceInObjects text.now
        (options_of (settings_told settings.now) (map view items.now)) (map view items.now))) }
{
    let reference = reference_field_of(alloc, settings, items)?;
    let options = options_of(alloc, settings, items, reference.as_str())?;
    let made = objects_made_of(alloc, text, items, &options, maker)?;
    notes.begin(&options, settings)?;
    note_objects(alloc, &options, items, notes)?;
    Ok(made)
}

/// The fields of objects: those of the first one, where the settings name none.
fn fields_of<'a>(
    alloc: Global,
    settings: &'a Settings,
    items: &'a [Value],
) -> Result<Vec<&'a str>, AllocError>
    ensures { IfOk result (λ fields. texts_told fields.items
        ≡ (options_of (settings_told settings.now) (map view items.now)).fields) }
{
    let key = text_or(&settings.reference, "id");
    let fields = fields_or_first(alloc, settings, items, key)?;
    let fields = with_reference(settings.indexes_reference, key, fields)?;
    with_stored(alloc, &settings.rules, key, fields)
}

/// The name under which the index of objects has the references.
fn reference_field_of(
    alloc: Global,
    settings: &Settings,
    items: &[Value],
) -> Result<String, AllocError>
    ensures { IfOk result (λ name. string_bytes name
        ≡ (options_of (settings_told settings.now) (map view items.now)).reference_field) }
{
    let key = text_or(&settings.reference, "id");
    if !settings.indexes_reference {
        return String::from_str(alloc, key);
    }
    let fields = fields_of(alloc, settings, items)?;
    reference_name(alloc, key, &fields)
}

/// How objects are read. Their index has the references under this name.
fn options_of<'a>(
    alloc: Global,
    settings: &'a Settings,
    items: &'a [Value],
    reference_field: &'a str,
) -> Result<Options<'a>, AllocError>
    ensures { IfOk result (λ options.
        reference_field.now
        ≡ (options_of (settings_told settings.now) (map view items.now)).reference_field
        → options_told options ≡ options_of (settings_told settings.now) (map view items.now)) }
{
    Ok(Options {
        reference_key: text_or(&settings.reference, "id"),
        reference_field,
        fields: fields_of(alloc, settings, items)?,
        language: text_or(&settings.language, "English"),
        save: !settings.drops_texts,
        pretty: settings.pretty,
        rules: rules_of(alloc, &settings.rules)?,
    })
}

/// The fields of the settings, or else those of the first object.
fn fields_or_first<'a>(
    alloc: Global,
    settings: &'a Settings,
    items: &'a [Value],
    reference_key: &str,
) -> Result<Vec<&'a str>, AllocError>
    ensures { IfOk result (λ fields. texts_told fields.items
        ≡ unwrap_or (settings_told settings.now).fields
        (fields_of_first reference_key.now (map view items.now))) }
{
    match &settings.fields {
        Some(fields) => texts_of(alloc, fields),
        None => fields_of_first(alloc, items, reference_key),
    }
}

/// The fields of the first object, where there is one.
fn fields_of_first<'a>(
    alloc: Global,
    items: &'a [Value],
    reference_key: &str,
) -> Result<Vec<&'a str>, AllocError>
    ensures { IfOk result (λ fields.
        texts_told fields.items ≡ fields_of_first reference_key.now (map view items.now)) }
{
    match items.first() {
        Some(first) => first_fields(alloc, first, reference_key),
        None => Ok(Vec::new(alloc)),
    }
}
