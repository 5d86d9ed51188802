//! The text of the head.
ghost use Rattle.std.specs.Prelude.{◌≡◌, codes, map, string_bytes, IfOk, OnOk};
ghost use Rattle.elasticlunr_json.specs.Tokens.{WritesValue};
ghost use Rattle.elasticlunr_pieces.specs.Head.{all_lengths, counts, field_lengths, head_value};
ghost use Rattle.elasticlunr_pieces.specs.Head.{length_value};
ghost use Rattle.elasticlunr_pieces.specs.HeadTokens.{beginnings_of, WritesMember};
ghost use Rattle.elasticlunr_pieces.specs.Numbers.{told_texts};
ghost use Rattle.elasticlunr_print.specs.Parts.{plan_of_parts};
ghost use Rattle.elasticlunr_print.specs.Printed.{texts};
ghost use Rattle.serde_json.specs.Data.{array, string};
ghost use Rattle.serde_json.specs.Written.{compact_text};

use crate::head_text::HeadText;
use elasticlunr_print::{ELASTICLUNR_VERSION, Parts};
use elasticlunr_store::DocumentStore;
use elasticlunr_store_maps::find::find_length;
use std::alloc::{AllocError, Global};

/// Where the pieces are and begin: their folder, the first token of each piece of the tries, and how
/// many references each piece of the texts and of the titles has. Then the bytes of each piece, and
/// the field of the titles.
#[derive(Clone, Copy)]
pub(crate) struct Places<'a> {
    pub(crate) folder: &'a str,
    pub(crate) tries: &'a [&'a str],
    pub(crate) texts: &'a [usize],
    pub(crate) titles: &'a [usize],
    pub(crate) sizes: &'a [usize],
    pub(crate) title: &'a str,
}

/// The text of the head.
pub(crate) fn head_text(
    alloc: Global,
    parts: Parts<'_>,
    references: &[&str],
    places: Places<'_>,
) -> Result<String, AllocError>
    ensures { IfOk result (λ text. string_bytes text ≡ compact_text (head_value
        (plan_of_parts parts.entry) parts.entry.store.now (told_texts references.now)
        (beginnings_of places.entry))) }
{
    let mut out = HeadText::new(alloc)?;
    out.begin_object()?;
    write_names("fields", parts.fields, &mut out)?;
    write_text("folder", places.folder, &mut out)?;
    write_text("lang", parts.language, &mut out)?;
    write_lengths(parts.store, parts.fields, references, &mut out)?;
    write_names("pipeline", parts.stages, &mut out)?;
    write_text("ref", parts.ref_field, &mut out)?;
    write_texts("references", references, &mut out)?;
    out.key("save")?;
    out.boolean(parts.store.is_stored())?;
    write_counts("sizes", places.sizes, &mut out)?;
    write_counts("texts", places.texts, &mut out)?;
    write_text("title", places.title, &mut out)?;
    write_counts("titles", places.titles, &mut out)?;
    write_texts("tries", places.tries, &mut out)?;
    write_text("version", ELASTICLUNR_VERSION, &mut out)?;
    out.end_object()?;
    Ok(out.into_string())
}

// Writes a text under a key.
fn write_text(key: &str, text: &str, out: &mut HeadText) -> Result<(), AllocError>
    ensures { OnOk result (WritesMember out.old out.new key.now (string text.now)) }
{
    out.key(key)?;
    out.string(text)
}

// Writes an array of names under a key.
fn write_names(key: &str, names: &[String], out: &mut HeadText) -> Result<(), AllocError>
    ensures { OnOk result (WritesMember out.old out.new key.now
        (array (texts (map string_bytes names.now)))) }
{
    out.key(key)?;
    out.begin_array()?;
    for name in names {
        out.string(name.as_str())?;
    }
    out.end_array()
}

// Writes an array of texts under a key.
fn write_texts(key: &str, names: &[&str], out: &mut HeadText) -> Result<(), AllocError>
    ensures { OnOk result (WritesMember out.old out.new key.now
        (array (texts (told_texts names.now)))) }
{
    out.key(key)?;
    out.begin_array()?;
    for name in names {
        out.string(name)?;
    }
    out.end_array()
}

// Writes an array of numbers under a key.
fn write_counts(key: &str, numbers: &[usize], out: &mut HeadText) -> Result<(), AllocError>
    ensures { OnOk result (WritesMember out.old out.new key.now (array (counts numbers.now))) }
{
    out.key(key)?;
    out.begin_array()?;
    for number in numbers {
        out.number(*number as u64)?;
    }
    out.end_array()
}

// Writes for each field the lengths of the references.
fn write_lengths(
    store: &DocumentStore,
    fields: &[String],
    references: &[&str],
    out: &mut HeadText,
) -> Result<(), AllocError>
    ensures { OnOk result (WritesMember out.old out.new (codes "lengths") (array (all_lengths
        store.now (map string_bytes fields.now) (told_texts references.now)))) }
{
    out.key("lengths")?;
    out.begin_array()?;
    for field in fields {
        write_field_lengths(store, field, references, out)?;
    }
    out.end_array()
}

// Writes the lengths of the references in a field.
fn write_field_lengths(
    store: &DocumentStore,
    field: &str,
    references: &[&str],
    out: &mut HeadText,
) -> Result<(), AllocError>
    ensures { OnOk result (WritesValue out.old out.new (array (field_lengths store.now field.now
        (told_texts references.now)))) }
{
    out.begin_array()?;
    for reference in references {
        write_length(find_length(store.doc_info(), reference, field), out)?;
    }
    out.end_array()
}

// Writes a length, or null where there is none.
fn write_length(length: Option<usize>, out: &mut HeadText) -> Result<(), AllocError>
    ensures { OnOk result (WritesValue out.old out.new (length_value length)) }
{
    match length {
        Some(n) => out.number(n as u64),
        None => out.null(),
    }
}
