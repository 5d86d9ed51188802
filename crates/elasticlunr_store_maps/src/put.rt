//! Setting what a store has of a reference.
ghost use Rattle.std.specs.Prelude.{◌≡◌, OnOk, OnErr, IfOk};
ghost use Rattle.std.specs.FinMap.{insert, empty};
ghost use Rattle.elasticlunr_store_maps.specs.Contents.{text_map, length_map, document_texts};
ghost use Rattle.elasticlunr_store_maps.specs.Contents.{document_lengths, lengths_with};

use std::alloc::{AllocError, Global};
use std::collections::BTreeMap;

/// Sets the texts of a reference.
pub fn put_texts(
    alloc: Global,
    docs: &mut BTreeMap<String, BTreeMap<String, String>>,
    doc_ref: &str,
    texts: BTreeMap<String, String>,
) -> Result<(), AllocError>
    ensures ok { OnOk result (document_texts docs.new.entries
        ≡ insert (document_texts docs.old.entries) doc_ref.now (text_map texts.entries)) }
    ensures err { OnErr result (document_texts docs.new.entries ≡ document_texts docs.old.entries) }
{
    docs.insert(String::from_str(alloc, doc_ref)?, texts)?;
    Ok(())
}

/// Sets the lengths of a reference.
pub fn put_lengths(
    alloc: Global,
    doc_info: &mut BTreeMap<String, BTreeMap<String, usize>>,
    doc_ref: &str,
    lengths: BTreeMap<String, usize>,
) -> Result<(), AllocError>
    ensures ok { OnOk result (document_lengths doc_info.new.entries
        ≡ insert (document_lengths doc_info.old.entries) doc_ref.now (length_map lengths.entries)) }
    ensures err { OnErr result (document_lengths doc_info.new.entries
        ≡ document_lengths doc_info.old.entries) }
{
    doc_info.insert(String::from_str(alloc, doc_ref)?, lengths)?;
    Ok(())
}

// Sets the length of a field.
fn put_length(
    alloc: Global,
    lengths: &mut BTreeMap<String, usize>,
    field: &str,
    length: usize,
) -> Result<(), AllocError>
    ensures ok { OnOk result (length_map lengths.new.entries
        ≡ insert (length_map lengths.old.entries) field.now length) }
    ensures err { OnErr result (length_map lengths.new.entries ≡ length_map lengths.old.entries) }
{
    lengths.insert(String::from_str(alloc, field)?, length)?;
    Ok(())
}

// A map with the length of one field.
fn one_length(
    alloc: Global,
    field: &str,
    length: usize,
) -> Result<BTreeMap<String, usize>, AllocError>
    ensures { IfOk result (λ lengths. length_map lengths.entries ≡ insert empty field.now length) }
{
    let mut lengths = BTreeMap::new(alloc);
    put_length(alloc, &mut lengths, field, length)?;
    Ok(lengths)
}

/// Sets the length of a field of a reference.
pub fn set_length(
    alloc: Global,
    doc_info: &mut BTreeMap<String, BTreeMap<String, usize>>,
    doc_ref: &str,
    field: &str,
    length: usize,
) -> Result<(), AllocError>
    ensures ok { OnOk result (document_lengths doc_info.new.entries
        ≡ lengths_with (document_lengths doc_info.old.entries) doc_ref.now field.now length) }
    ensures err { OnErr result (document_lengths doc_info.new.entries
        ≡ document_lengths doc_info.old.entries) }
{
    match doc_info.get_mut(doc_ref) {
        Some(lengths) => put_length(alloc, lengths, field, length),
        None => {
            let lengths = one_length(alloc, field, length)?;
            put_lengths(alloc, doc_info, doc_ref, lengths)
        }
    }
}
