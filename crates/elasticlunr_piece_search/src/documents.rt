//! The documents of a head, with their lengths.
ghost use Rattle.std.specs.Prelude.{◌≡◌, IfOk, OnOk};
ghost use Rattle.elasticlunr_error.specs.Text.{bytes_of};
ghost use Rattle.elasticlunr_store.specs.Contents.{new_contents};
ghost use Rattle.elasticlunr_piece_search.specs.Documents.{columns_of, head_contents};
ghost use Rattle.elasticlunr_piece_search.specs.Documents.{with_all_lengths, with_documents};
ghost use Rattle.elasticlunr_piece_search.specs.Documents.{with_length_of, with_lengths};

use elasticlunr_piece_head::PieceHead;
use elasticlunr_store::DocumentStore;
use std::alloc::{AllocError, Global};
use std::collections::BTreeMap;

/// The documents of a head, with their lengths and without their texts.
pub(crate) fn documents_of(alloc: Global, head: &PieceHead) -> Result<DocumentStore, AllocError>
    ensures { IfOk result (λ store. store ≡ head_contents head.now) }
{
    let mut store = DocumentStore::new(alloc, head.save);
    add_references(alloc, &mut store, &head.references)?;
    add_all_lengths(&mut store, head)?;
    Ok(store)
}

/// Adds a document of each reference.
fn add_references(
    alloc: Global,
    store: &mut DocumentStore,
    references: &[String],
) -> Result<(), AllocError>
    ensures { OnOk result (store.new ≡ with_documents store.old (bytes_of references.now)) }
{
    for reference in references {
        if store
            .add_doc(reference.as_str(), BTreeMap::new(alloc))
            .is_err()
        {
            return Err(AllocError);
        }
    }
    Ok(())
}

/// Sets the lengths of each field.
fn add_all_lengths(store: &mut DocumentStore, head: &PieceHead) -> Result<(), AllocError>
    ensures { OnOk result (store.new ≡ with_all_lengths store.old (bytes_of head.now.fields.items)
        (bytes_of head.now.references.items) (columns_of head.now)) }
{
    for (place, field) in head.fields.iter().enumerate() {
        if let Some(lengths) = head.lengths.get(place) {
            add_lengths(store, &head.references, field.as_str(), lengths)?;
        }
    }
    Ok(())
}

/// Sets the lengths of a field.
fn add_lengths(
    store: &mut DocumentStore,
    references: &[String],
    field: &str,
    lengths: &[Option<usize>],
) -> Result<(), AllocError>
    ensures { OnOk result (store.new
        ≡ with_lengths store.old field.now (bytes_of references.now) lengths.now) }
{
    for (place, reference) in references.iter().enumerate() {
        if let Some(length) = lengths.get(place) {
            add_length(store, reference.as_str(), field, *length)?;
        }
    }
    Ok(())
}

/// Sets a length, if there is one.
fn add_length(
    store: &mut DocumentStore,
    reference: &str,
    field: &str,
    length: Option<usize>,
) -> Result<(), AllocError>
    ensures { OnOk result (store.new ≡ with_length_of store.old field.now reference.now length) }
{
    let Some(length) = length else {
        return Ok(());
    };
    match store.add_field_length(reference, field, length) {
        Ok(()) => Ok(()),
        Err(_) => Err(AllocError),
    }
}
