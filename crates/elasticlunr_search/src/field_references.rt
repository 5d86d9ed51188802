//! The references that have a length in a field, in the order of their bytes.
//!
//! In an index of this library each posting of a field's trie has one of them as its reference.

use elasticlunr_store::DocumentStore;
use std::alloc::{AllocError, Global};
use std::collections::BTreeMap;

/// The references of each field, by its name.
pub(crate) type FieldReferences<'a> = BTreeMap<&'a str, Vec<&'a str>>;

/// The references of each field of a store. The work is in proportion to its lengths, each with a
/// look-up of its field.
pub(crate) fn references_by_field<'a>(
    alloc: Global,
    store: &'a DocumentStore,
) -> Result<FieldReferences<'a>, AllocError> {
    let mut by_field = BTreeMap::new(alloc);
    for (reference, lengths) in store.doc_info().iter() {
        for (field, _length) in lengths.iter() {
            add_reference(alloc, &mut by_field, field.as_str(), reference.as_str())?;
        }
    }
    Ok(by_field)
}

/// Adds a reference to those of a field.
fn add_reference<'a>(
    alloc: Global,
    by_field: &mut FieldReferences<'a>,
    field: &'a str,
    reference: &'a str,
) -> Result<(), AllocError> {
    match by_field.get_mut(field) {
        Some(references) => references.push(reference)?,
        None => {
            let mut references = Vec::new(alloc);
            references.push(reference)?;
            by_field.insert(field, references)?;
        }
    }
    Ok(())
}

/// The place after that of a reference, if it stands at a place of the references or after it. One
/// that stands near is found in a few steps, and any by a binary search.
pub(crate) fn place_after(references: &[&str], from: usize, reference: &str) -> Option<usize> {
    let mut begin = from;
    let mut width = 1;
    'parts: while begin < references.len() {
        let end = begin.saturating_add(width).min(references.len());
        let part = &references[begin..end];
        match part.last() {
            Some(last) if *last < reference => {
                begin = end;
                width = width.saturating_mul(2);
            }
            _ => {
                let at = part.binary_search(&reference).ok()?;
                return Some(begin + at + 1);
            }
        }
    }
    None
}
