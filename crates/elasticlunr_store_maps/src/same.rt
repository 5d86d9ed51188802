//! Comparing maps of texts and of lengths.
ghost use Rattle.std.specs.Prelude.{◌≡◌, nat_eq};
ghost use Rattle.std.specs.Str.{bytes_eq};
ghost use Rattle.elasticlunr_json.specs.Maps.{same_map};
ghost use Rattle.elasticlunr_store_maps.specs.Contents.{text_map, length_map, document_texts};
ghost use Rattle.elasticlunr_store_maps.specs.Contents.{document_lengths};

use std::collections::BTreeMap;

// Whether two maps have the same texts.
fn same_texts(a: &BTreeMap<String, String>, b: &BTreeMap<String, String>) -> bool
    ensures { result ≡ same_map bytes_eq (text_map a.now.entries) (text_map b.now.entries) }
{
    if a.len() != b.len() {
        return false;
    }
    *a == *b
}

// Whether two maps have the same lengths.
fn same_lengths(a: &BTreeMap<String, usize>, b: &BTreeMap<String, usize>) -> bool
    ensures { result ≡ same_map nat_eq (length_map a.now.entries) (length_map b.now.entries) }
{
    if a.len() != b.len() {
        return false;
    }
    *a == *b
}

/// Whether two maps have the same texts of documents.
pub fn same_document_texts(
    a: &BTreeMap<String, BTreeMap<String, String>>,
    b: &BTreeMap<String, BTreeMap<String, String>>,
) -> bool
    ensures { result ≡ same_map (same_map bytes_eq) (document_texts a.now.entries)
        (document_texts b.now.entries) }
{
    let mut others = b.iter();
    for (doc_ref, texts) in a.iter() {
        match others.next() {
            Some((other_ref, other)) => {
                if doc_ref.as_str() != other_ref.as_str() {
                    return false;
                }
                if !same_texts(texts, other) {
                    return false;
                }
            }
            None => return false,
        }
    }
    others.next().is_none()
}

/// Whether two maps have the same lengths of documents.
pub fn same_document_lengths(
    a: &BTreeMap<String, BTreeMap<String, usize>>,
    b: &BTreeMap<String, BTreeMap<String, usize>>,
) -> bool
    ensures { result ≡ same_map (same_map nat_eq) (document_lengths a.now.entries)
        (document_lengths b.now.entries) }
{
    let mut others = b.iter();
    for (doc_ref, lengths) in a.iter() {
        match others.next() {
            Some((other_ref, other)) => {
                if doc_ref.as_str() != other_ref.as_str() {
                    return false;
                }
                if !same_lengths(lengths, other) {
                    return false;
                }
            }
            None => return false,
        }
    }
    others.next().is_none()
}
