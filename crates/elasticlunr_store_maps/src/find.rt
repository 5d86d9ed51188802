//! Looking up what a store has of a reference.
ghost use Rattle.std.specs.Prelude.{◌≡◌};
ghost use Rattle.std.specs.Option.{option_and_then};
ghost use Rattle.std.specs.FinMap.{get};
ghost use Rattle.elasticlunr_store_maps.specs.Contents.{document_lengths};

use std::collections::BTreeMap;

/// The length of a field of a reference.
pub fn find_length(
    doc_info: &BTreeMap<String, BTreeMap<String, usize>>,
    doc_ref: &str,
    field: &str,
) -> Option<usize>
    ensures { result ≡ option_and_then (λ lengths. get lengths field.now)
        (get (document_lengths doc_info.now.entries) doc_ref.now) }
{
    doc_info.get(doc_ref)?.get(field).copied()
}
