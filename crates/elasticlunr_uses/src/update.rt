//! An update.
//!
//! Three pages go into an index; then one has another text, one is removed, and the index is
//! compacted. Proved: its text is that of a new index of the pages that remain. A caller has to
//! know that only a compaction forgets the words of the old text and of the removed page.
ghost use Rattle.std.specs.Prelude.{◌≡◌, ◌≢◌, ◌∷◌, [], IfErr, IfOk, string_bytes};
ghost use Rattle.elasticlunr.specs.Calls.{compacting};
ghost use Rattle.elasticlunr.specs.IndexError.TheVariants.{Memory};
ghost use Rattle.elasticlunr_uses.specs.Pages.{adding_page, adding_text, removing_page, IsTextOf};

use crate::order::in_order;
use crate::page::Page;
use elasticlunr::{Index, IndexError};
use elasticlunr_laws::documents::a_compacted_index_prints_as_a_new_one;
use std::alloc::Global;

/// The text of an index that was brought up to date, and that of a new index of what remains.
pub fn updated_and_new(
    alloc: Global,
    stays: Page<'_>,
    changes: Page<'_>,
    goes: Page<'_>,
    new_text: &str,
) -> Result<(String, String), IndexError>
    ensures updated { IfOk result (λ texts.
        IsTextOf (adding_page stays.entry ∷ adding_page changes.entry ∷ adding_page goes.entry
        ∷ adding_text changes.entry new_text.now ∷ removing_page goes.entry ∷ compacting ∷ [])
        (string_bytes texts.0)) }
    ensures new { IfOk result (λ texts.
        IsTextOf (adding_page stays.entry ∷ adding_text changes.entry new_text.now ∷ [])
        (string_bytes texts.1)) }
    ensures equal { IfOk result (λ texts. stays.entry.reference.now ≢ changes.entry.reference.now
        → stays.entry.reference.now ≢ goes.entry.reference.now
        → changes.entry.reference.now ≢ goes.entry.reference.now → string_bytes texts.0
        ≡ string_bytes texts.1) }
    ensures errors { IfErr result (λ e. e ≡ Memory) }
{
    a_compacted_index_prints_as_a_new_one();
    let changed = Page {
        reference: changes.reference,
        text: new_text,
    };
    let updated = updated(alloc, stays, changes, goes, changed)?;
    let new = in_order(alloc, stays, changed)?;
    Ok((updated, new))
}

/// The text of an index of three pages, of which one was changed and one removed.
fn updated(
    alloc: Global,
    stays: Page<'_>,
    changes: Page<'_>,
    goes: Page<'_>,
    changed: Page<'_>,
) -> Result<String, IndexError>
    ensures text { IfOk result (λ text.
        IsTextOf (adding_page stays.entry ∷ adding_page changes.entry ∷ adding_page goes.entry
        ∷ adding_page changed.entry ∷ removing_page goes.entry ∷ compacting ∷ [])
        (string_bytes text)) }
    ensures errors { IfErr result (λ e. e ≡ Memory) }
{
    let mut index = Index::new(alloc, &["body"])?;
    index.add_doc(stays.reference, &[stays.text])?;
    index.add_doc(changes.reference, &[changes.text])?;
    index.add_doc(goes.reference, &[goes.text])?;
    index.add_doc(changed.reference, &[changed.text])?;
    index.remove_doc(goes.reference)?;
    index.compact()?;
    index.to_json()
}
