//! The order of documents doesn't matter.
//!
//! Two pages go into an index, and in the other order into another one. Proved: both print equal
//! texts. A caller has to know that a reference has one document: of two pages with one reference
//! the later one stays, so there the order does matter.
ghost use Rattle.std.specs.Prelude.{◌≡◌, ◌≢◌, ◌∷◌, [], IfErr, IfOk, codes, string_bytes};
ghost use Rattle.elasticlunr.specs.AnyLanguage.TheVariants.{English as english};
ghost use Rattle.elasticlunr.specs.IndexError.TheVariants.{Memory};
ghost use Rattle.elasticlunr.specs.Kept.{IsReadableText};
ghost use Rattle.elasticlunr_uses.specs.Pages.{adding_page, IsTextOf};

use crate::page::Page;
use elasticlunr::{Index, IndexError};
use elasticlunr_laws::documents::two_documents_may_come_in_either_order;
use std::alloc::Global;

/// The texts of the indexes of two pages, in the one order and in the other.
pub fn in_either_order(
    alloc: Global,
    one: Page<'_>,
    other: Page<'_>,
) -> Result<(String, String), IndexError>
    ensures forwards { IfOk result (λ texts.
        IsTextOf (adding_page one.entry ∷ adding_page other.entry ∷ []) (string_bytes texts.0)) }
    ensures backwards { IfOk result (λ texts.
        IsTextOf (adding_page other.entry ∷ adding_page one.entry ∷ []) (string_bytes texts.1)) }
    ensures equal { IfOk result (λ texts. one.entry.reference.now ≢ other.entry.reference.now
        → string_bytes texts.0 ≡ string_bytes texts.1) }
    ensures errors { IfErr result (λ e. e ≡ Memory) }
{
    two_documents_may_come_in_either_order();
    let forwards = in_order(alloc, one, other)?;
    let backwards = in_order(alloc, other, one)?;
    Ok((forwards, backwards))
}

/// The text of the index of two pages, in this order.
pub fn in_order(alloc: Global, first: Page<'_>, second: Page<'_>) -> Result<String, IndexError>
    ensures text { IfOk result (λ text.
        IsTextOf (adding_page first.entry ∷ adding_page second.entry ∷ []) (string_bytes text)) }
    ensures readable { IfOk result (λ text. IsReadableText english (codes "body" ∷ [])
        (adding_page first.entry ∷ adding_page second.entry ∷ []) (string_bytes text)) }
    ensures errors { IfErr result (λ e. e ≡ Memory) }
{
    let mut index = Index::new(alloc, &["body"])?;
    index.add_doc(first.reference, &[first.text])?;
    index.add_doc(second.reference, &[second.text])?;
    index.to_json()
}
