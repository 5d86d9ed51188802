//! Names that differ, and texts that stand in order.
ghost use Rattle.std.specs.Prelude.{◌≡◌, ◌≢◌, AllPairs, Decides, IfOk};
ghost use Rattle.std.specs.List.Sorted.{IsStrictlySortedBy};
ghost use Rattle.elasticlunr_error.specs.Text.{bytes_of, text_cmp};

use std::alloc::{AllocError, Global};
use std::cmp::Ordering;
use std::collections::BTreeSet;

/// Whether no two of the names are the same.
pub(crate) fn are_different(alloc: Global, names: &[String]) -> Result<bool, AllocError>
    ensures { IfOk result (λ is. Decides is
        (AllPairs (λ name other. name ≢ other) (bytes_of names.now))) }
{
    let mut seen = BTreeSet::new(alloc);
    for name in names {
        if !seen.insert(name.as_str())? {
            return Ok(false);
        }
    }
    Ok(true)
}

/// Whether each text is above the one before it, in the order of their bytes.
pub(crate) fn rise(texts: &[String]) -> bool
    ensures { Decides result (IsStrictlySortedBy text_cmp (bytes_of texts.now)) }
{
    for place in 1..texts.len() {
        match texts[place - 1].cmp(&texts[place]) {
            Ordering::Less => {}
            Ordering::Equal | Ordering::Greater => return false,
        }
    }
    true
}
