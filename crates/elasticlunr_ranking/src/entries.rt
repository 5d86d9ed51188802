//! The entries of a map.
ghost use Rattle.std.specs.Prelude.{◌≡◌, IfOk};
ghost use Rattle.std.specs.BTreeMap.{IsOrdered};
ghost use Rattle.elasticlunr_error.specs.Text.{text_cmp};

use std::alloc::{AllocError, Global};
use std::collections::BTreeMap;

/// The references of a map, each with what the map has of it, in the order of their bytes.
pub(crate) fn entries_of<'a, X: Copy + Drop>(
    alloc: Global,
    map: &BTreeMap<&'a str, X>,
) -> Result<Vec<(&'a str, X)>, AllocError>
    ensures same { IfOk result (λ list. list.items ≡ map.now.entries) }
    ensures order { IfOk result (λ _. IsOrdered (λ x y. text_cmp x.now y.now) map.now) }
{
    let mut list = Vec::with_capacity(alloc, map.len())?;
    for (reference, x) in map.iter() {
        list.push((*reference, *x))?;
    }
    Ok(list)
}
