//! The name that was meant.
ghost use Rattle.std.specs.Prelude.{◌≡◌, IfOk};
ghost use Rattle.elasticlunr_diagnostics.specs.Nearest.{IsNearest, edits, few, small};

use std::alloc::{AllocError, Global};
use strsim::damerau_levenshtein;

/// The first of the names that the fewest edits lead to, where these are few: a third of the bytes
/// at most, and one at least. Capitals are as their small letters.
pub fn nearest<'a>(
    alloc: Global,
    asked: &str,
    names: &[&'a str],
) -> Result<Option<&'a str>, AllocError>
    ensures { IfOk result (IsNearest (λ name. edits (small asked.now) (small name.now))
        (few asked.now) names.now) }
{
    let asked = asked.to_ascii_lowercase(alloc)?;
    let mut best = None;
    let mut too_many = (asked.len() / 3).max(1) + 1;
    for name in names {
        let edits = edits(alloc, asked.as_str(), name)?;
        if edits < too_many {
            too_many = edits;
            best = Some(*name);
        }
    }
    Ok(best)
}

/// How many edits lead from a text in small letters to a name.
fn edits(alloc: Global, asked: &str, name: &str) -> Result<usize, AllocError>
    ensures { IfOk result (λ n. n ≡ edits asked.now (small name.now)) }
{
    let small = name.to_ascii_lowercase(alloc)?;
    damerau_levenshtein(alloc, asked, small.as_str())
}
