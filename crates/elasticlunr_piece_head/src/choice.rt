//! Which pieces can have a token.
ghost use Rattle.std.specs.Prelude.{◌≡◌, ◌<◌, ◌≤◌, ◌↔◌, ◌⊎◌, ℕ, IsTrue, OnOk, Some, length, nat_eq};
ghost use Rattle.std.specs.Prelude.{string_bytes};
ghost use Rattle.std.specs.BTreeSet.{contains};
ghost use Rattle.std.specs.List.{starts_with};
ghost use Rattle.std.specs.List.Sorted.{IsStrictlySortedBy};
ghost use Rattle.std.specs.Ordering.{nat_cmp};
ghost use Rattle.elasticlunr_error.specs.Text.{bytes_of, text_cmp};
ghost use Rattle.elasticlunr_piece_head.specs.Choice.{Ends, IsNeeded, Splits};

use std::alloc::AllocError;
use std::collections::BTreeSet;

/// Numbers of pieces, from one up to another one.
#[derive(Clone, Copy)]
pub struct PieceRange {
    pub from: usize,
    pub end: usize,
}

/// The pieces that can have this token, or with `expand` one that begins with it. They have these
/// first tokens.
pub(crate) fn range_for(firsts: &[String], token: &String, expand: bool) -> PieceRange
    ensures { IsStrictlySortedBy text_cmp (bytes_of firsts.now) → (number : ℕ)
        → ((result.from ≤ number) × (number < result.end))
        ↔ IsNeeded (bytes_of firsts.now) expand (string_bytes token.now) number }
{
    let after = count_up_to(firsts, token);
    let end = if expand {
        end_of_longer(firsts, token.as_str(), after)
    } else {
        after
    };
    PieceRange {
        from: after.saturating_sub(1),
        end,
    }
}

/// Puts the numbers of a range into a set.
pub(crate) fn put_range(range: PieceRange, numbers: &mut BTreeSet<usize>) -> Result<(), AllocError>
    ensures { OnOk result ((n : ℕ) → IsTrue (contains nat_cmp numbers.new n)
        ↔ (IsTrue (contains nat_cmp numbers.old n) ⊎ ((range.from ≤ n) × (n < range.end)))) }
{
    for number in range.from..range.end {
        numbers.insert(number)?;
    }
    Ok(())
}

/// Puts a number, if there is one, into a set.
pub(crate) fn put_number(
    number: Option<usize>,
    numbers: &mut BTreeSet<usize>,
) -> Result<(), AllocError>
    ensures { OnOk result ((n : ℕ) → IsTrue (contains nat_cmp numbers.new n)
        ↔ (IsTrue (contains nat_cmp numbers.old n) ⊎ (number ≡ Some n))) }
{
    if let Some(number) = number {
        numbers.insert(number)?;
    }
    Ok(())
}

/// How many of these texts, which rise, are not above this one.
fn count_up_to(texts: &[String], text: &String) -> usize
    ensures { IsStrictlySortedBy text_cmp (bytes_of texts.now)
        → Splits (bytes_of texts.now) (string_bytes text.now) result }
{
    match texts.binary_search(text) {
        Ok(place) => place + 1,
        Err(place) => place,
    }
}

/// From this place on, the first one whose text doesn't begin so.
fn end_of_longer(texts: &[String], beginning: &str, from: usize) -> usize
    ensures { from ≤ length texts.now → Ends (bytes_of texts.now) beginning.now from result }
{
    for place in from..texts.len() {
        if !begins_with(texts[place].as_str(), beginning) {
            return place;
        }
    }
    texts.len()
}

/// Whether a text begins so.
fn begins_with(text: &str, beginning: &str) -> bool
    ensures { result ≡ starts_with nat_eq text.now beginning.now }
{
    text.as_bytes().starts_with(beginning.as_bytes())
}
