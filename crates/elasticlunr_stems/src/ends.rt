//! What is taken off the end of a text.
ghost use Rattle.std.specs.Prelude.{◌≡◌, ◌≤◌, IsTrue, reverse, take, length, map, nat_le, Some};
ghost use Rattle.std.specs.Prelude.{None};
ghost use Rattle.std.specs.Prelude.{if◌then◌else◌};
ghost use Rattle.std.specs.List.{list_any};
ghost use Rattle.elasticlunr_stems.specs.Tables.{is_in};
ghost use Rattle.elasticlunr_stems.specs.Stems.{one_off, twin_off, run_off, longest};
ghost use Rattle.elasticlunr_stems.specs.Safe.{are_longest_first};
ghost use Rattle.elasticlunr_stems.specs.Views.{class_of};
ghost use Rattle.elasticlunr_stems.specs.RowViews.{row_of};
ghost use Rattle.elasticlunr_stems.specs.Runs.{Shortens, Cuts};

use crate::class::Class;
use crate::row::Row;

/// The length without the last character, if that is in the class.
pub fn one_off(class: &Class, text: &[char]) -> Option<usize>
    ensures { Shortens (one_off (is_in (class_of class.now)) (reverse text.now)) text.now result }
{
    let (last, front) = text.split_last()?;
    if class.contains(*last) {
        Some(front.len())
    } else {
        None
    }
}

/// The length without the last character, if that is in the class and stands twice.
pub fn twin_off(class: &Class, text: &[char]) -> Option<usize>
    ensures { Shortens (twin_off (is_in (class_of class.now)) (reverse text.now)) text.now result }
{
    let (last, front) = text.split_last()?;
    let (before, _) = front.split_last()?;
    if class.contains(*last) && *last == *before {
        Some(front.len())
    } else {
        None
    }
}

/// The length without the characters of the class at the end.
pub fn run_off(class: &Class, text: &[char]) -> usize
    ensures left { run_off (is_in (class_of class.now)) (reverse text.now) ≡ take result text.now }
    ensures shorter { result ≤ length text.now }
{
    let mut rest = text;
    while let Some((last, front)) = rest.split_last() {
        if !class.contains(*last) {
            break;
        }
        rest = front;
    }
    rest.len()
}

/// The step of the row with the longest suffix, and the length of what stands before it.
pub fn longest(rows: &[Row], text: &[char], region: usize) -> Option<(usize, usize)>
    requires { IsTrue (are_longest_first (map row_of rows.now)) }
    ensures { Cuts (longest region text.now (map row_of rows.now)) text.now result }
{
    for row in rows {
        if let Some(front) = text.strip_suffix(row.suffix.as_slice())
            && region <= front.len()
        {
            return Some((row.step, front.len()));
        }
    }
    None
}

/// The length, if the text reaches the region.
pub fn within(len: usize, region: usize) -> Option<usize>
    ensures { result ≡ (if nat_le region len then Some len else None) }
{
    if region <= len { Some(len) } else { None }
}

/// A character of the text is in the class.
pub fn has_any(class: &Class, text: &[char]) -> bool
    ensures { result ≡ list_any (is_in (class_of class.now)) text.now }
{
    text.iter().any(|c| class.contains(*c))
}
