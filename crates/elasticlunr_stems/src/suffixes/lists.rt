//! The lists of rows.
ghost use Rattle.std.specs.Prelude.{◌≡◌, ◌<◌, ◌+◌, ◌*◌, ◌%◌, ℕ, true, IfOk, IsTrue, List, reverse};
ghost use Rattle.std.specs.List.{filter};
ghost use Rattle.elasticlunr_stems.specs.Stems.{longest};
ghost use Rattle.elasticlunr_stems.specs.Safe.{are_longest_first};
ghost use Rattle.elasticlunr_stems.specs.RowViews.{row_of, rows_of, begins_in, may_end};
ghost use Rattle.elasticlunr_stems.specs.Runs.{Cuts};

use super::Suffixes;
use crate::ends;
use crate::row::Row;
use std::alloc::{AllocError, Global};

/// How many lists there are.
const LISTS: usize = 64;

/// The number of the two last characters.
fn number_of(last: char, before: char) -> usize
    ensures { result ≡ (last + 7 * before) % 64 }
{
    (last as usize + 7 * before as usize) % LISTS
}

/// The number of the list for a text.
fn number_for(text: &[char]) -> usize
    ensures last { begins_in result (reverse text.now) ≡ true }
    ensures below { result < 64 }
{
    match text {
        [.., before, last] => number_of(*last, *before),
        _ => 0,
    }
}

/// A text for the list may end with the suffix.
fn may_end(number: usize, row: &Row) -> bool
    ensures { result ≡ may_end number (row_of row.now) }
{
    match row.suffix.as_slice() {
        [.., before, last] => number_of(*last, *before) == number,
        _ => true,
    }
}

/// The rows of the list.
fn list_of(alloc: Global, rows: &[Row], number: usize) -> Result<Vec<Row>, AllocError>
    ensures { IfOk result (λ list. rows_of list.items
        ≡ filter (may_end number) (rows_of rows.now)) }
{
    let mut list = Vec::new(alloc);
    for row in rows {
        if may_end(number, row) {
            list.push(Row {
                suffix: row.suffix.as_slice().to_vec(alloc)?,
                step: row.step,
            })?;
        }
    }
    Ok(list)
}

impl Suffixes {
    /// The rows with their lists.
    pub fn new(alloc: Global, rows: Vec<Row>) -> Result<Self, AllocError>
        ensures { IfOk result (λ suffixes. rows_of suffixes.rows.items ≡ rows_of rows.items) }
    {
        let mut lists = Vec::new(alloc);
        for number in 0..LISTS {
            lists.push(list_of(alloc, rows.as_slice(), number)?)?;
        }
        Ok(Suffixes { rows, lists })
    }

    /// The step of the row with the longest suffix, and the length of what stands before it.
    pub fn longest(&self, text: &[char], region: usize) -> Option<(usize, usize)>
        requires { IsTrue (are_longest_first (rows_of self.now.rows.items)) }
        ensures { Cuts (longest region text.now (rows_of self.now.rows.items)) text.now result }
    {
        let list = &self.lists[number_for(text)];
        ends::longest(list.as_slice(), text, region)
    }
}
