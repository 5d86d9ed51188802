//! The rows of a cut, looked up by the last two characters of the text.
ghost use Rattle.std.specs.Prelude.{◌≡◌, ◌<◌, ℕ, length};
ghost use Rattle.std.specs.List.{filter};
ghost use Rattle.elasticlunr_stems.specs.RowViews.{rows_of, listed_rows, may_end};

use crate::row::Row;

/// The rows of a cut, and 64 lists of them. The last two characters of a text have the number of a
/// list, and the list has the rows whose suffix may end the text, in their order: so few are tried.
#[derive(Drop)]
pub struct Suffixes {
    pub rows: Vec<Row>,
    lists: Vec<Vec<Row>>,
    ghost many: { length lists.items ≡ 64 },
    ghost each: { (number : ℕ) → number < 64 → listed_rows lists.items number
        ≡ filter (may_end number) (rows_of rows.items) },
}

mod lists;
