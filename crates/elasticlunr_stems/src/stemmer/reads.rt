//! A stemmer from the text of its table.
ghost use Rattle.std.specs.Prelude.{◌≡◌, IfOk, IfErr, IfSome, Err, Some, None, false, map};
ghost use Rattle.std.specs.Prelude.{option_map, List};
ghost use Rattle.std.specs.Str.{chars};
ghost use Rattle.elasticlunr_error.specs.Text.{Text};
ghost use Rattle.elasticlunr_stems.specs.Tables.{Table};
ghost use Rattle.elasticlunr_stems.specs.Safe.{are_safe};
ghost use Rattle.elasticlunr_stems.specs.Reading.{table_in, lined_table, headed_table, words_of};
ghost use Rattle.elasticlunr_stems.specs.Reading.{read_then};
ghost use Rattle.elasticlunr_stems.specs.Views.{texts, steps_of};
ghost use Rattle.elasticlunr_stems.specs.Held.{table_of, Refuses};

use super::Stemmer;
use crate::error::TableError;
use crate::safe::are_safe;
use crate::step::Step;
use crate::text::letters_of;
use crate::{read, words};
use std::alloc::Global;

/// A stemmer of the steps, by the words of the first line.
fn from_head(alloc: Global, words: &[&[char]], steps: Vec<Step>) -> Result<Stemmer, TableError>
    ensures read { IfOk result (λ stemmer. headed_table (texts words.now) (steps_of steps.items)
        ≡ Some (table_of stemmer)) }
    ensures refused { IfErr result (λ error. Refuses error (headed_table (texts words.now)
        (steps_of steps.items))) }
{
    let [before, main, marks @ ..] = words else {
        return Err(TableError::NoTable);
    };
    let (Some(before), Some(main)) = (words::number_in(before), words::number_in(main)) else {
        return Err(TableError::NoTable);
    };
    let Some(marks) = read::marks_in(alloc, marks)? else {
        return Err(TableError::NoTable);
    };
    if !are_safe(steps.as_slice()) {
        return Err(TableError::NotSafe);
    }
    Ok(Stemmer {
        steps,
        before,
        marks,
        main,
    })
}

fn from_lines(alloc: Global, lines: &[&[char]]) -> Result<Stemmer, TableError>
    ensures read { IfOk result (λ stemmer. lined_table (texts lines.now)
        ≡ Some (table_of stemmer)) }
    ensures refused { IfErr result (λ error. Refuses error (lined_table (texts lines.now))) }
{
    let Some((head, lines)) = lines.split_first() else {
        return Err(TableError::NoTable);
    };
    let Some(steps) = read::steps_in(alloc, lines)? else {
        return Err(TableError::NoTable);
    };
    let words = words::words_of(alloc, head)?;
    from_head(alloc, words.as_slice(), steps)
}

impl Stemmer {
    /// The stemmer whose table the text is. A table that is not safe is refused.
    pub fn read(alloc: Global, table: &str) -> Result<Self, TableError>
        ensures read { IfOk result (λ stemmer. table_in (chars table.now)
            ≡ Some (table_of stemmer)) }
        ensures refused { IfErr result (λ error. Refuses error (table_in (chars table.now))) }
    {
        let letters = letters_of(alloc, table)?;
        let lines = words::lines_of(alloc, letters.as_slice())?;
        from_lines(alloc, lines.as_slice())
    }
}
