//! Reads tables.
ghost use Rattle.std.specs.Prelude.{◌≡◌, map, IfOk, IfErr, List, ℕ, option_map, Some, None, Err};
ghost use Rattle.std.specs.Prelude.{IfSome, ◌⊎◌};
ghost use Rattle.std.specs.Str.{chars};
ghost use Rattle.elasticlunr_error.specs.Text.{Text};
ghost use Rattle.elasticlunr_stems.specs.Safe.{are_safe};
ghost use Rattle.elasticlunr_stems.specs.Reading.{flag_in, step_in, steps_in, words_of, marks_in};
ghost use Rattle.elasticlunr_stems.specs.Reading.{table_in, lines_of, lined_table};
ghost use Rattle.elasticlunr_stems.specs.Views.{texts, step_of, mark_of, steps_of};
ghost use Rattle.elasticlunr_stems.specs.Held.{table_of};

use crate::kinds::kind_in;
use crate::step::{Mark, Step};
use crate::words::{number_in, words_of};
use std::alloc::{AllocError, Global};

fn flag_in(letter: char, c: char) -> Option<bool>
    ensures { result ≡ flag_in letter c }
{
    if c == letter {
        Some(true)
    } else if c == '-' {
        Some(false)
    } else {
        None
    }
}

fn step_in(alloc: Global, words: &[&[char]]) -> Result<Option<Step>, AllocError>
    ensures { IfOk result (λ step. option_map step_of step ≡ step_in (texts words.now)) }
{
    let Some((head, words)) = words.split_first() else {
        return Ok(None);
    };
    let [sign, shortens, applies] = *head else {
        return Ok(None);
    };
    let Some(only_shortens) = flag_in('s', *shortens) else {
        return Ok(None);
    };
    let Some(always_applies) = flag_in('a', *applies) else {
        return Ok(None);
    };
    match kind_in(alloc, *sign, words)? {
        Some(kind) => Ok(Some(Step {
            only_shortens,
            always_applies,
            kind,
        })),
        None => Ok(None),
    }
}

pub fn steps_in(alloc: Global, lines: &[&[char]]) -> Result<Option<Vec<Step>>, AllocError>
    ensures { IfOk result (λ steps. option_map (λ steps. map step_of steps.items) steps
        ≡ steps_in (texts lines.now)) }
{
    let mut steps = Vec::new(alloc);
    for line in lines {
        let words = words_of(alloc, line)?;
        match step_in(alloc, words.as_slice())? {
            Some(step) => steps.push(step)?,
            None => return Ok(None),
        }
    }
    Ok(Some(steps))
}

pub fn marks_in(alloc: Global, words: &[&[char]]) -> Result<Option<Vec<Mark>>, AllocError>
    ensures { IfOk result (λ marks. option_map (λ marks. map mark_of marks.items) marks
        ≡ marks_in (texts words.now)) }
{
    let mut marks = Vec::new(alloc);
    let mut rest = words;
    while let [step, least, more @ ..] = rest {
        let (Some(step), Some(least)) = (number_in(step), number_in(least)) else {
            return Ok(None);
        };
        marks.push(Mark { step, least })?;
        rest = more;
    }
    if rest.is_empty() {
        Ok(Some(marks))
    } else {
        Ok(None)
    }
}
