//! The stems of words.
ghost use Rattle.std.specs.Prelude.{◌≡◌, ◌≤◌, ◌∷◌, ◌++◌, [], ℕ, IsTrue, IfOk, List, map, take};
ghost use Rattle.std.specs.Prelude.{length, reverse};
ghost use Rattle.elasticlunr_error.specs.Text.{Text, text_of};
ghost use Rattle.elasticlunr_stems.specs.Tables.{Mark as MarkOf};
ghost use Rattle.elasticlunr_stems.specs.Stems.{after, region_of, regions_of, stem_of};
ghost use Rattle.elasticlunr_stems.specs.Safe.{are_safe};
ghost use Rattle.elasticlunr_stems.specs.Views.{steps_of, mark_of, IsSafeRun};
ghost use Rattle.elasticlunr_stems.specs.Held.{table_of};

use super::Stemmer;
use crate::interpreter::Interpreter;
use crate::step::Mark;
use crate::text;
use std::alloc::{AllocError, Global};

/// How deep steps are nested at most.
const DEEPEST: usize = 400;

/// What the step makes of the text in the buffer, or the text, if it does not apply.
fn after(
    interpreter: &Interpreter,
    number: usize,
    buffer: &mut Vec<char>,
    len: usize,
) -> Result<usize, AllocError>
    requires safe { IsSafeRun interpreter.now }
    requires within { len ≤ length buffer.old.items }
    ensures text { IfOk result (λ new. take new buffer.new.items
        ≡ after (steps_of interpreter.now.steps.now) interpreter.now.regions.now number
        (take len buffer.old.items)) }
    ensures within { IfOk result (λ new. new ≤ length buffer.new.items) }
{
    let left = interpreter.apply(DEEPEST, number, buffer, len)?;
    match left {
        Some(new) => Ok(new),
        None => Ok(len),
    }
}

/// Where the region of the mark begins in a text that is given from its last character on.
fn region(interpreter: &Interpreter, mark: Mark, reversed: &[char]) -> Result<usize, AllocError>
    requires safe { IsSafeRun interpreter.now }
    requires everywhere { interpreter.now.regions.now ≡ [] }
    ensures { IfOk result (λ start. start ≡ region_of (steps_of interpreter.now.steps.now)
        (reverse reversed.now) (mark_of mark)) }
{
    let mut buffer = reversed.to_vec(interpreter.alloc)?;
    let left = interpreter.apply(DEEPEST, mark.step, &mut buffer, reversed.len())?;
    match left {
        Some(rest) => Ok(mark.least.max(reversed.len().saturating_sub(rest))),
        None => Ok(mark.least.max(reversed.len())),
    }
}

impl Stemmer {
    /// Where the regions of the text begin. Region 0 is the whole text.
    fn regions(&self, alloc: Global, text: &[char]) -> Result<Vec<usize>, AllocError>
        ensures { IfOk result (λ regions. regions.items ≡ regions_of (table_of self.now) text.now) }
    {
        let mut regions = vec![in alloc; 0]?;
        if self.marks.is_empty() {
            return Ok(regions);
        }
        let reversed = text::reversed(alloc, text)?;
        let interpreter = Interpreter {
            alloc,
            steps: self.steps.as_slice(),
            regions: &[],
        };
        for mark in &self.marks {
            regions.push(region(&interpreter, *mark, reversed.as_slice())?)?;
        }
        Ok(regions)
    }

    /// The stem of a word, which is to be in lower case. It may be empty. The only error is that
    /// memory was refused.
    pub fn stem(&self, alloc: Global, word: String) -> Result<String, AllocError>
        ensures { IfOk result (λ stem. text_of stem ≡ stem_of (table_of self.now) (text_of word)) }
    {
        let mut letters = text::letters_of(alloc, word.as_str())?;
        let len = letters.len();
        let before = Interpreter {
            alloc,
            steps: self.steps.as_slice(),
            regions: &[],
        };
        let len = after(&before, self.before, &mut letters, len)?;
        let regions = self.regions(alloc, &letters.as_slice()[..len])?;
        let main = Interpreter {
            alloc,
            steps: self.steps.as_slice(),
            regions: regions.as_slice(),
        };
        let len = after(&main, self.main, &mut letters, len)?;
        text::text_from(word, &letters.as_slice()[..len])
    }
}
