//! Stemmers.
ghost use Rattle.std.specs.Prelude.{◌≡◌, ◌∷◌, ℕ, IsTrue, IfOk, List, map, max};
ghost use Rattle.elasticlunr_error.specs.Text.{Text, text_of};
ghost use Rattle.elasticlunr_stems.specs.Stems.{deepest};
ghost use Rattle.elasticlunr_stems.specs.Safe.{are_safe};
ghost use Rattle.elasticlunr_stems.specs.Views.{steps_of};

use crate::step::{Mark, Step};

/// A stemmer: steps, and which of them are taken. Its table is safe: what a step declares is so,
/// and a step that does not apply has changed nothing.
#[derive(Drop)]
pub struct Stemmer {
    steps: Vec<Step>,
    before: usize,
    marks: Vec<Mark>,
    main: usize,
    ghost safe: { IsTrue (are_safe (steps_of steps.items)) },
}

mod reads;
mod stems;
