//! Whether steps are safe.
ghost use Rattle.std.specs.Prelude.{◌≡◌, ℕ, map, length};
ghost use Rattle.std.specs.List.{list_all};
ghost use Rattle.elasticlunr_stems.specs.Safe.{shortens_at, applies_at, kind_shortens};
ghost use Rattle.elasticlunr_stems.specs.Safe.{kind_applies};
ghost use Rattle.elasticlunr_stems.specs.Safe.{kind_is_safe, is_safe, are_safe, get_no_longer};
ghost use Rattle.elasticlunr_stems.specs.Safe.{are_longest_first};
ghost use Rattle.elasticlunr_stems.specs.Views.{kind_of, step_of, steps_of};
ghost use Rattle.elasticlunr_stems.specs.RowViews.{row_of};

use crate::row::Row;
use crate::step::{Kind, Step};

fn shortens_at(steps: &[Step], number: usize) -> bool
    ensures { result ≡ shortens_at (steps_of steps.now) number }
{
    match steps.get(number) {
        Some(step) => step.only_shortens,
        None => true,
    }
}

fn applies_at(steps: &[Step], number: usize) -> bool
    ensures { result ≡ applies_at (steps_of steps.now) number }
{
    match steps.get(number) {
        Some(step) => step.always_applies,
        None => true,
    }
}

fn rows_shorten(steps: &[Step], rows: &[Row]) -> bool
    ensures { result ≡ list_all (λ row. shortens_at (steps_of steps.now) row.step)
        (map row_of rows.now) }
{
    for row in rows {
        if !shortens_at(steps, row.step) {
            return false;
        }
    }
    true
}

fn are_longest_first(rows: &[Row]) -> bool
    ensures { result ≡ are_longest_first (map row_of rows.now) }
{
    match rows.split_first() {
        Some((first, others)) => get_no_longer(first.suffix.len(), others),
        None => true,
    }
}

fn get_no_longer(len: usize, rows: &[Row]) -> bool
    ensures { result ≡ get_no_longer len (map row_of rows.now) }
{
    let mut longest = len;
    for row in rows {
        if longest < row.suffix.len() {
            return false;
        }
        longest = row.suffix.len();
    }
    true
}

/// A step of the kind only shortens the text.
fn kind_shortens(steps: &[Step], kind: &Kind) -> bool
    ensures { result ≡ kind_shortens (steps_of steps.now) (kind_of kind.now) }
{
    match kind {
        Kind::Add(end) => end.is_empty(),
        Kind::Within(_) | Kind::One(_) | Kind::Twin(_) | Kind::Run(_) | Kind::Fails(_) => true,
        Kind::Cut(_, suffixes) => rows_shorten(steps, suffixes.rows.as_slice()),
        Kind::Both(a, b) | Kind::Either(a, b) => shortens_at(steps, *a) && shortens_at(steps, *b),
        Kind::Keep(_, _) | Kind::Sweep(_, _) => false,
    }
}

/// A step of the kind applies to each text.
fn kind_applies(steps: &[Step], kind: &Kind) -> bool
    ensures { result ≡ kind_applies (steps_of steps.now) (kind_of kind.now) }
{
    match kind {
        Kind::Add(_) | Kind::Run(_) | Kind::Sweep(_, _) => true,
        Kind::Within(_) | Kind::One(_) | Kind::Twin(_) | Kind::Cut(_, _) | Kind::Fails(_) => false,
        Kind::Both(a, b) | Kind::Keep(a, b) => applies_at(steps, *a) && applies_at(steps, *b),
        Kind::Either(a, b) => applies_at(steps, *a) || applies_at(steps, *b),
    }
}

/// The parts of the kind suit each other.
fn kind_is_safe(steps: &[Step], kind: &Kind) -> bool
    ensures { result ≡ kind_is_safe (steps_of steps.now) (kind_of kind.now) }
{
    match kind {
        Kind::Add(_) | Kind::Within(_) | Kind::One(_) | Kind::Twin(_) | Kind::Run(_) => true,
        Kind::Either(_, _) | Kind::Sweep(_, _) => true,
        Kind::Cut(_, suffixes) => are_longest_first(suffixes.rows.as_slice()),
        Kind::Both(a, b) => shortens_at(steps, *a) || applies_at(steps, *b),
        Kind::Fails(a) | Kind::Keep(a, _) => shortens_at(steps, *a),
    }
}

fn is_safe(steps: &[Step], step: &Step) -> bool
    ensures { result ≡ is_safe (steps_of steps.now) (step_of step.now) }
{
    (!step.only_shortens || kind_shortens(steps, &step.kind))
        && (!step.always_applies || kind_applies(steps, &step.kind))
        && kind_is_safe(steps, &step.kind)
}

/// Each step is what it declares, and safe.
pub fn are_safe(steps: &[Step]) -> bool
    ensures { result ≡ are_safe (steps_of steps.now) }
{
    for step in steps {
        if !is_safe(steps, step) {
            return false;
        }
    }
    true
}
