//! The interpreter: steps on a text that stands at the beginning of a buffer.
ghost use Rattle.std.specs.Prelude.{◌≡◌, ◌≤◌, ◌++◌, ℕ, IsTrue, IfOk, List, take, length};
ghost use Rattle.std.specs.Prelude.{Some, [], slice_index, ◌||◌, ◌&&◌, drop, option_map};
ghost use Rattle.std.specs.Prelude.{if◌then◌else◌};
ghost use Rattle.std.specs.List.{list_any, list_all};
ghost use Rattle.elasticlunr_stems.specs.Tables.{is_in};
ghost use Rattle.elasticlunr_stems.specs.Stems.{cut_off, longest, and_then, or_else, if_none};
ghost use Rattle.elasticlunr_stems.specs.Stems.{typed_anew, outcome};
ghost use Rattle.elasticlunr_stems.specs.Safe.{are_longest_first, kind_shortens, kind_is_safe};
ghost use Rattle.elasticlunr_stems.specs.Views.{class_of, kind_of, steps_of};
ghost use Rattle.elasticlunr_stems.specs.RowViews.{rows_of};
ghost use Rattle.elasticlunr_stems.specs.Views.{applied_in, shortens_in, applies_in, IsSafeRun};
ghost use Rattle.elasticlunr_stems.specs.Runs.{Shortens, Gives, Stays};

use crate::class::Class;
use crate::ends;
use crate::step::{Kind, Step};
use crate::suffixes::Suffixes;
use std::alloc::{AllocError, Global};

/// Steps, and where the regions of the text begin.
#[derive(Clone, Copy)]
pub struct Interpreter<'a> {
    pub alloc: Global,
    pub steps: &'a [Step],
    pub regions: &'a [usize],
}

/// Writes the end behind the text, over what stands there. An empty end changes nothing.
#[inline(never)]
fn add(buffer: &mut Vec<char>, len: usize, end: &[char]) -> Result<usize, AllocError>
    requires { len ≤ length buffer.old.items }
    ensures text { IfOk result (λ new. take new buffer.new.items
        ≡ take len buffer.old.items ++ end.now) }
    ensures within { IfOk result (λ new. new ≤ length buffer.new.items) }
    ensures same { IfOk result (λ new. end.now ≡ [] → (buffer.new.items ≡ buffer.old.items)
        × (new ≤ len)) }
{
    if end.is_empty() {
        return Ok(len);
    }
    buffer.truncate(len);
    buffer.extend_from_slice(end)?;
    Ok(buffer.len())
}

impl Interpreter<'_> {
    /// Where the region begins; a region that is not there begins with the text.
    fn region(&self, number: usize) -> usize
        ensures { result ≡ slice_index self.now.regions.now number }
    {
        match self.regions.get(number) {
            Some(start) => *start,
            None => 0,
        }
    }

    /// One step after the other.
    #[cycle(steps)]
    fn both(
        &self,
        depth: usize,
        steps: (usize, usize),
        buffer: &mut Vec<char>,
        len: usize,
    ) -> Result<Option<usize>, AllocError>
        requires safe { IsSafeRun self.now }
        requires within { len ≤ length buffer.old.items }
        requires firm { IsTrue (shortens_in self.now steps.0 || applies_in self.now steps.1) }
        ensures gives { IfOk result (λ left. Gives (and_then (applied_in self.now depth steps.1)
            (applied_in self.now depth steps.0 (take len buffer.old.items)))
            buffer.old.items buffer.new.items left) }
        ensures stays { IfOk result (λ left. IsTrue (shortens_in self.now steps.0
            && shortens_in self.now steps.1) → Stays len buffer.old.items buffer.new.items left) }
    {
        let left = self.apply(depth, steps.0, buffer, len)?;
        match left {
            Some(rest) => self.apply(depth, steps.1, buffer, rest),
            None => Ok(None),
        }
    }

    /// The first step that applies.
    #[cycle(steps)]
    fn either(
        &self,
        depth: usize,
        steps: (usize, usize),
        buffer: &mut Vec<char>,
        len: usize,
    ) -> Result<Option<usize>, AllocError>
        requires safe { IsSafeRun self.now }
        requires within { len ≤ length buffer.old.items }
        ensures gives { IfOk result (λ left. Gives (or_else
            (applied_in self.now depth steps.0 (take len buffer.old.items))
            (applied_in self.now depth steps.1 (take len buffer.old.items)))
            buffer.old.items buffer.new.items left) }
        ensures stays { IfOk result (λ left. IsTrue (shortens_in self.now steps.0
            && shortens_in self.now steps.1) → Stays len buffer.old.items buffer.new.items left) }
    {
        let left = self.apply(depth, steps.0, buffer, len)?;
        match left {
            Some(rest) => Ok(Some(rest)),
            None => self.apply(depth, steps.1, buffer, len),
        }
    }

    /// Applies if the step does not.
    #[cycle(steps)]
    fn fails(
        &self,
        depth: usize,
        step: usize,
        buffer: &mut Vec<char>,
        len: usize,
    ) -> Result<Option<usize>, AllocError>
        requires safe { IsSafeRun self.now }
        requires within { len ≤ length buffer.old.items }
        requires only_tried { IsTrue (shortens_in self.now step) }
        ensures gives { IfOk result (λ left. Gives (if_none (take len buffer.old.items)
            (applied_in self.now depth step (take len buffer.old.items)))
            buffer.old.items buffer.new.items left) }
        ensures stays { IfOk result (λ left. Stays len buffer.old.items buffer.new.items left) }
    {
        let left = self.apply(depth, step, buffer, len)?;
        match left {
            Some(_) => Ok(None),
            None => Ok(Some(len)),
        }
    }

    /// Takes the longest suffix off, and then the step of its row.
    #[cycle(steps)]
    fn cut(
        &self,
        depth: usize,
        cut: (&Suffixes, usize),
        buffer: &mut Vec<char>,
        len: usize,
    ) -> Result<Option<usize>, AllocError>
        requires safe { IsSafeRun self.now }
        requires within { len ≤ length buffer.old.items }
        requires ordered { IsTrue (are_longest_first (rows_of cut.0.now.rows.items)) }
        ensures gives { IfOk result (λ left. Gives (cut_off (applied_in self.now depth)
            (take len buffer.old.items) (longest cut.entry.1 (take len buffer.old.items)
            (rows_of cut.entry.0.now.rows.items))) buffer.old.items buffer.new.items left) }
        ensures stays { IfOk result (λ left. IsTrue (list_all (λ row. shortens_in self.now row.step)
            (rows_of cut.entry.0.now.rows.items))
            → Stays len buffer.old.items buffer.new.items left) }
    {
        let found = cut.0.longest(&buffer.as_slice()[..len], cut.1);
        match found {
            Some((step, rest)) => self.apply(depth, step, buffer, rest),
            None => Ok(None),
        }
    }

    /// Takes an end off, lets the second step work on the rest, and puts the end back.
    #[cycle(steps)]
    #[inline(never)]
    fn keep(
        &self,
        depth: usize,
        steps: (usize, usize),
        buffer: &mut Vec<char>,
        len: usize,
    ) -> Result<Option<usize>, AllocError>
        requires safe { IsSafeRun self.now }
        requires within { len ≤ length buffer.old.items }
        requires only_tried { IsTrue (shortens_in self.now steps.0) }
        ensures { IfOk result (λ left. Gives (and_then (λ front. option_map
            (λ text. text ++ drop (length front) (take len buffer.old.items))
            (applied_in self.now depth steps.1 front))
            (applied_in self.now depth steps.0 (take len buffer.old.items)))
            buffer.old.items buffer.new.items left) }
    {
        let left = self.apply(depth, steps.0, buffer, len)?;
        let Some(front) = left else {
            return Ok(None);
        };
        let end = buffer.as_slice()[front..len].to_vec(self.alloc)?;
        let left = self.apply(depth, steps.1, buffer, front)?;
        let Some(rest) = left else {
            return Ok(None);
        };
        Ok(Some(add(buffer, rest, end.as_slice())?))
    }

    /// Types a text that has a character of the class anew.
    #[cycle(steps)]
    #[inline(never)]
    fn sweep(
        &self,
        depth: usize,
        sweep: (&Class, usize),
        buffer: &mut Vec<char>,
        len: usize,
    ) -> Result<usize, AllocError>
        requires safe { IsSafeRun self.now }
        requires within { len ≤ length buffer.old.items }
        ensures within { IfOk result (λ new. new ≤ length buffer.new.items) }
        ensures text { IfOk result (λ new. take new buffer.new.items
            ≡ (let old = take len buffer.old.items in
            if list_any (is_in (class_of sweep.entry.0.now)) old
            then typed_anew (applied_in self.now depth sweep.entry.1) old else old)) }
    {
        let text = &buffer.as_slice()[..len];
        if !ends::has_any(sweep.0, text) {
            return Ok(len);
        }
        let text = text.to_vec(self.alloc)?;
        let mut typed = 0;
        for c in &text {
            buffer.truncate(typed);
            buffer.push(*c)?;
            let next = buffer.len();
            typed = self.apply(depth, sweep.1, buffer, next)?.unwrap_or(next);
        }
        Ok(typed)
    }

    /// What a kind of step makes of the text.
    #[cycle(steps)]
    #[tactic(auto, unfolding(crate::specs::Stems::outcome))]
    fn carry_out(
        &self,
        depth: usize,
        kind: &Kind,
        buffer: &mut Vec<char>,
        len: usize,
    ) -> Result<Option<usize>, AllocError>
        requires safe { IsSafeRun self.now }
        requires within { len ≤ length buffer.old.items }
        requires safe_kind { IsTrue (kind_is_safe (steps_of self.now.steps.now)
            (kind_of kind.now)) }
        ensures gives { IfOk result (λ left. Gives (outcome (applied_in self.now depth)
            self.now.regions.now (kind_of kind.now) (take len buffer.old.items))
            buffer.old.items buffer.new.items left) }
        ensures stays { IfOk result (λ left. IsTrue (kind_shortens (steps_of self.now.steps.now)
            (kind_of kind.now)) → Stays len buffer.old.items buffer.new.items left) }
    {
        let text = &buffer.as_slice()[..len];
        match kind {
            Kind::Within(number) => Ok(ends::within(len, self.region(*number))),
            Kind::One(class) => Ok(ends::one_off(class, text)),
            Kind::Twin(class) => Ok(ends::twin_off(class, text)),
            Kind::Run(class) => Ok(Some(ends::run_off(class, text))),
            Kind::Add(end) => Ok(Some(add(buffer, len, end.as_slice())?)),
            Kind::Cut(number, suffixes) => {
                self.cut(depth, (suffixes, self.region(*number)), buffer, len)
            }
            Kind::Both(a, b) => self.both(depth, (*a, *b), buffer, len),
            Kind::Either(a, b) => self.either(depth, (*a, *b), buffer, len),
            Kind::Fails(a) => self.fails(depth, *a, buffer, len),
            Kind::Keep(a, b) => self.keep(depth, (*a, *b), buffer, len),
            Kind::Sweep(class, a) => Ok(Some(self.sweep(depth, (class, *a), buffer, len)?)),
        }
    }

    /// What the step with the number makes of the text: the length of the text that then stands in
    /// the buffer, or nothing, and then the buffer is as it was.
    #[cycle(steps)]
    #[tactic(auto, unfolding(crate::specs::Stems::applied))]
    pub fn apply(
        &self,
        depth: usize,
        number: usize,
        buffer: &mut Vec<char>,
        len: usize,
    ) -> Result<Option<usize>, AllocError>
        requires safe { IsSafeRun self.now }
        requires within { len ≤ length buffer.old.items }
        ensures gives { IfOk result (λ left. Gives (applied_in self.now depth number
            (take len buffer.old.items)) buffer.old.items buffer.new.items left) }
        ensures stays { IfOk result (λ left. IsTrue (shortens_in self.now number)
            → Stays len buffer.old.items buffer.new.items left) }
    {
        if depth == 0 {
            return Ok(Some(len));
        }
        match self.steps.get(number) {
            Some(step) => self.carry_out(depth - 1, &step.kind, buffer, len),
            None => Ok(Some(len)),
        }
    }
}
