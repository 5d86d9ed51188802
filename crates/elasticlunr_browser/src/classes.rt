//! Classes of characters, as a script holds them.
ghost use Rattle.std.specs.Prelude.{◌≡◌, ◌≢◌, ◌∷◌, [], ◌++◌, ℕ, Bool, IfOk, OnOk};
ghost use Rattle.std.specs.Char.{InScalarRange};
ghost use Rattle.elasticlunr_browser.specs.Marks.{Marks};

use elasticlunr_text::lang::common::RegexTrimmer;
use std::alloc::{AllocError, Global};

/// A class of characters.
pub trait CharClass {
    ghost has: { Self → ℕ → Bool };

    /// Whether the class has the character.
    fn has(&self, alloc: Global, c: char) -> Result<bool, AllocError>
        ensures { IfOk result (λ b. b ≡ has self.now c) };
}

/// What stands between words.
#[derive(Clone, Copy)]
pub struct Separators {}

impl CharClass for Separators {
    ghost use Rattle.elasticlunr_lang.specs.Words.{is_separator};

    ghost has = { λ _. is_separator };

    #[tactic(auto, unfolding(elasticlunr_lang::specs::Words::is_separator))]
    fn has(&self, _alloc: Global, c: char) -> Result<bool, AllocError> {
        Ok(c.is_whitespace() || c == '-')
    }
}

/// The class of a trimmer.
#[derive(Clone, Copy)]
pub struct TrimmerClass<'a>(pub &'a RegexTrimmer);

impl CharClass for TrimmerClass<'_> {
    ghost use Rattle.elasticlunr_text.specs.Trimmers.{keeps};

    ghost has = { λ class. keeps class.0.now };

    fn has(&self, _alloc: Global, c: char) -> Result<bool, AllocError> {
        Ok(self.0.contains(c))
    }
}

/// Whether the class has the character of this number. The numbers of no character are of no class.
fn has_code<C: CharClass>(alloc: Global, class: &C, code: u32) -> Result<bool, AllocError>
    ensures { IfOk result (λ b. InScalarRange code → b ≡ C.has class.now code) }
{
    match char::from_u32(code) {
        Some(c) => class.has(alloc, c),
        None => Ok(false),
    }
}

/// Appends a mark where the class begins or ends at this number.
fn push_turn(marks: &mut Vec<u32>, inside: bool, has: bool, code: u32) -> Result<(), AllocError>
    ensures same { OnOk result (has ≡ inside → marks.new.items ≡ marks.old.items) }
    ensures turn { OnOk result (has ≢ inside → marks.new.items ≡ marks.old.items ++ code ∷ []) }
{
    if has != inside {
        marks.push(code)?;
    }
    Ok(())
}

/// Where the class begins and where it ends, in turn, over the characters in order: the first mark
/// is its first character, the second the first one after that which is not of the class.
pub fn marks_of<C: CharClass>(alloc: Global, class: &C) -> Result<Vec<u32>, AllocError>
    ensures { IfOk result (λ marks. Marks (C.has class.now) marks.items) }
{
    let mut marks = Vec::new(alloc);
    let mut inside = false;
    for code in 0..0x110000u32 {
        let has = has_code(alloc, class, code)?;
        push_turn(&mut marks, inside, has, code)?;
        inside = has;
    }
    Ok(marks)
}
