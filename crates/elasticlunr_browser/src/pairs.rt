//! Changes of characters, as a script holds them.
ghost use Rattle.std.specs.Prelude.{◌≡◌, ◌∷◌, [], ◌++◌, ℕ, IfOk, OnOk, IfSome, IsNone};
ghost use Rattle.std.specs.Prelude.{option_to_list};
ghost use Rattle.std.specs.Char.{InScalarRange};
ghost use Rattle.elasticlunr_text.specs.Text.{Text, text_of, texts_of};
ghost use Rattle.elasticlunr_browser.specs.Pairs.{Pairs, StandsFor};

use elasticlunr_lang::lower_char;
use elasticlunr_text::lang::ar;
use elasticlunr_text::pipeline::PipelineFn;
use std::alloc::{AllocError, Global};

/// A change of single characters.
pub trait CharChange {
    // what replaces a character
    ghost changed: { Self → ℕ → Text };

    /// What replaces the character; `None` is the character itself.
    fn change(&self, alloc: Global, c: char) -> Result<Option<String>, AllocError>
        ensures { IfOk result (λ text. StandsFor (changed self.now c) c text) };
}

/// A text of one character.
pub fn alone(alloc: Global, c: char) -> Result<String, AllocError>
    ensures { IfOk result (λ text. text_of text ≡ c ∷ []) }
{
    let mut text = String::new(alloc);
    text.push(c)?;
    Ok(text)
}

/// Lower case.
#[derive(Clone, Copy)]
pub struct LowerCase {}

impl CharChange for LowerCase {
    ghost use Rattle.elasticlunr_lang.specs.Lower.{lower};

    ghost changed = { λ _. lower };

    fn change(&self, alloc: Global, c: char) -> Result<Option<String>, AllocError> {
        let (first, second) = lower_char(c);
        let mut text = alone(alloc, first)?;
        match second {
            Some(second) => {
                text.push(second)?;
                Ok(Some(text))
            }
            None if first == c => Ok(None),
            None => Ok(Some(text)),
        }
    }
}

/// What the Arabic stemmer makes of a character alone.
#[derive(Clone, Copy)]
pub struct ArabicChange {}

impl CharChange for ArabicChange {
    ghost use Rattle.elasticlunr_browser.specs.Pairs.{arabic_change};

    ghost changed = { λ _. arabic_change };

    fn change(&self, alloc: Global, c: char) -> Result<Option<String>, AllocError> {
        let token = alone(alloc, c)?;
        let Some(left) = ar::Stemmer::new().filter(alloc, token)? else {
            return Ok(None);
        };
        let letters: Vec<char> = left.chars().collect(alloc)?;
        match letters.as_slice() {
            [only] if *only == c => Ok(None),
            _ => Ok(Some(left)),
        }
    }
}

/// The character of this number and what replaces it; `None` where no other text does, or where no
/// character has the number.
fn pair_of<M: CharChange>(
    alloc: Global,
    change: &M,
    code: u32,
) -> Result<Option<String>, AllocError>
    ensures some { IfOk result (λ found. IfSome found (λ pair. InScalarRange code
        × (text_of pair ≡ code ∷ M.changed change.now code))) }
    ensures none { IfOk result (λ found. IsNone found → InScalarRange code
        → M.changed change.now code ≡ code ∷ []) }
{
    let Some(c) = char::from_u32(code) else {
        return Ok(None);
    };
    let Some(text) = change.change(alloc, c)? else {
        return Ok(None);
    };
    let mut pair = alone(alloc, c)?;
    pair.push_str(text.as_str())?;
    Ok(Some(pair))
}

/// Appends what was found, if anything was.
pub fn push_some<T: Drop>(list: &mut Vec<T>, found: Option<T>) -> Result<(), AllocError>
    ensures { OnOk result (list.new.items ≡ list.old.items ++ option_to_list found) }
{
    if let Some(item) = found {
        list.push(item)?;
    }
    Ok(())
}

/// The pairs of a change, in the order of the characters.
pub fn pairs_of<M: CharChange>(alloc: Global, change: &M) -> Result<Vec<String>, AllocError>
    ensures { IfOk result (λ pairs. Pairs (M.changed change.now) (texts_of pairs.items)) }
{
    let mut pairs = Vec::new(alloc);
    for code in 0..0x110000u32 {
        let found = pair_of(alloc, change, code)?;
        push_some(&mut pairs, found)?;
    }
    Ok(pairs)
}
