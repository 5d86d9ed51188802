//! Texts as characters, and back.
ghost use Rattle.std.specs.Prelude.{◌≡◌, ◌++◌, ◌∷◌, [], IfOk, OnOk, reverse};
ghost use Rattle.std.specs.Str.{chars};
ghost use Rattle.elasticlunr_error.specs.Text.{text_of};

use std::alloc::{AllocError, Global};

/// The characters of a text.
pub fn letters_of(alloc: Global, text: &str) -> Result<Vec<char>, AllocError>
    ensures { IfOk result (λ letters. letters.items ≡ chars text.now) }
{
    text.chars().collect(alloc)
}

/// The characters from the last to the first.
pub fn reversed(alloc: Global, text: &[char]) -> Result<Vec<char>, AllocError>
    ensures { IfOk result (λ letters. letters.items ≡ reverse text.now) }
{
    text.iter().rev().copied().collect(alloc)
}

/// The text of the characters, in the memory of a text that is given up.
pub fn text_from(text: String, letters: &[char]) -> Result<String, AllocError>
    ensures { IfOk result (λ text. text_of text ≡ letters.now) }
{
    let mut text = text;
    text.clear();
    for c in letters {
        push_letter(&mut text, *c)?;
    }
    Ok(text)
}

fn push_letter(text: &mut String, c: char) -> Result<(), AllocError>
    ensures { OnOk result (text_of text.new ≡ text_of text.old ++ c ∷ []) }
{
    text.push(c)
}
