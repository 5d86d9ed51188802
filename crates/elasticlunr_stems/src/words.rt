//! Lines, words and numbers of a table.
ghost use Rattle.std.specs.Prelude.{◌≡◌, map, IfOk, IfSome, IsNone, List, ℕ};
ghost use Rattle.elasticlunr_stems.specs.Reading.{lines_of, words_of, number_in, is_number};
ghost use Rattle.elasticlunr_stems.specs.Reading.{is_digit};
ghost use Rattle.std.specs.List.{list_all};

use std::alloc::{AllocError, Global};

/// The lines of a text.
pub fn lines_of(alloc: Global, text: &[char]) -> Result<Vec<&[char]>, AllocError>
    ensures { IfOk result (λ lines. map (λ line. line.now) lines.items ≡ lines_of text.now) }
{
    text.split(|c| *c == '\n').collect(alloc)
}

/// The words of a line.
pub fn words_of(alloc: Global, line: &[char]) -> Result<Vec<&[char]>, AllocError>
    ensures { IfOk result (λ words. map (λ word. word.now) words.items ≡ words_of line.now) }
{
    line.split(|c| *c == ' ').collect(alloc)
}

/// The number that the word is.
pub fn number_in(word: &[char]) -> Option<usize>
    ensures { result ≡ number_in word.now }
{
    if !is_number(word) {
        return None;
    }
    let mut number = 0;
    for c in word {
        number = 10 * number + (*c as usize - '0' as usize);
    }
    Some(number)
}

fn is_number(word: &[char]) -> bool
    ensures { result ≡ is_number word.now }
{
    if word.is_empty() || 4 < word.len() {
        return false;
    }
    are_digits(word)
}

fn are_digits(word: &[char]) -> bool
    ensures { result ≡ list_all is_digit word.now }
{
    word.iter().all(|c| is_digit(*c))
}

fn is_digit(c: char) -> bool
    ensures { result ≡ is_digit c }
{
    '0' <= c && c <= '9'
}
