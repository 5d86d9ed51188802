//! Kinds of steps, as a table spells them.
ghost use Rattle.std.specs.Prelude.{◌≡◌, map, IfOk, List, ℕ, option_map, ◌⊎◌};
ghost use Rattle.elasticlunr_stems.specs.Tables.{add, one, twin, run};
ghost use Rattle.elasticlunr_stems.specs.Reading.{class_in, one_word, two_words, one_number};
ghost use Rattle.elasticlunr_stems.specs.Reading.{two_numbers, rows_in, cut_in, sweep_in, kind_in};
ghost use Rattle.elasticlunr_stems.specs.Views.{class_of, kind_of, texts};
ghost use Rattle.elasticlunr_stems.specs.RowViews.{row_of};

use crate::class::Class;
use crate::row::Row;
use crate::step::Kind;
use crate::suffixes::Suffixes;
use crate::words::number_in;
use std::alloc::{AllocError, Global};

fn class_in(alloc: Global, word: &[char]) -> Result<Class, AllocError>
    ensures { IfOk result (λ class. class_of class ≡ class_in word.now) }
{
    match word {
        ['^', listed @ ..] => Ok(Class {
            all_but: true,
            listed: listed.to_vec(alloc)?,
        }),
        listed => Ok(Class {
            all_but: false,
            listed: listed.to_vec(alloc)?,
        }),
    }
}

fn one_word<'a>(words: &[&'a [char]]) -> Option<&'a [char]>
    ensures { option_map (λ word. word.now) result ≡ one_word (texts words.now) }
{
    match words {
        [word] => Some(word),
        _ => None,
    }
}

fn one_number(words: &[&[char]]) -> Option<usize>
    ensures { result ≡ one_number (texts words.now) }
{
    number_in(one_word(words)?)
}

fn two_numbers(words: &[&[char]]) -> Option<(usize, usize)>
    ensures { result ≡ two_numbers (texts words.now) }
{
    match words {
        [first, second] => Some((number_in(first)?, number_in(second)?)),
        _ => None,
    }
}

fn rows_in(alloc: Global, words: &[&[char]]) -> Result<Option<Vec<Row>>, AllocError>
    ensures { IfOk result (λ rows. option_map (λ rows. map row_of rows.items) rows
        ≡ rows_in (texts words.now)) }
{
    let mut rows = Vec::new(alloc);
    let mut rest = words;
    while let [number, suffix, more @ ..] = rest {
        let Some(step) = number_in(number) else {
            return Ok(None);
        };
        rows.push(Row {
            suffix: suffix.to_vec(alloc)?,
            step,
        })?;
        rest = more;
    }
    if rest.is_empty() {
        Ok(Some(rows))
    } else {
        Ok(None)
    }
}

fn cut_in(alloc: Global, words: &[&[char]]) -> Result<Option<Kind>, AllocError>
    ensures { IfOk result (λ kind. option_map kind_of kind ≡ cut_in (texts words.now)) }
{
    let Some((number, words)) = words.split_first() else {
        return Ok(None);
    };
    let Some(region) = number_in(number) else {
        return Ok(None);
    };
    match rows_in(alloc, words)? {
        Some(rows) => Ok(Some(Kind::Cut(region, Suffixes::new(alloc, rows)?))),
        None => Ok(None),
    }
}

fn sweep_in(alloc: Global, words: &[&[char]]) -> Result<Option<Kind>, AllocError>
    ensures { IfOk result (λ kind. option_map kind_of kind ≡ sweep_in (texts words.now)) }
{
    match words {
        [class, number] => match number_in(number) {
            Some(step) => Ok(Some(Kind::Sweep(class_in(alloc, class)?, step))),
            None => Ok(None),
        },
        _ => Ok(None),
    }
}

fn add_in(alloc: Global, words: &[&[char]]) -> Result<Option<Kind>, AllocError>
    ensures { IfOk result (λ kind. option_map kind_of kind
        ≡ option_map add (one_word (texts words.now))) }
{
    match one_word(words) {
        Some(end) => Ok(Some(Kind::Add(end.to_vec(alloc)?))),
        None => Ok(None),
    }
}

/// The class that the only word is.
fn one_class(alloc: Global, words: &[&[char]]) -> Result<Option<Class>, AllocError>
    ensures { IfOk result (λ class. option_map class_of class
        ≡ option_map class_in (one_word (texts words.now))) }
{
    match one_word(words) {
        Some(class) => Ok(Some(class_in(alloc, class)?)),
        None => Ok(None),
    }
}

fn of_class(alloc: Global, sign: char, words: &[&[char]]) -> Result<Option<Kind>, AllocError>
    requires { (sign ≡ 0x2E) ⊎ (sign ≡ 0x3A) ⊎ (sign ≡ 0x2A) }
    ensures { IfOk result (λ kind. option_map kind_of kind ≡ kind_in sign (texts words.now)) }
{
    let Some(class) = one_class(alloc, words)? else {
        return Ok(None);
    };
    Ok(Some(match sign {
        '.' => Kind::One(class),
        ':' => Kind::Twin(class),
        _ => Kind::Run(class),
    }))
}

/// The kind with the sign, of the words after it.
pub fn kind_in(alloc: Global, sign: char, words: &[&[char]]) -> Result<Option<Kind>, AllocError>
    ensures { IfOk result (λ kind. option_map kind_of kind ≡ kind_in sign (texts words.now)) }
{
    match sign {
        '+' => add_in(alloc, words),
        '@' => Ok(one_number(words).map(|k| Kind::Within(k))),
        '.' | ':' | '*' => of_class(alloc, sign, words),
        '-' => cut_in(alloc, words),
        '&' => Ok(two_numbers(words).map(|(a, b)| Kind::Both(a, b))),
        '|' => Ok(two_numbers(words).map(|(a, b)| Kind::Either(a, b))),
        '!' => Ok(one_number(words).map(|a| Kind::Fails(a))),
        '=' => Ok(two_numbers(words).map(|(a, b)| Kind::Keep(a, b))),
        '~' => sweep_in(alloc, words),
        _ => Ok(None),
    }
}
