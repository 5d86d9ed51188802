//! The names of scripts in a class text.
use elasticlunr::lang::common::RegexTrimmer;
use elasticlunr::pipeline::PipelineFn;
use std::alloc::{AllocError, Global};
use unicode::properties::Script;

/// Whether the class text of a line represents exactly the characters of the script next to it.
pub fn is_named(alloc: Global, line: &str) -> Result<bool, AllocError> {
    let Some((class, name)) = line.split_once('\t') else {
        return Ok(false);
    };
    let script = match name {
        "Latin" => Script::Latin,
        "Hangul" => Script::Hangul,
        "Cyrillic" => Script::Cyrillic,
        _ => return Ok(false),
    };
    let (Ok(named), Ok(listed)) = (
        RegexTrimmer::new(alloc, "named", class),
        RegexTrimmer::of_scripts(alloc, "listed", &[script]),
    ) else {
        return Ok(false);
    };
    are_same(alloc, &named, &listed)
}

fn are_same(alloc: Global, one: &RegexTrimmer, other: &RegexTrimmer) -> Result<bool, AllocError> {
    for number in 0..0x11_0000 {
        if let Some(letter) = char::from_u32(number) {
            if has(alloc, one, letter)? != has(alloc, other, letter)? {
                return Ok(false);
            }
        }
    }
    Ok(true)
}

/// Whether the trimmer leaves the character.
fn has(alloc: Global, trimmer: &RegexTrimmer, letter: char) -> Result<bool, AllocError> {
    let mut token = String::new(alloc);
    token.push(letter)?;
    Ok(trimmer.filter(alloc, token)?.is_some())
}
