//! Pages that are hard to index: tokens of thousands of characters, as pictures and scripts inside
//! a page are, numbers of which each is another one, a page with one word many times, and
//! characters that a text of JSON escapes.

use crate::digest::Digest;
use crate::failure::Failure;
use crate::random::Random;
use elasticlunr::IndexBuilder;
use std::alloc::{AllocError, Global};

const SIGNS: [&str; 16] = [
    "0", "1", "2", "3", "4", "5", "6", "7", "8", "9", "a", "b", "c", "d", "e", "f",
];

/// So many pages.
pub fn run(alloc: Global, size: u32, seed: u32) -> Result<u64, Failure> {
    let mut digest = Digest::new();
    let mut random = Random::new(seed, 6);
    let mut index = IndexBuilder::new(alloc)?
        .set_ref("url")?
        .add_fields(&["url", "picture", "log", "noise"])?
        .build()?;
    for number in 0..size {
        let url = format!(in alloc; "https://example.org/archive?page={number}&name=\"{number}\"")?;
        let mut picture = String::new(alloc);
        push_signs(&mut picture, &mut random, 4000)?;
        let log = log(alloc, &mut random)?;
        let noise = noise(alloc, &mut random)?;
        index.add_doc(
            url.as_str(),
            &["", picture.as_str(), log.as_str(), noise.as_str()],
        )?;
    }
    let text = index.to_json()?;
    digest.text(text.as_str());
    Ok(digest.value)
}

/// Appends so many hexadecimal digits.
fn push_signs(text: &mut String, random: &mut Random, count: usize) -> Result<(), AllocError> {
    for _ in 0..count {
        text.push_str(SIGNS[random.below(16) % 16])?;
    }
    Ok(())
}

/// Hashes of which each is another one, and between them the same word.
fn log(alloc: Global, random: &mut Random) -> Result<String, AllocError> {
    let mut text = String::new(alloc);
    for _ in 0..100 {
        push_signs(&mut text, random, 40)?;
        text.push_str(" refused: refused: refused: ")?;
    }
    Ok(text)
}

/// White space, characters that a text of JSON escapes, and characters of four bytes.
fn noise(alloc: Global, random: &mut Random) -> Result<String, AllocError> {
    let mut text = String::new(alloc);
    for _ in 0..100 {
        text.push_str("\t\t\u{1F600}x\"\\y\u{1}\u{1F680}--- \u{3000}==== \r\n")?;
        push_signs(&mut text, random, 3)?;
    }
    Ok(text)
}
