//! The indexes of English books, each printed: what a book builder does.

use crate::digest::Digest;
use crate::failure::Failure;
use crate::letters::letters_of;
use crate::pages::{PLAIN, Page, push_words};
use crate::random::Random;
use crate::vocabulary::Vocabulary;
use elasticlunr::IndexBuilder;
use elasticlunr::lang::AnyLanguage;
use std::alloc::Global;

/// How many sections a book has.
const SECTIONS: u32 = 500;

/// So many books.
pub fn run(alloc: Global, size: u32, seed: u32) -> Result<u64, Failure> {
    let mut digest = Digest::new();
    let mut random = Random::new(seed, 1);
    let vocabulary = Vocabulary::new(alloc, &mut random, letters_of(AnyLanguage::English))?;
    for _ in 0..size {
        let text = book(alloc, &mut random, &vocabulary)?;
        digest.text(text.as_str());
    }
    Ok(digest.value)
}

/// The text of the index of one book.
fn book(alloc: Global, random: &mut Random, vocabulary: &Vocabulary) -> Result<String, Failure> {
    let mut index = IndexBuilder::new(alloc)?
        .add_fields(&["title", "body", "breadcrumbs"])?
        .build()?;
    for number in 0..SECTIONS {
        let words = random.from(32, 200);
        let page = Page::new(alloc, random, vocabulary, number, words, PLAIN)?;
        let mut breadcrumbs = String::new(alloc);
        push_words(&mut breadcrumbs, random, vocabulary, 6)?;
        breadcrumbs.push_str(page.title.as_str())?;
        index.add_doc(
            page.reference.as_str(),
            &[
                page.title.as_str(),
                page.body.as_str(),
                breadcrumbs.as_str(),
            ],
        )?;
    }
    Ok(index.to_json()?)
}
