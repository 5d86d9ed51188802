//! A site that is edited: pages come again with other texts, others go, the index is compacted, and
//! printed in lines.

use crate::digest::Digest;
use crate::failure::Failure;
use crate::letters::letters_of;
use crate::pages::{PLAIN, Page};
use crate::random::Random;
use crate::vocabulary::Vocabulary;
use elasticlunr::Index;
use elasticlunr::lang::AnyLanguage;
use std::alloc::Global;

/// So many pages, each of which is edited once or so.
pub fn run(alloc: Global, size: u32, seed: u32) -> Result<u64, Failure> {
    let mut digest = Digest::new();
    let mut random = Random::new(seed, 4);
    let vocabulary = Vocabulary::new(alloc, &mut random, letters_of(AnyLanguage::English))?;
    let mut index = Index::with_language(alloc, AnyLanguage::English, &["title", "body"])?;
    for number in 0..size.saturating_mul(2) {
        let place = if number < size {
            number
        } else {
            random.word() % size.max(1)
        };
        let words = random.from(100, 200);
        let page = Page::new(alloc, &mut random, &vocabulary, place, words, PLAIN)?;
        if number >= size && number % 8 == 0 {
            index.remove_doc(page.reference.as_str())?;
        } else {
            index.add_doc(
                page.reference.as_str(),
                &[page.title.as_str(), page.body.as_str()],
            )?;
        }
    }
    index.compact()?;
    let text = index.to_json_pretty()?;
    digest.text(text.as_str());
    Ok(digest.value)
}
