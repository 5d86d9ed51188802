//! The index of a site in each of the languages but English, printed.

use crate::digest::Digest;
use crate::failure::Failure;
use crate::letters::letters_of;
use crate::pages::{PLAIN, Page};
use crate::random::Random;
use crate::vocabulary::Vocabulary;
use elasticlunr::Index;
use elasticlunr::lang::AnyLanguage;
use std::alloc::Global;

const LANGUAGES: [AnyLanguage; 15] = [
    AnyLanguage::Arabic,
    AnyLanguage::Danish,
    AnyLanguage::Dutch,
    AnyLanguage::Finnish,
    AnyLanguage::French,
    AnyLanguage::German,
    AnyLanguage::Italian,
    AnyLanguage::Korean,
    AnyLanguage::Norwegian,
    AnyLanguage::Portuguese,
    AnyLanguage::Romanian,
    AnyLanguage::Russian,
    AnyLanguage::Spanish,
    AnyLanguage::Swedish,
    AnyLanguage::Turkish,
];

/// So many pages for each language.
pub fn run(alloc: Global, size: u32, seed: u32) -> Result<u64, Failure> {
    let mut digest = Digest::new();
    let mut random = Random::new(seed, 2);
    for language in LANGUAGES {
        let text = site(alloc, &mut random, language, size)?;
        digest.text(text.as_str());
    }
    Ok(digest.value)
}

/// The text of the index of one site.
fn site(
    alloc: Global,
    random: &mut Random,
    language: AnyLanguage,
    pages: u32,
) -> Result<String, Failure> {
    let vocabulary = Vocabulary::new(alloc, random, letters_of(language))?;
    let mut index = Index::with_language(alloc, language, &["title", "body"])?;
    for number in 0..pages {
        let words = random.from(100, 200);
        let page = Page::new(alloc, random, &vocabulary, number, words, PLAIN)?;
        index.add_doc(
            page.reference.as_str(),
            &[page.title.as_str(), page.body.as_str()],
        )?;
    }
    Ok(index.to_json()?)
}
