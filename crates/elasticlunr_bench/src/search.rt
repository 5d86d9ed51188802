//! An index that is printed, read again and searched: by words that are frequent and by rare ones,
//! in one field and in all, by any word and by each. No query comes twice, each has a token, and
//! the texts of a document are read once.

use crate::digest::Digest;
use crate::failure::Failure;
use crate::letters::letters_of;
use crate::pages::{PLAIN, Page, push_words};
use crate::random::Random;
use crate::vocabulary::Vocabulary;
use elasticlunr::Index;
use elasticlunr::lang::{AnyLanguage, English, Language};
use elasticlunr::pipeline::Pipeline;
use elasticlunr_search::{Join, Searcher};
use std::alloc::{AllocError, Global};
use std::collections::BTreeSet;

/// So many pages, and twice as many queries.
pub fn run(alloc: Global, size: u32, seed: u32) -> Result<u64, Failure> {
    let mut digest = Digest::new();
    let mut random = Random::new(seed, 5);
    let vocabulary = Vocabulary::new(alloc, &mut random, letters_of(AnyLanguage::English))?;
    let text = printed(alloc, &mut random, &vocabulary, size)?;
    let searcher = Searcher::read(alloc, English::new(), text.as_str())?;
    let mut shown = BTreeSet::new(alloc);
    for query in &queries(alloc, &mut random, &vocabulary, size.saturating_mul(2))? {
        let any = searcher.find_in(Join::Any, &["title", "body"], query.as_str())?;
        take(&mut digest, &any);
        let all = searcher.find(Join::All, "body", query.as_str())?;
        take(&mut digest, &all);
        if let Some(first) = all.first()
            && shown.insert(first.clone()?)?
        {
            take_texts(&searcher, first.as_str(), &mut digest)?;
        }
    }
    Ok(digest.value)
}

/// So many queries of one word to three, each another one, and each with a token.
fn queries(
    alloc: Global,
    random: &mut Random,
    vocabulary: &Vocabulary,
    count: u32,
) -> Result<Vec<String>, AllocError> {
    let english = English::new();
    let empty = Pipeline {
        queue: Vec::new(alloc),
    };
    let pipeline = english.make_pipeline(alloc, empty)?;
    let mut drawn = BTreeSet::new(alloc);
    let mut queries = Vec::new(alloc);
    for _ in 0..count.saturating_mul(16) {
        let mut query = String::new(alloc);
        let words = random.from(1, 3);
        push_words(&mut query, random, vocabulary, words)?;
        let tokens = pipeline.run(alloc, english.tokenize(alloc, query.as_str())?)?;
        if !tokens.is_empty() && drawn.insert(query.clone()?)? {
            queries.push(query)?;
        }
        if queries.len() >= count as usize {
            break;
        }
    }
    Ok(queries)
}

/// The text of an index of so many pages.
fn printed(
    alloc: Global,
    random: &mut Random,
    vocabulary: &Vocabulary,
    size: u32,
) -> Result<String, Failure> {
    let mut index = Index::new(alloc, &["title", "body"])?;
    for number in 0..size {
        let words = random.from(100, 200);
        let page = Page::new(alloc, random, vocabulary, number, words, PLAIN)?;
        index.add_doc(
            page.reference.as_str(),
            &[page.title.as_str(), page.body.as_str()],
        )?;
    }
    Ok(index.to_json()?)
}

/// Takes references, and how many there are.
fn take(digest: &mut Digest, found: &[String]) {
    digest.number(found.len() as u64);
    for reference in found {
        digest.text(reference.as_str());
    }
}

/// Takes the texts of a document.
fn take_texts(
    searcher: &Searcher<English>,
    reference: &str,
    digest: &mut Digest,
) -> Result<(), Failure> {
    if let Some(texts) = searcher.texts(reference)? {
        digest.number(texts.len() as u64);
        for (field, text) in texts.iter() {
            digest.text(field.as_str());
            digest.text(text.as_str());
        }
    }
    Ok(())
}
