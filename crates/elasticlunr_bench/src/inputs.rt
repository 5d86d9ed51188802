//! The inputs of the two programs: a site as one job, and another one as lines of objects.

use crate::digest::Digest;
use crate::failure::Failure;
use crate::letters::letters_of;
use crate::pages::{ESCAPED, Page};
use crate::random::Random;
use crate::vocabulary::Vocabulary;
use elasticlunr::lang::AnyLanguage;
use elasticlunr_input::index::index_from;
use elasticlunr_input::notes::Notes;
use elasticlunr_input::settings::Settings;
use elasticlunr_job::answer::answer;
use elasticlunr_job::outcome::Outcome;
use std::alloc::{AllocError, Global};

/// So many pages in each input.
pub fn run(alloc: Global, size: u32, seed: u32) -> Result<u64, Failure> {
    let mut digest = Digest::new();
    let mut random = Random::new(seed, 3);
    let vocabulary = Vocabulary::new(alloc, &mut random, letters_of(AnyLanguage::English))?;
    let job = job(alloc, &mut random, &vocabulary, size)?;
    let (outcome, text) = answer(alloc, job.into_bytes())?;
    digest.number(u64::from(outcome == Outcome::Printed));
    digest.text(text.as_str());
    drop(text);
    let lines = lines(alloc, &mut random, &vocabulary, size)?;
    take_lines(alloc, lines.as_str(), &mut digest)?;
    Ok(digest.value)
}

/// The text of a job of so many pages.
fn job(
    alloc: Global,
    random: &mut Random,
    vocabulary: &Vocabulary,
    size: u32,
) -> Result<String, AllocError> {
    let mut text = String::from_str(alloc, "{\"fields\":[\"title\",\"body\"],\"docs\":[")?;
    for number in 0..size {
        let page = page(alloc, random, vocabulary, number)?;
        if number > 0 {
            text.push(',')?;
        }
        text.push_str("[\"")?;
        text.push_str(page.reference.as_str())?;
        text.push_str("\",\"")?;
        text.push_str(page.title.as_str())?;
        text.push_str("\",\"")?;
        text.push_str(page.body.as_str())?;
        text.push_str("\"]")?;
    }
    text.push_str("]}")?;
    Ok(text)
}

/// The text of so many pages as objects, one a line.
fn lines(
    alloc: Global,
    random: &mut Random,
    vocabulary: &Vocabulary,
    size: u32,
) -> Result<String, AllocError> {
    let mut text = String::new(alloc);
    for number in 0..size {
        let page = page(alloc, random, vocabulary, number)?;
        text.push_str("{\"id\":\"")?;
        text.push_str(page.reference.as_str())?;
        text.push_str("\",\"title\":\"")?;
        text.push_str(page.title.as_str())?;
        text.push_str("\",\"weight\":12,\"body\":\"")?;
        text.push_str(page.body.as_str())?;
        text.push_str("\"}\n")?;
    }
    Ok(text)
}

fn page(
    alloc: Global,
    random: &mut Random,
    vocabulary: &Vocabulary,
    number: u32,
) -> Result<Page, AllocError> {
    let words = random.from(100, 300);
    Page::new(alloc, random, vocabulary, number, words, ESCAPED)
}

/// Takes the index of lines, and what is said of them.
fn take_lines(alloc: Global, lines: &str, digest: &mut Digest) -> Result<(), Failure> {
    let settings = Settings {
        reference: None,
        fields: None,
        language: None,
        drops_texts: false,
        pretty: false,
        rules: None,
        indexes_reference: false,
    };
    let mut notes = Notes::new(alloc);
    let mut reader = lines.as_bytes();
    let Ok(text) = index_from(alloc, &mut reader, None, &settings, &mut notes) else {
        return Err(Failure {});
    };
    digest.text(text.as_str());
    digest.number(notes.documents as u64);
    digest.number(notes.token_count() as u64);
    digest.number(notes.warnings.len() as u64);
    for warning in &notes.warnings {
        digest.text(warning.as_str());
    }
    Ok(())
}
