//! What a terminal shows of hits.

use elasticlunr_diagnostics::shown::shown;
use elasticlunr_lang::AnyLanguage;
use elasticlunr_search::{Hit, SearchError, Searcher};
use std::alloc::{AllocError, Global};
use std::collections::BTreeMap;

/// The field whose text is a document's title.
const TITLE: &str = "title";

/// How many words of a line stand before its first found word.
const BEFORE: usize = 6;

/// The characters of a line, without the word that goes past them.
const WIDTH: usize = 72;

/// The characters of a word that a line has.
const WORD: usize = 40;

/// By what words of a text are found.
#[derive(Drop)]
pub struct Found<'s> {
    pub alloc: Global,
    pub searcher: &'s Searcher<AnyLanguage>,
    pub tokens: Vec<String>,
    pub expand: bool,
}

/// A line of a text.
#[derive(Drop)]
struct Line {
    text: String,
    /// Whether it has a found word.
    has_found: bool,
}

/// For each hit its rank, its title and its reference, and below them a line of another text.
pub fn shown_hits(found: &Found<'_>, hits: &[Hit]) -> Result<String, SearchError> {
    let mut text = String::new(found.alloc);
    for (before, hit) in hits.iter().enumerate() {
        let rank = before.saturating_add(1);
        let shown = shown_hit(found, rank, hit.reference.as_str())?;
        text.push_str(shown.as_str())?;
    }
    Ok(text)
}

fn shown_hit(found: &Found<'_>, rank: usize, reference: &str) -> Result<String, SearchError> {
    let alloc = found.alloc;
    let name = shown(alloc, reference)?;
    let texts = texts_of(found, reference)?;
    let Some((title, others)) = texts.split_first() else {
        return Ok(format!(in alloc; "{rank}. {name}\n")?);
    };
    let title = line_of(found, *title)?.text;
    match line_among(found, others)? {
        Some(Line { text, .. }) => Ok(format!(in alloc; "{rank}. {title} ({name})\n   {text}\n")?),
        None => Ok(format!(in alloc; "{rank}. {title} ({name})\n")?),
    }
}

/// The texts of a document that are not empty: its title, and the others in the order of their
/// fields.
fn texts_of<'s>(found: &Found<'s>, reference: &str) -> Result<Vec<&'s str>, AllocError> {
    let mut ordered = Vec::new(found.alloc);
    let Some(texts) = found.searcher.document_store().docs().get(reference) else {
        return Ok(ordered);
    };
    if let Some(title) = text_of(texts, TITLE) {
        ordered.push(title)?;
    }
    for field in found.searcher.fields() {
        if field.as_str() != TITLE {
            if let Some(text) = text_of(texts, field.as_str()) {
                ordered.push(text)?;
            }
        }
    }
    Ok(ordered)
}

/// The text of a field, unless it is empty.
fn text_of<'s>(texts: &'s BTreeMap<String, String>, field: &str) -> Option<&'s str> {
    let text = texts.get(field)?.as_str();
    if text.trim().is_empty() {
        None
    } else {
        Some(text)
    }
}

/// A line of the first text that has a found word, or else of the first text.
fn line_among(found: &Found<'_>, texts: &[&str]) -> Result<Option<Line>, SearchError> {
    let mut first = None;
    for text in texts {
        let line = line_of(found, *text)?;
        if line.has_found {
            return Ok(Some(line));
        }
        if first.is_none() {
            first = Some(line);
        }
    }
    Ok(first)
}

/// A line of a text: around its first found word, or else from its beginning.
fn line_of(found: &Found<'_>, text: &str) -> Result<Line, SearchError> {
    let place = first_found(found, text)?;
    let begins = place.unwrap_or(0).saturating_sub(BEFORE);
    let mut line = String::new(found.alloc);
    if begins > 0 {
        line.push_str("… ")?;
    }
    let mut has_gap = false;
    let mut length = 0usize;
    for piece in text
        .split_inclusive(ends_word)
        .filter(|it| is_text(*it))
        .skip(begins)
    {
        if has_gap {
            line.push(' ')?;
        }
        if length > WIDTH {
            line.push('…')?;
            break;
        }
        let shown = shown_piece(found, piece)?;
        length = length
            .saturating_add(shown.chars().count())
            .saturating_add(1);
        line.push_str(shown.as_str())?;
        has_gap = !piece.ends_with('-');
    }
    Ok(Line {
        text: line,
        has_found: place.is_some(),
    })
}

/// How many pieces of a text stand before the first one whose word is found.
fn first_found(found: &Found<'_>, text: &str) -> Result<Option<usize>, SearchError> {
    let pieces = text.split_inclusive(ends_word).filter(|it| is_text(*it));
    for (before, piece) in pieces.enumerate() {
        if is_found(found, word_of(piece))? {
            return Ok(Some(before));
        }
    }
    Ok(None)
}

/// Whether a character ends a word: white space or a hyphen.
fn ends_word(c: char) -> bool {
    c.is_whitespace() || c == '-'
}

/// Whether a piece of a text is more than white space.
fn is_text(piece: &str) -> bool {
    !piece.trim().is_empty()
}

/// The word of a piece, which a character that ends a word may follow.
fn word_of(piece: &str) -> &str {
    piece.trim_end_matches(ends_word)
}

fn is_found(found: &Found<'_>, word: &str) -> Result<bool, SearchError> {
    found
        .searcher
        .is_found_word(&found.tokens, found.expand, word)
}

/// The word of a piece, marked where it is found, and the hyphen after it.
fn shown_piece(found: &Found<'_>, piece: &str) -> Result<String, SearchError> {
    let word = word_of(piece);
    let mut text = if is_found(found, word)? {
        marked(found.alloc, word)?
    } else {
        cut(found.alloc, word)?
    };
    if piece.ends_with('-') {
        text.push('-')?;
    }
    Ok(text)
}

/// A found word: in brackets, without the punctuation around it.
fn marked(alloc: Global, word: &str) -> Result<String, AllocError> {
    let core = word.trim_matches(is_punctuation);
    if core.is_empty() {
        return bracketed(alloc, "", word, "");
    }
    match word.split_once(core) {
        Some((before, after)) => bracketed(alloc, before, core, after),
        None => bracketed(alloc, "", word, ""),
    }
}

/// A word in brackets between others.
fn bracketed(alloc: Global, before: &str, word: &str, after: &str) -> Result<String, AllocError> {
    let before = cut(alloc, before)?;
    let word = cut(alloc, word)?;
    let after = cut(alloc, after)?;
    format!(in alloc; "{before}[{word}]{after}")
}

/// Whether a character is punctuation: of ASCII, or a quotation mark, a dash or the like.
fn is_punctuation(c: char) -> bool {
    matches!(
        c,
        '!'..='/' | ':'..='@' | '['..='`' | '{'..='~' | '\u{ab}' | '\u{bb}' | '\u{2010}'..='\u{2027}'
    )
}

/// A word, or its beginning where it is long.
fn cut(alloc: Global, word: &str) -> Result<String, AllocError> {
    let mut text = String::new(alloc);
    for (place, c) in word.chars().enumerate() {
        if place == WORD {
            text.push('…')?;
            break;
        }
        text.push(c)?;
    }
    Ok(text)
}
