//! The words of a text.
ghost use Rattle.std.specs.Prelude.{◌≡◌, ◌<◌, List, ◌∷◌, [], ◌++◌, IfOk, IfSome, OnOk, filter};
ghost use Rattle.std.specs.Prelude.{map, length, option_map};
ghost use Rattle.std.specs.Str.{chars, IsAscii};
ghost use Rattle.elasticlunr_text.specs.Text.{Text, text_of, texts_of, is_not_empty};
ghost use Rattle.elasticlunr_lang.specs.Lower.{lower};
ghost use Rattle.elasticlunr_lang.specs.Read.{IsReadAs};
ghost use Rattle.elasticlunr_lang.specs.Words.{words, in_lower_case, is_separator, IsRunOf};

use crate::lower::lower_char;
use elasticlunr_text::pipeline::Pipeline;
use std::alloc::{AllocError, Global};

#[tactic(auto, unfolding(crate::specs::Words::is_separator))]
fn is_separator(c: char) -> bool
    ensures { result ≡ is_separator c }
{
    c.is_whitespace() || c == '-'
}

/// Appends the character in lower case.
fn push_lower(text: &mut String, c: char) -> Result<(), AllocError>
    ensures { OnOk result (text_of text.new ≡ text_of text.old ++ lower c) }
{
    let (first, second) = lower_char(c);
    text.push(first)?;
    if let Some(second) = second {
        text.push(second)?;
    }
    Ok(())
}

/// The text in lower case, byte by byte.
fn ascii_word(alloc: Global, run: &str) -> Result<String, AllocError>
    requires { IsAscii run.now }
    ensures { IfOk result (λ word. text_of word ≡ in_lower_case (chars run.now)) }
{
    let mut word = String::from_str(alloc, run)?;
    word.make_ascii_lowercase();
    Ok(word)
}

/// The text in lower case.
fn word_of(alloc: Global, run: &str) -> Result<String, AllocError>
    ensures { IfOk result (λ word. text_of word ≡ in_lower_case (chars run.now)) }
{
    if run.is_ascii() {
        return ascii_word(alloc, run);
    }
    let mut word = String::with_capacity(alloc, run.len())?;
    for c in run.chars() {
        push_lower(&mut word, c)?;
    }
    Ok(word)
}

/// Adds the word of a run, unless it is empty.
fn push_word(alloc: Global, words: &mut Vec<String>, run: &str) -> Result<(), AllocError>
    ensures { OnOk result (texts_of words.new.items
        ≡ texts_of words.old.items ++ map in_lower_case (filter is_not_empty (chars run.now ∷ []))) }
{
    if !run.is_empty() {
        let word = word_of(alloc, run)?;
        words.push(word)?;
    }
    Ok(())
}

/// The text up to its first separator, and what follows that.
fn split_run(text: &str) -> (&str, Option<&str>)
    ensures run { IsRunOf (chars text.now) (chars result.0.now)
        (option_map (λ rest. chars rest.now) result.1) }
    ensures shorter { IfSome result.1 (λ rest. length rest.now < length text.now) }
{
    match text.split_once(|c| is_separator(c)) {
        Some((run, rest)) => (run, Some(rest)),
        None => (text, None),
    }
}

/// The words of the text in order, in lower case: the longest runs of characters that are neither
/// white space nor `-`. One pass over the text.
pub fn tokenize_whitespace(alloc: Global, text: &str) -> Result<Vec<String>, AllocError>
    ensures { IfOk result (λ tokens. texts_of tokens.items ≡ words (chars text.now)) }
{
    let mut tokens = Vec::new(alloc);
    let mut left = Some(text);
    while let Some(text) = left {
        let (run, rest) = split_run(text);
        push_word(alloc, &mut tokens, run)?;
        left = rest;
    }
    Ok(tokens)
}

/// Adds the output of a pipeline for the word of a run to that for others, unless the run is empty.
fn read_run(
    alloc: Global,
    run: &str,
    pipeline: &Pipeline,
    kept: &mut Vec<String>,
) -> Result<(), AllocError>
    ensures { OnOk result ((tokens : List Text)
        → IsReadAs leaves pipeline.now tokens (texts_of kept.old.items)
        → IsReadAs leaves pipeline.now (tokens ++ map in_lower_case
        (filter is_not_empty (chars run.now ∷ [])))
        (texts_of kept.new.items)) }
{
    if !run.is_empty() {
        let word = word_of(alloc, run)?;
        pipeline.run_on(alloc, word, kept)?;
    }
    Ok(())
}

/// The output of a pipeline for the words of the text, in order. Each word passes the stages before
/// the next one is made, so that the memory of a word that a stage drops serves another one.
pub fn run_on_words(
    alloc: Global,
    text: &str,
    pipeline: &Pipeline,
) -> Result<Vec<String>, AllocError>
    ensures { IfOk result (λ left. IsReadAs leaves pipeline.now (words (chars text.now))
        (texts_of left.items)) }
{
    let mut kept = Vec::new(alloc);
    let mut left = Some(text);
    while let Some(text) = left {
        let (run, rest) = split_run(text);
        read_run(alloc, run, pipeline, &mut kept)?;
        left = rest;
    }
    Ok(kept)
}
