//! The words of a document that are indexed, where rules choose them.
ghost use Rattle.std.specs.Prelude.{◌≡◌, ◌≤◌, ◌+◌, length, map, take, drop, slice_get, IfOk};
ghost use Rattle.std.specs.Prelude.{IfSome, option_map, unwrap_or};
ghost use Rattle.std.specs.List.{flat_map};
ghost use Rattle.std.specs.Str.{chars};
ghost use Rattle.elasticlunr.specs.Fields.{borrowed, has_name};
ghost use Rattle.elasticlunr_text.specs.Text.{texts_of, word_texts};
ghost use Rattle.elasticlunr_job.specs.Commands.{is_short, kept_words};
ghost use Rattle.elasticlunr_job.specs.Given.{AreGiven, IsSourceOf, chosen_lists, keeps_all};
ghost use Rattle.elasticlunr_job.specs.Given.{kept_lists};
ghost use Rattle.elasticlunr_job_format.specs.Rules.{given_rules, rules_told, stems_by};

use elasticlunr::lang::tokenize_whitespace;
use elasticlunr::{FieldValue, TokenSource};
use elasticlunr_job_format::rules::WordRules;
use std::alloc::{AllocError, Global};

/// Whether a word has no more characters than this.
fn is_short(longest: Option<usize>, word: &str) -> bool
    ensures { result ≡ is_short longest (chars word.now) }
{
    match longest {
        Some(most) => word.chars().count() <= most,
        None => true,
    }
}

/// Whether a name is among these.
pub fn has_name(name: &str, names: &[&str]) -> bool
    ensures { result ≡ has_name name.now (borrowed names.now) }
{
    names.iter().any(|other| *other == name)
}

/// The words of a value of this field that are indexed.
fn kept_words(
    alloc: Global,
    rules: &WordRules<'_>,
    field: &str,
    value: &str,
) -> Result<Vec<String>, AllocError>
    ensures { IfOk result (λ kept.
        texts_of kept.items ≡ kept_words (rules_told rules.now) field.now value.now) }
{
    if has_name(field, &rules.stored) {
        return Ok(Vec::new(alloc));
    }
    let mut words = tokenize_whitespace(alloc, value)?;
    words.retain(|word| is_short(rules.longest, word.as_str()));
    Ok(words)
}

/// Whether words are stemmed under these rules, in a language whose stemmer has a table.
pub fn stems_by(rules: &Option<WordRules<'_>>) -> bool
    ensures { result ≡ stems_by (given_rules rules.now) }
{
    match rules {
        Some(rules) => rules.stems,
        None => false,
    }
}

/// Whether rules keep all words of each value.
fn keeps_all(rules: &WordRules<'_>) -> bool
    ensures { result ≡ keeps_all (rules_told rules.now) }
{
    rules.longest.is_none() && rules.stored.is_empty()
}

/// The words that rules keep of each value.
fn chosen_lists(
    alloc: Global,
    rules: &WordRules<'_>,
    fields: &[&str],
    values: &[&str],
) -> Result<Vec<Vec<String>>, AllocError>
    ensures { IfOk result (λ kept. map (λ words. texts_of words.items) kept.items
        ≡ chosen_lists (rules_told rules.now) (borrowed fields.now) (borrowed values.now)) }
{
    let mut kept = Vec::with_capacity(alloc, values.len())?;
    for (field, value) in fields.iter().zip(values) {
        kept.push(kept_words(alloc, rules, *field, *value)?)?;
    }
    Ok(kept)
}

/// The words that rules keep of each value; no list of words at all without rules, nor where they
/// keep all: then the index splits the texts itself.
pub fn kept_lists(
    alloc: Global,
    rules: &Option<WordRules<'_>>,
    fields: &[&str],
    values: &[&str],
) -> Result<Vec<Vec<String>>, AllocError>
    ensures { IfOk result (λ kept. map (λ words. texts_of words.items) kept.items
        ≡ kept_lists (given_rules rules.now) (borrowed fields.now) (borrowed values.now)) }
{
    let Some(rules) = rules else {
        return Ok(Vec::new(alloc));
    };
    if keeps_all(rules) {
        return Ok(Vec::new(alloc));
    }
    chosen_lists(alloc, rules, fields, values)
}

/// The words of all values, one after the other.
pub fn all_words<'a>(alloc: Global, kept: &'a [Vec<String>]) -> Result<Vec<&'a str>, AllocError>
    ensures { IfOk result (λ words. word_texts words.items
        ≡ flat_map (λ list. texts_of list.items) kept.now) }
{
    let mut words = Vec::new(alloc);
    for list in kept {
        for word in list {
            words.push(word.as_str())?;
        }
    }
    Ok(words)
}

/// How many words the value of this number has, if its words are kept.
fn count_at(kept: &[Vec<String>], i: usize) -> Option<usize>
    ensures { result ≡ option_map (λ list. length list.items) (slice_get kept.now i) }
{
    match kept.get(i) {
        Some(list) => Some(list.len()),
        None => None,
    }
}

/// So many words from a place on, as the tokens of a value; without a number those of its text.
fn source_at<'a>(words: &'a [&'a str], start: usize, count: Option<usize>) -> TokenSource<'a>
    requires { IfSome count (λ n. start + n ≤ length words.now) }
    ensures { IsSourceOf (option_map (λ n. take n (drop start (word_texts words.now))) count)
        result }
{
    match count {
        Some(count) => TokenSource::IntoPipeline(&words[start..start + count]),
        None => TokenSource::FromText,
    }
}

/// The place after so many words from a place on.
fn end_of(words: &[&str], start: usize, count: Option<usize>) -> usize
    requires { IfSome count (λ n. start + n ≤ length words.now) }
    ensures { result ≡ start + unwrap_or count 0 }
{
    match count {
        Some(count) => start + count,
        None => start,
    }
}

/// The values of a document, each with the words that are kept of it, where there are some. `words`
/// are all of these, one after the other.
pub fn values_with<'a>(
    alloc: Global,
    values: &'a [&'a str],
    words: &'a [&'a str],
    kept: &[Vec<String>],
) -> Result<Vec<FieldValue<'a>>, AllocError>
    requires { word_texts words.now ≡ flat_map (λ list. texts_of list.items) kept.now }
    ensures { IfOk result (λ given. AreGiven (borrowed values.now)
        (map (λ list. texts_of list.items) kept.now) given.items) }
{
    let mut given = Vec::with_capacity(alloc, values.len())?;
    let mut start: usize = 0;
    for (i, text) in values.iter().enumerate() {
        let count = count_at(kept, i);
        given.push(FieldValue {
            text: *text,
            tokens: source_at(words, start, count),
        })?;
        start = end_of(words, start, count);
    }
    Ok(given)
}
