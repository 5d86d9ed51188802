//! Hits as lines of JSON.
ghost use Rattle.std.specs.Prelude.{◌≡◌, IfOk, option_map, string_bytes};
ghost use Rattle.elasticlunr_json.specs.Maps.{keyed};
ghost use Rattle.elasticlunr_store.specs.Contents.{text_map};
ghost use Rattle.elasticlunr_ranking.specs.Order.{told_hits};
ghost use Rattle.elasticlunr_search.specs.Standing.{kept_contents, kept_texts};
ghost use Rattle.elasticlunr_hits.specs.Lines.{AreJsonLines, IsHitText};
ghost use Rattle.elasticlunr_hits.specs.Lines.{score_value as value_of_score};
ghost use Rattle.elasticlunr_hits.specs.Lines.{texts_value as value_of_texts};
ghost use Rattle.serde_json.specs.Data.{string};
ghost use Rattle.serde_json.specs.View.{view};

use elasticlunr_json::put_member;
use elasticlunr_lang::AnyLanguage;
use elasticlunr_search::{Hit, Searcher};
use serde_json::{Map, Number, Value};
use std::alloc::{AllocError, Global};
use std::collections::BTreeMap;

/// A line for each hit: an object with its reference, its score and its stored texts.
pub(crate) fn json_lines(
    alloc: Global,
    searcher: &Searcher<AnyLanguage>,
    hits: &[Hit],
) -> Result<String, AllocError>
    ensures { IfOk result (λ text. AreJsonLines (kept_contents searcher.now) (told_hits hits.now)
        (string_bytes text)) }
{
    let mut lines = String::new(alloc);
    for hit in hits {
        let texts = texts_of(searcher, hit.reference.as_str())?;
        let line = hit_text(alloc, hit, texts)?;
        lines.push_str(line.as_str())?;
        lines.push('\n')?;
    }
    Ok(lines)
}

/// What is stored of a document.
fn texts_of(
    searcher: &Searcher<AnyLanguage>,
    reference: &str,
) -> Result<Option<BTreeMap<String, String>>, AllocError>
    ensures { IfOk result (λ texts.
        option_map (λ t. text_map t.entries) texts ≡ kept_texts searcher.now reference.now) }
{
    match searcher.texts(reference) {
        Ok(texts) => Ok(texts),
        Err(_) => Err(AllocError),
    }
}

/// The object of a hit, with the members that elasticlunr.js gives one.
fn hit_text(
    alloc: Global,
    hit: &Hit,
    texts: Option<BTreeMap<String, String>>,
) -> Result<String, AllocError>
    ensures { IfOk result (λ text. IsHitText (option_map (λ t. text_map t.entries) texts)
        (string_bytes hit.now.reference, hit.now.score) (string_bytes text)) }
{
    let score = score_value(hit.score).to_string(alloc)?;
    let reference = Value::String(hit.reference.clone()?).to_string(alloc)?;
    let document = document_value(alloc, texts)?.to_string(alloc)?;
    format!(in alloc; "{{\"ref\":{reference},\"score\":{score},\"doc\":{document}}}")
}

/// A score, or null where it is infinite.
fn score_value(score: f64) -> Value
    ensures { view result ≡ value_of_score score }
{
    match Number::from_f64(score) {
        Some(number) => Value::Number(number),
        None => Value::Null,
    }
}

/// An object of texts, or null where there is no document.
fn document_value(
    alloc: Global,
    texts: Option<BTreeMap<String, String>>,
) -> Result<Value, AllocError>
    ensures { IfOk result (λ v. view v ≡ value_of_texts
        (option_map (λ t. text_map t.entries) texts)) }
{
    match texts {
        Some(texts) => texts_value(alloc, texts),
        None => Ok(Value::Null),
    }
}

/// An object of texts.
fn texts_value(alloc: Global, texts: BTreeMap<String, String>) -> Result<Value, AllocError>
    ensures { IfOk result (λ v. view v ≡ keyed string (text_map texts.entries)) }
{
    let mut members = Map::new(alloc);
    for (field, text) in texts {
        put_member(&mut members, field, Value::String(text))?;
    }
    Ok(Value::Object(members))
}
