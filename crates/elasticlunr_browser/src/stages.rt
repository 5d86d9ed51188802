//! The stages of a language, as a script holds them.
ghost use Rattle.std.specs.Prelude.{◌≡◌, ◌∷◌, [], ◌++◌, List, map, string_bytes, option_map, IfOk};
ghost use Rattle.std.specs.Prelude.{IfSome, OnOk, IsNone, None};
ghost use Rattle.serde_json.specs.View.{view};
ghost use Rattle.elasticlunr_text.specs.Text.{Text, texts_of, bytes_of, is_listed};
ghost use Rattle.elasticlunr_text.specs.StopWords.{has_word};
ghost use Rattle.elasticlunr_browser.specs.Stages as spec;
ghost use Rattle.elasticlunr_browser.specs.Stages.{IsFilter, IsTrimmer, IsArabic, filter_data};
ghost use Rattle.elasticlunr_browser.specs.Stages.{arabic_data};
ghost use Rattle.elasticlunr_browser.specs.Kinds.{HoldsStage, HoldsStages, HoldsLanguage};
ghost use Rattle.serde_json.specs.Data.{Data};

use crate::classes::{CharClass, TrimmerClass, marks_of};
use crate::language::ScriptLanguage;
use crate::pairs::{ArabicChange, alone, pairs_of, push_some};
use crate::stemmers::stemmer_of;
use elasticlunr_text::lang::ar;
use elasticlunr_text::lang::common::{RegexTrimmer, StopWordFilter};
use elasticlunr_text::pipeline::{Pipeline, PipelineFn, Stage};
use serde_json::{Value, json};
use std::alloc::{AllocError, Global};

/// The words of a filter in the order of their bytes.
fn words_of(alloc: Global, filter: &StopWordFilter) -> Result<Vec<String>, AllocError>
    ensures { IfOk result (λ words. (token : Text)
        → has_word filter.now token ≡ is_listed token (texts_of words.items)) }
{
    let mut words = Vec::new(alloc);
    for word in filter.stop_words() {
        words.push(word.clone()?)?;
    }
    words.sort()?;
    Ok(words)
}

/// Texts as a value.
pub fn texts(alloc: Global, words: &[String]) -> Result<Value, AllocError>
    ensures { IfOk result (λ value. view value ≡ spec.texts (bytes_of words.now)) }
{
    let mut items = Vec::with_capacity(alloc, words.len())?;
    for word in words {
        items.push(Value::String(word.clone()?))?;
    }
    Ok(Value::Array(items))
}

/// Numbers as a value.
pub fn numbers(alloc: Global, marks: &[u32]) -> Result<Value, AllocError>
    ensures { IfOk result (λ value. view value ≡ spec.numbers marks.now) }
{
    let mut items = Vec::with_capacity(alloc, marks.len())?;
    for mark in marks {
        items.push(Value::from(*mark))?;
    }
    Ok(Value::Array(items))
}

/// What a script holds of a filter.
fn filter_value(alloc: Global, name: &str, words: &Value) -> Result<Value, AllocError>
    ensures { IfOk result (λ value. view value ≡ filter_data name.now (view words.now)) }
{
    json!(in alloc; {"name": name, "words": words})
}

/// A filter of stop words: its name and its words.
fn stop_words(alloc: Global, filter: &StopWordFilter) -> Result<Value, AllocError>
    ensures { IfOk result (λ value. IsFilter filter.now (view value)) }
{
    let listed = words_of(alloc, filter)?;
    let words = texts(alloc, &listed)?;
    let name = filter.name(alloc)?;
    let value = filter_value(alloc, name.as_str(), &words)?;
    Ok(value)
}

/// A trimmer: its name and the marks of its class.
fn class(alloc: Global, trimmer: &RegexTrimmer) -> Result<Value, AllocError>
    ensures { IfOk result (λ value. IsTrimmer trimmer.now (view value)) }
{
    let marks = marks_of(alloc, &TrimmerClass(trimmer))?;
    let class = numbers(alloc, &marks)?;
    let name = trimmer.name(alloc)?;
    json!(in alloc; {"name": name.as_str(), "class": &class})
}

/// The characters of which, alone, the Arabic stemmer leaves nothing.
#[derive(Clone, Copy)]
struct Dropped {}

impl CharClass for Dropped {
    ghost use Rattle.elasticlunr_text.specs.Arabic.{is_diacritic};

    ghost has = { λ _. is_diacritic };

    fn has(&self, alloc: Global, c: char) -> Result<bool, AllocError> {
        let token = alone(alloc, c)?;
        let left = ar::Stemmer::new().filter(alloc, token)?;
        Ok(left.is_none())
    }
}

/// What a script holds of the Arabic stemmer.
fn arabic_value(
    alloc: Global,
    name: &str,
    drops: &Value,
    changes: &Value,
) -> Result<Value, AllocError>
    ensures { IfOk result (λ value. view value ≡ arabic_data name.now (view drops.now)
        (view changes.now)) }
{
    json!(in alloc; {"name": name, "drops": drops, "changes": changes})
}

/// The Arabic stemmer: its name, the marks of what it drops, and what it changes.
fn arabic(alloc: Global) -> Result<Value, AllocError>
    ensures { IfOk result (λ value. IsArabic (view value)) }
{
    let marks = marks_of(alloc, &Dropped {})?;
    let drops = numbers(alloc, &marks)?;
    let pairs = pairs_of(alloc, &ArabicChange {})?;
    let changes = texts(alloc, &pairs)?;
    let name = ar::Stemmer::new().name(alloc)?;
    let value = arabic_value(alloc, name.as_str(), &drops, &changes)?;
    Ok(value)
}

/// A stage, if it isn't one of the browser script's own. The stemmer of a table comes with the
/// language.
fn stage_of(alloc: Global, stage: &Stage) -> Result<Option<Value>, AllocError>
    ensures { IfOk result (λ found. HoldsStage stage.now (option_map view found)) }
{
    match stage {
        Stage::StopWords(filter) => Ok(Some(stop_words(alloc, filter)?)),
        Stage::Class(trimmer) => Ok(Some(class(alloc, trimmer)?)),
        Stage::ArabicStemmer => Ok(Some(arabic(alloc)?)),
        Stage::Keep(name) => Ok(Some(json!(in alloc; {"name": name.as_str()})?)),
        Stage::EnglishTrimmer => Ok(None),
        Stage::EnglishStemmer => Ok(None),
        Stage::TableStemmer(_) => Ok(None),
        Stage::Function(_) => Ok(None),
        Stage::Own(_) => Ok(None),
    }
}

/// The stages of a pipeline.
pub fn stages_of(alloc: Global, pipeline: &Pipeline) -> Result<Vec<Value>, AllocError>
    ensures { IfOk result (λ values. HoldsStages pipeline.now.queue.items (map view values.items)) }
{
    let mut values = Vec::new(alloc);
    for stage in &pipeline.queue {
        let found = stage_of(alloc, stage)?;
        push_some(&mut values, found)?;
    }
    Ok(values)
}

/// Appends the stages of the language, and its stemmer, if it has a table. The stages of English are
/// elasticlunr.js's own.
pub fn push_stages(
    alloc: Global,
    language: ScriptLanguage,
    stages: &mut Vec<Value>,
) -> Result<(), AllocError>
    ensures { OnOk result ((its : List Data) × HoldsLanguage language its
        × (map view stages.new.items ≡ map view stages.old.items ++ its)) }
{
    if language.is_english() {
        return Ok(());
    }
    let pipeline = language.make_pipeline(alloc)?;
    let mut its_own = stages_of(alloc, &pipeline)?;
    let stemmer = stemmer_of(alloc, language)?;
    push_some(&mut its_own, stemmer)?;
    stages.append(&mut its_own)
}
