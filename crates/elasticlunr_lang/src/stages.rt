//! The stages of the built-in languages. Their names and classes are good, so that they fail for
//! lack of memory alone.
ghost use Rattle.std.specs.Prelude.{◌≡◌, ◌++◌, ℕ, codes, string_bytes, IfOk};
ghost use Rattle.elasticlunr_text.specs.Text.{word_texts};
ghost use Rattle.elasticlunr_text.specs.StopWords.{filter_name, HasWords};
ghost use Rattle.elasticlunr_text.specs.Classes.{in_scripts};
ghost use Rattle.elasticlunr_text.specs.Trimmers.{trimmer_name, keeps};
ghost use Rattle.elasticlunr_text.specs.Stages.{names_by, LeavesBy, HasKnownStages};
ghost use Rattle.elasticlunr_lang.specs.Classes.{class_stages, class_leaves};
ghost use Rattle.elasticlunr_lang.specs.StopWords.{listed_words};
ghost use Rattle.elasticlunr_lang.specs.Languages.{english_stages, stem_leaves, arabic_stages};
ghost use Rattle.elasticlunr_lang.specs.Languages.{arabic_leaves, keep_stages};

use elasticlunr_text::lang::common::{RegexTrimmer, StopWordFilter};
use elasticlunr_text::pipeline::{Pipeline, Stage};
use std::alloc::{AllocError, Global};
use unicode::properties::Script;

/// The words of a list, with commas between them.
fn words_listed<'a>(alloc: Global, list: &'a str) -> Result<Vec<&'a str>, AllocError>
    ensures { IfOk result (λ words. word_texts words.items ≡ listed_words list.now) }
{
    list.split(',').collect(alloc)
}

/// The filter of the stop words of a list.
fn stop_word_filter(
    alloc: Global,
    name: &str,
    stop_words: &str,
) -> Result<StopWordFilter, AllocError>
    ensures name { IfOk result (λ filter. filter_name filter ≡ name.now) }
    ensures words { IfOk result (λ filter. HasWords filter (listed_words stop_words.now)) }
{
    let words = words_listed(alloc, stop_words)?;
    match StopWordFilter::new(alloc, name, &words) {
        Ok(filter) => Ok(filter),
        Err(_) => Err(AllocError),
    }
}

/// The name of a stage: the prefix, and the code of the language.
fn stage_name(alloc: Global, prefix: &str, code: &str) -> Result<String, AllocError>
    ensures { IfOk result (λ name. string_bytes name ≡ prefix.now ++ code.now) }
{
    let mut name = String::from_str(alloc, prefix)?;
    name.push_str(code)?;
    Ok(name)
}

/// The filter of the stop words of the language with the code, by the name `stopWordFilter-` and the
/// code. The words stand in one text, with commas between them.
///
/// It fails for lack of memory alone.
pub fn filter_of_language(
    alloc: Global,
    code: &str,
    stop_words: &str,
) -> Result<StopWordFilter, AllocError>
    ensures name { IfOk result (λ filter. filter_name filter ≡ codes "stopWordFilter-" ++ code.now) }
    ensures words { IfOk result (λ filter. HasWords filter (listed_words stop_words.now)) }
{
    let name = stage_name(alloc, "stopWordFilter-", code)?;
    stop_word_filter(alloc, name.as_str(), stop_words)
}

/// The trimmer of the characters of the scripts, for the language with the code, by the name
/// `trimmer-` and the code.
///
/// It fails for lack of memory alone.
pub fn trimmer_of_language(
    alloc: Global,
    code: &str,
    scripts: &[Script],
) -> Result<RegexTrimmer, AllocError>
    ensures name { IfOk result (λ trimmer. trimmer_name trimmer ≡ codes "trimmer-" ++ code.now) }
    ensures class { IfOk result (λ trimmer. (c : ℕ) → keeps trimmer c ≡ in_scripts scripts.now c) }
{
    let name = stage_name(alloc, "trimmer-", code)?;
    match RegexTrimmer::of_scripts(alloc, name.as_str(), scripts) {
        Ok(trimmer) => Ok(trimmer),
        Err(_) => Err(AllocError),
    }
}

/// The pipeline of a trimmer of some scripts and of stop words, for the language with the code.
pub fn class_pipeline(
    alloc: Global,
    code: &str,
    scripts: &[Script],
    stop_words: &str,
    empty: Pipeline,
) -> Result<Pipeline, AllocError>
    ensures names { IfOk result (λ pipeline. names_by name_text pipeline ≡ class_stages code.now) }
    ensures leaves { IfOk result (λ pipeline. LeavesBy leaves pipeline
        (class_leaves (in_scripts scripts.now) (listed_words stop_words.now))) }
    ensures known { IfOk result (λ pipeline. HasKnownStages pipeline) }
{
    let mut pipeline = empty;
    let trimmer = trimmer_of_language(alloc, code, scripts)?;
    let filter = filter_of_language(alloc, code, stop_words)?;
    pipeline.queue = vec![in alloc; Stage::Class(trimmer), Stage::StopWords(filter)]?;
    Ok(pipeline)
}

/// The same with a last stage that keeps every token.
pub fn class_and_keep_pipeline(
    alloc: Global,
    code: &str,
    scripts: &[Script],
    stop_words: &str,
    empty: Pipeline,
) -> Result<Pipeline, AllocError>
    ensures names { IfOk result (λ pipeline. names_by name_text pipeline
        ≡ class_stages code.now ++ keep_stages code.now) }
    ensures leaves { IfOk result (λ pipeline. LeavesBy leaves pipeline
        (class_leaves (in_scripts scripts.now) (listed_words stop_words.now))) }
    ensures known { IfOk result (λ pipeline. HasKnownStages pipeline) }
{
    let name = stage_name(alloc, "stemmer-", code)?;
    let mut pipeline = class_pipeline(alloc, code, scripts, stop_words, empty)?;
    pipeline.queue.push(Stage::Keep(name))?;
    Ok(pipeline)
}

/// The pipeline of the English trimmer, of stop words and of the English stemmer.
pub fn english_pipeline(
    alloc: Global,
    stop_words: &str,
    empty: Pipeline,
) -> Result<Pipeline, AllocError>
    ensures names { IfOk result (λ pipeline. names_by name_text pipeline ≡ english_stages) }
    ensures leaves { IfOk result (λ pipeline. LeavesBy leaves pipeline
        (stem_leaves (listed_words stop_words.now))) }
    ensures known { IfOk result (λ pipeline. HasKnownStages pipeline) }
{
    let mut pipeline = empty;
    let filter = stop_word_filter(alloc, "stopWordFilter", stop_words)?;
    pipeline.queue = vec![in alloc;
        Stage::EnglishTrimmer,
        Stage::StopWords(filter),
        Stage::EnglishStemmer,
    ]?;
    Ok(pipeline)
}

/// The pipeline of the Arabic stemmer.
pub fn arabic_pipeline(alloc: Global, empty: Pipeline) -> Result<Pipeline, AllocError>
    ensures names { IfOk result (λ pipeline. names_by name_text pipeline ≡ arabic_stages) }
    ensures leaves { IfOk result (λ pipeline. LeavesBy leaves pipeline arabic_leaves) }
    ensures known { IfOk result (λ pipeline. HasKnownStages pipeline) }
{
    let mut pipeline = empty;
    pipeline.queue = vec![in alloc; Stage::ArabicStemmer]?;
    Ok(pipeline)
}
