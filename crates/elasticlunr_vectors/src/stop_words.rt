//! The stop words of the built-in languages and of Hungarian: each list compared whole with that of
//! the original.
use crate::cells;
use crate::tables::Counts;
use elasticlunr::Language;
use elasticlunr::lang::common::StopWordFilter;
use elasticlunr::lang::from_code;
use elasticlunr::pipeline::{Pipeline, PipelineFn, Stage};
use elasticlunr_stem_languages::Hungarian;
use std::alloc::{AllocError, Global};
use std::{fs, io};

/// Runs the list of a language.
pub fn run(rt: &HostRuntime, code: &str) -> io::Result<()> {
    let file = format!(in rt.alloc(); "stopwords/{code}.txt")?;
    let text = fs::read_to_string(rt, file.as_str())?;
    let counts = compared(rt.alloc(), code, text.as_str())?;
    counts.tell(rt, file.as_str())
}

fn compared(alloc: Global, code: &str, list: &str) -> Result<Counts, AllocError> {
    let mut counts = Counts::new();
    match (pipeline_of(alloc, code)?, cells::texts(alloc, list)?) {
        (Some(pipeline), Some(words)) => compare(alloc, &pipeline, &words, &mut counts)?,
        _ => counts.add(false),
    }
    Ok(counts)
}

/// The pipeline of the language with the code, `None` where no language has it.
fn pipeline_of(alloc: Global, code: &str) -> Result<Option<Pipeline>, AllocError> {
    let empty = Pipeline {
        queue: Vec::new(alloc),
    };
    if code == "hu" {
        return Ok(Some(Hungarian::new().make_pipeline(alloc, empty)?));
    }
    match from_code(code) {
        Some(language) => Ok(Some(language.make_pipeline(alloc, empty)?)),
        None => Ok(None),
    }
}

fn compare(
    alloc: Global,
    pipeline: &Pipeline,
    words: &[String],
    counts: &mut Counts,
) -> Result<(), AllocError> {
    for stage in &pipeline.queue {
        if let Stage::StopWords(filter) = stage {
            drops_each(alloc, filter, words, counts)?;
            has_no_other(filter, words, counts);
        }
    }
    Ok(())
}

/// Counts the words of the list: right are those that the filter drops.
fn drops_each(
    alloc: Global,
    filter: &StopWordFilter,
    words: &[String],
    counts: &mut Counts,
) -> Result<(), AllocError> {
    for word in words {
        let left = filter.filter(alloc, word.clone()?)?;
        counts.add(left.is_none());
    }
    Ok(())
}

/// Counts as wrong each stop word of the filter that is not in the list.
fn has_no_other(filter: &StopWordFilter, words: &[String], counts: &mut Counts) {
    for stop_word in filter.stop_words() {
        if !words.iter().any(|word| word.as_str() == stop_word.as_str()) {
            counts.add(false);
        }
    }
}
