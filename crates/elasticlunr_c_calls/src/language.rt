//! The language of an input: a built-in one, with its stemmer or without, or a custom one, of which
//! only the names are known.
ghost use Rattle.std.specs.Prelude.{◌≡◌, Some, IfOk};
ghost use Rattle.elasticlunr.specs.Stages.{names_by, HasKnownStages, LeavesBy};
ghost use Rattle.elasticlunr.specs.Text.{bytes_of};

use elasticlunr::Language;
use elasticlunr::lang::{AnyLanguage, tokenize_whitespace};
use elasticlunr::pipeline::{Pipeline, Stage};
use elasticlunr_stem_languages::Stemmed;
use elasticlunr_stem_stage::with_table;
use std::alloc::{AllocError, Global};

/// A language that an input names. The caller runs a custom language before the call: here its
/// tokens are words, and its stages change no token.
#[derive(Drop)]
pub enum InputLanguage {
    BuiltIn(AnyLanguage),
    Own { name: String, stages: Vec<String> },
    /// A built-in one, with its stemmer after its stages.
    Stemmed(AnyLanguage),
}

impl Language for InputLanguage {
    ghost use Rattle.elasticlunr.specs.Words.{words};
    ghost use Rattle.elasticlunr_c_calls.specs.Languages.{code_in, leaves_in, name_in, stages_in};

    ghost name_of = { name_in };

    ghost code_of = { code_in };

    ghost tokens_of = { λ _. words };

    ghost stages_of = { stages_in };

    ghost leaves_of = { leaves_in };

    fn name(&self, alloc: Global) -> Result<String, AllocError> {
        match self {
            InputLanguage::BuiltIn(language) => language.name(alloc),
            InputLanguage::Own { name, .. } => String::from_str(alloc, name.as_str()),
            InputLanguage::Stemmed(language) => language.name(alloc),
        }
    }

    fn code(&self, alloc: Global) -> Result<String, AllocError> {
        match self {
            InputLanguage::BuiltIn(language) => language.code(alloc),
            InputLanguage::Own { .. } => String::from_str(alloc, ""),
            InputLanguage::Stemmed(language) => language.code(alloc),
        }
    }

    fn tokenize(&self, alloc: Global, text: &str) -> Result<Vec<String>, AllocError> {
        tokenize_whitespace(alloc, text)
    }

    fn tokenizes_whitespace(&self) -> bool {
        true
    }

    fn make_pipeline(&self, alloc: Global, empty: Pipeline) -> Result<Pipeline, AllocError> {
        match self {
            InputLanguage::BuiltIn(language) => language.make_pipeline(alloc, empty),
            InputLanguage::Own { stages, .. } => named_stages(alloc, stages, empty),
            InputLanguage::Stemmed(language) => match with_table(*language) {
                Some(table) => {
                    let language = *language;
                    Stemmed { language, table }.make_pipeline(alloc, empty)
                }
                None => language.make_pipeline(alloc, empty),
            },
        }
    }
}

/// A pipeline of stages with these names that change no token.
fn named_stages(alloc: Global, names: &[String], empty: Pipeline) -> Result<Pipeline, AllocError>
    ensures names { IfOk result (λ pipeline. names_by name_text pipeline ≡ bytes_of names.now) }
    ensures leaves { IfOk result (λ pipeline. LeavesBy leaves pipeline
        (λ token left. left ≡ Some token)) }
    ensures known { IfOk result (λ pipeline. HasKnownStages pipeline) }
{
    let mut pipeline = empty;
    pipeline.queue = Vec::new(alloc);
    for name in names {
        let name = String::from_str(alloc, name.as_str())?;
        pipeline.queue.push(Stage::Keep(name))?;
    }
    Ok(pipeline)
}
