//! Hungarian.
ghost use Rattle.std.specs.Prelude.{◌≡◌};
ghost use Rattle.elasticlunr_lang.specs.Classes.{class_stages};
ghost use Rattle.elasticlunr_lang.specs.StopWords.{listed_words};
ghost use Rattle.elasticlunr_lang.specs.Words.{words};
ghost use Rattle.elasticlunr_stem_languages.specs.Hungarian.{hungarian_name, hungarian_code};
ghost use Rattle.elasticlunr_stem_languages.specs.Hungarian.{hungarian_scripts};
ghost use Rattle.elasticlunr_stem_languages.specs.Hungarian.{hungarian_stop_words};
ghost use Rattle.elasticlunr_stem_languages.specs.Hungarian.{hungarian_leaves};

use crate::hungarian_stop_words::STOP_WORDS;
use elasticlunr_lang::{Language, filter_of_language, tokenize_whitespace, trimmer_of_language};
use elasticlunr_text::pipeline::{Pipeline, Stage};
use std::alloc::{AllocError, Global};
use unicode::properties::Script;

/// Hungarian: a trimmer of the characters of the Latin script, and stop words. The command and its
/// inputs do not have it, only the library.
#[derive(Clone, Copy)]
pub struct Hungarian {}

impl Hungarian {
    /// The language. It has no settings.
    pub fn new() -> Self {
        Hungarian {}
    }
}

impl Language for Hungarian {
    ghost name_of = { λ _. hungarian_name };

    ghost code_of = { λ _. hungarian_code };

    ghost tokens_of = { λ _. words };

    ghost stages_of = { λ _. class_stages hungarian_code };

    ghost leaves_of = { λ _. hungarian_leaves };

    fn name(&self, alloc: Global) -> Result<String, AllocError> {
        String::from_str(alloc, "Hungarian")
    }

    fn code(&self, alloc: Global) -> Result<String, AllocError> {
        String::from_str(alloc, "hu")
    }

    fn tokenize(&self, alloc: Global, text: &str) -> Result<Vec<String>, AllocError> {
        tokenize_whitespace(alloc, text)
    }

    fn tokenizes_whitespace(&self) -> bool {
        true
    }

    fn make_pipeline(&self, alloc: Global, empty: Pipeline) -> Result<Pipeline, AllocError> {
        let mut pipeline = empty;
        let trimmer = trimmer_of_language(alloc, "hu", scripts())?;
        let filter = filter_of_language(alloc, "hu", stop_words())?;
        pipeline.queue = vec![in alloc; Stage::Class(trimmer), Stage::StopWords(filter)]?;
        Ok(pipeline)
    }
}

/// The scripts of the characters that the trimmer keeps.
fn scripts() -> &'static [Script]
    ensures { result.now ≡ hungarian_scripts }
{
    &[Script::Latin]
}

/// The list of the stop words.
#[tactic(auto, unfolding(crate::specs::Hungarian::hungarian_stop_words))]
fn stop_words() -> &'static str
    ensures { listed_words result.now ≡ hungarian_stop_words }
{
    STOP_WORDS
}
