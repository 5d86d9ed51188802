//! The kinds of stages.
ghost use Rattle.std.specs.Prelude.{◌≡◌, IfOk, IsOk, option_map, string_bytes};
ghost use Rattle.elasticlunr_text.specs.Text.{text_of};
ghost use Rattle.elasticlunr_text.specs.Stages.{MayLeave, stage_name, NeedsNoMemory};

use super::function::{FnWrapper, PipelineFn};
use crate::lang::common::{RegexTrimmer, StopWordFilter, TableStemmer};
use crate::lang::{ar, en};
use std::alloc::{AllocError, Global};

/// A stage of a pipeline: of a kind that the library knows, or a custom one.
#[derive(Drop)]
pub enum Stage {
    /// `lang::en::trimmer`, with the name `trimmer`.
    EnglishTrimmer,
    /// Drops stop words; with the filter's name.
    StopWords(StopWordFilter),
    /// Cuts what is not of a class off both ends; with the trimmer's name.
    Class(RegexTrimmer),
    /// `lang::en::Stemmer`, with the name `stemmer`.
    EnglishStemmer,
    /// `lang::ar::Stemmer`, with the name `stemmer-ar`.
    ArabicStemmer,
    /// Makes each token its stem by a table; with the stemmer's name.
    TableStemmer(TableStemmer),
    /// Keeps every token; the text is the name.
    Keep(String),
    /// A custom function; with the wrapper's name.
    Function(FnWrapper),
    /// A custom object, with its own name. Its type holds no function pointer and no
    /// boxed object.
    Own(Box<dyn PipelineFn>),
}

impl Stage {
    /// The name of the stage.
    pub fn name(&self, alloc: Global) -> Result<String, AllocError>
        ensures { IfOk result (λ name. string_bytes name ≡ stage_name name_text self.now) }
    {
        match self {
            Stage::EnglishTrimmer => String::from_str(alloc, "trimmer"),
            Stage::StopWords(filter) => filter.name(alloc),
            Stage::Class(trimmer) => trimmer.name(alloc),
            Stage::EnglishStemmer => en::Stemmer::new().name(alloc),
            Stage::ArabicStemmer => ar::Stemmer::new().name(alloc),
            Stage::TableStemmer(stemmer) => stemmer.name(alloc),
            Stage::Keep(name) => name.clone(),
            Stage::Function(wrapper) => wrapper.name(alloc),
            Stage::Own(step) => step.name(alloc),
        }
    }

    /// The output of the stage for the token, edited in its own buffer: only `TableStemmer`,
    /// `Function` and `Own` may request memory.
    pub fn filter(&self, alloc: Global, token: String) -> Result<Option<String>, AllocError>
        ensures left { IfOk result (λ left. MayLeave leaves self.now (text_of token)
            (option_map text_of left)) }
        ensures always { NeedsNoMemory self.now → IsOk result }
    {
        match self {
            Stage::EnglishTrimmer => en::trimmer(alloc, token),
            Stage::StopWords(filter) => filter.filter(alloc, token),
            Stage::Class(trimmer) => trimmer.filter(alloc, token),
            Stage::EnglishStemmer => en::Stemmer::new().filter(alloc, token),
            Stage::ArabicStemmer => ar::Stemmer::new().filter(alloc, token),
            Stage::TableStemmer(stemmer) => stemmer.filter(alloc, token),
            Stage::Keep(_) => Ok(Some(token)),
            Stage::Function(wrapper) => wrapper.filter(alloc, token),
            Stage::Own(step) => step.filter(alloc, token),
        }
    }
}
