//! A language with the stemmer of a table.
ghost use Rattle.std.specs.Prelude.{◌++◌, Some};
ghost use Rattle.elasticlunr_stem_stage.specs.Stemmed.{StemmedLeaves, stemmer_stages};

use elasticlunr_lang::Language;
use elasticlunr_stem_stage::{Language as Table, table_stemmer};
use elasticlunr_text::pipeline::{Pipeline, Stage};
use std::alloc::{AllocError, Global};

/// A language with a stemmer after its stages, after Snowball 2.2. It has the name, the code and the
/// tokens of the language; an index tells it apart by the names of the stages. With a built-in
/// language and the table of its name it is the language of `elasticlunr build --stems`.
///
/// The stages must make tokens in lower case, as those of the built-in languages do.
#[derive(Drop)]
pub struct Stemmed<L: Language> {
    pub language: L,
    pub table: Table,
}

impl<L: Language> Language for Stemmed<L> {
    ghost name_of = { λ s. L.name_of s.language };

    ghost code_of = { λ s. L.code_of s.language };

    ghost tokens_of = { λ s. L.tokens_of s.language };

    ghost stages_of = { λ s. L.stages_of s.language ++ stemmer_stages (Some s.table) };

    ghost leaves_of = { λ s. StemmedLeaves (Some s.table) (L.leaves_of s.language) };

    fn name(&self, alloc: Global) -> Result<String, AllocError> {
        self.language.name(alloc)
    }

    fn code(&self, alloc: Global) -> Result<String, AllocError> {
        self.language.code(alloc)
    }

    fn tokenize(&self, alloc: Global, text: &str) -> Result<Vec<String>, AllocError> {
        self.language.tokenize(alloc, text)
    }

    fn tokenizes_whitespace(&self) -> bool {
        self.language.tokenizes_whitespace()
    }

    fn make_pipeline(&self, alloc: Global, empty: Pipeline) -> Result<Pipeline, AllocError> {
        let mut pipeline = self.language.make_pipeline(alloc, empty)?;
        let stemmer = table_stemmer(alloc, self.table)?;
        pipeline.queue.push(Stage::TableStemmer(stemmer))?;
        Ok(pipeline)
    }
}
