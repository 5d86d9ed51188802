//! Pipelines of the built-in languages, with their stemmers.
ghost use Rattle.std.specs.Prelude.{◌≡◌, ◌++◌, [], ◌∷◌, IfOk, Some, codes};
ghost use Rattle.elasticlunr_text.specs.Stages.{HasKnownStages, LeavesBy, names_by};
ghost use Rattle.elasticlunr_text.specs.Text.{Text};
ghost use Rattle.elasticlunr_text.specs.TableStemmers.{stemmer_name, table_stem};
ghost use Rattle.elasticlunr_lang.specs.Known.{language_leaves};
ghost use Rattle.elasticlunr_lang.specs.declared.any.AnyLanguage.{AnyLanguage};
ghost use Rattle.elasticlunr_stem_stage.specs.Stemmed as spec;
ghost use Rattle.elasticlunr_stem_stage.specs.Stemmed.{StemmedLeaves, StemsTo, leaves_with};
ghost use Rattle.elasticlunr_stem_stage.specs.Stemmed.{stages_with};
ghost use Rattle.elasticlunr_stem_tables.specs.Languages.{language_code};

use crate::read::read_stemmer;
use elasticlunr_lang::{AnyLanguage, Language};
use elasticlunr_stem_tables::{Language as Table, Version};
use elasticlunr_text::lang::common::TableStemmer;
use elasticlunr_text::pipeline::{Pipeline, Stage};
use std::alloc::{AllocError, Global};

/// The language of the tables that has the same name. English and Arabic stem without a table, and
/// Korean has no stems.
pub fn with_table(language: AnyLanguage) -> Option<Table>
    ensures { result ≡ spec.with_table language }
{
    match language {
        AnyLanguage::English => None,
        AnyLanguage::Arabic => None,
        AnyLanguage::Danish => Some(Table::Danish),
        AnyLanguage::Dutch => Some(Table::Dutch),
        AnyLanguage::Finnish => Some(Table::Finnish),
        AnyLanguage::French => Some(Table::French),
        AnyLanguage::German => Some(Table::German),
        AnyLanguage::Italian => Some(Table::Italian),
        AnyLanguage::Korean => None,
        AnyLanguage::Norwegian => Some(Table::Norwegian),
        AnyLanguage::Portuguese => Some(Table::Portuguese),
        AnyLanguage::Romanian => Some(Table::Romanian),
        AnyLanguage::Russian => Some(Table::Russian),
        AnyLanguage::Spanish => Some(Table::Spanish),
        AnyLanguage::Swedish => Some(Table::Swedish),
        AnyLanguage::Turkish => Some(Table::Turkish),
    }
}

/// The pipeline of a language, and with stems its stemmer after its stages, where it has a table:
/// for `IndexBuilder::with_pipeline` and `Searcher::with_pipeline`. The stems are those of
/// Snowball 2.2.
///
/// With stems it reads the table, of some thousand steps and suffixes.
pub fn language_pipeline(
    alloc: Global,
    language: AnyLanguage,
    stems: bool,
) -> Result<Pipeline, AllocError>
    ensures names { IfOk result (λ pipeline.
        names_by name_text pipeline ≡ stages_with stems language) }
    ensures leaves { IfOk result (λ pipeline.
        LeavesBy leaves pipeline (leaves_with stems language)) }
    ensures known { IfOk result (λ pipeline. HasKnownStages pipeline) }
{
    let empty = Pipeline {
        queue: Vec::new(alloc),
    };
    let pipeline = language.make_pipeline(alloc, empty)?;
    if !stems {
        return Ok(pipeline);
    }
    match with_table(language) {
        Some(table) => with_stemmer(alloc, pipeline, table),
        None => Ok(pipeline),
    }
}

/// The same stages of a language, and after them the stemmer of a table.
fn with_stemmer(alloc: Global, mut pipeline: Pipeline, table: Table) -> Result<Pipeline, AllocError>
    ensures names { IfOk result (λ more. names_by name_text more
        ≡ names_by name_text pipeline ++ (codes "stemmer-" ++ language_code table) ∷ []) }
    ensures leaves { IfOk result (λ more. (language : AnyLanguage)
        → LeavesBy leaves pipeline (language_leaves language)
        → LeavesBy leaves more (StemmedLeaves (Some table) (language_leaves language))) }
    ensures known { IfOk result (λ more. HasKnownStages pipeline → HasKnownStages more) }
{
    let stemmer = table_stemmer(alloc, table)?;
    pipeline.queue.push(Stage::TableStemmer(stemmer))?;
    Ok(pipeline)
}

/// The stemmer of a table, after Snowball 2.2: a stage that goes after those of its language.
pub fn table_stemmer(alloc: Global, table: Table) -> Result<TableStemmer, AllocError>
    ensures name { IfOk result (λ stemmer. stemmer_name stemmer
        ≡ codes "stemmer-" ++ language_code table) }
    ensures stems { IfOk result (λ stemmer. (word : Text)
        → StemsTo table word (table_stem stemmer word)) }
{
    match read_stemmer(alloc, table, Version::Current) {
        Ok(stemmer) => Ok(stemmer),
        Err(_) => Err(AllocError),
    }
}
