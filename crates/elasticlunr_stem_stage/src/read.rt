//! Stemmers by the tables of languages.
ghost use Rattle.std.specs.Prelude.{IfErr, IfOk};
ghost use Rattle.std.specs.Str.{chars};
ghost use Rattle.elasticlunr_stem_stage.specs.Stemmer.{IsStemmerOf};
ghost use Rattle.elasticlunr_stem_tables.specs.Languages.{table_text};
ghost use Rattle.elasticlunr_stems.specs.Held.{Refuses};
ghost use Rattle.elasticlunr_stems.specs.Reading.{table_in};

use elasticlunr_stem_cache::CachedStemmer;
use elasticlunr_stem_tables::{Language, Version};
use elasticlunr_stems::TableError;
use elasticlunr_text::lang::common::TableStemmer;
use std::alloc::Global;

/// The stemmer of a language, after a version of Snowball, for `Stage::TableStemmer`: a stage that
/// goes after the trimmer and the stop words of the language.
///
/// It reads the table of the language, of some thousand steps and suffixes, and holds it.
pub fn read_stemmer(
    alloc: Global,
    language: Language,
    version: Version,
) -> Result<TableStemmer, TableError>
    ensures ok { IfOk result (IsStemmerOf language version) }
    ensures err { IfErr result (λ e. Refuses e (table_in (chars (table_text version language)))) }
{
    let code = language.code();
    let name = format!(in alloc; "stemmer-{code}")?;
    let stemmer = CachedStemmer::read(alloc, language, version)?;
    Ok(TableStemmer { name, stemmer })
}
