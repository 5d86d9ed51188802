//! A searcher of an index by the language that the index names.
ghost use Rattle.std.specs.Prelude.{◌≡◌, None, Err, IfOk, IfErr};
ghost use Rattle.elasticlunr_search.specs.Named.{IsNamedIn, IsPipelineFor, IsTextOfOtherStages};
ghost use Rattle.elasticlunr_search.specs.Unanswered.{IsTextNotSearched};
ghost use Rattle.elasticlunr_search.specs.declared.answer.Refusal.TheVariants.{OtherPipeline};

use crate::answer::{Refusal, language_of};
use crate::searcher::Searcher;
use crate::source::Source;
use elasticlunr::laws::values::printed_texts_have_their_parts;
use elasticlunr_lang::{AnyLanguage, Language};
use elasticlunr_stem_stage::{table_stemmer, with_table};
use elasticlunr_text::pipeline::{Pipeline, Stage};
use std::alloc::{AllocError, Global};

/// Reads the printed text of an index, in any layout, once, by the language that it names: what
/// `Searcher::read` does for a caller that doesn't know the language. The stages of the index may
/// be those of its language, or these with its stemmer after them, as `language_pipeline` of
/// `elasticlunr_stem_stage` makes them. A text that names other stages is refused.
///
/// It costs what `Searcher::read` costs, and with stems a read of the stemmer's table.
pub fn read_named(alloc: Global, text: &str) -> Result<Searcher<AnyLanguage>, Refusal>
    ensures named { IfOk result (IsNamedIn leaves text.now) }
    ensures refused { IfErr result (IsTextNotSearched text.now None) }
    ensures other_stages { result ≡ Err OtherPipeline → IsTextOfOtherStages text.now }
{
    printed_texts_have_their_parts();
    let source = Source::of_text(alloc, text)?;
    let language = language_of(&source)?;
    let pipeline = pipeline_for(alloc, language, &source)?;
    let searcher = Searcher::of_source(alloc, language, pipeline, source)?;
    Ok(searcher)
}

/// The pipeline of a language where an index has its stages, or else the one with its stemmer.
fn pipeline_for(
    alloc: Global,
    language: AnyLanguage,
    source: &Source,
) -> Result<Pipeline, AllocError>
    ensures { IfOk result (IsPipelineFor name_text leaves language source.now) }
{
    let empty = Pipeline {
        queue: Vec::new(alloc),
    };
    let mut pipeline = language.make_pipeline(alloc, empty)?;
    let stages = pipeline.names(alloc)?;
    if source.has_stages(alloc, &stages)? {
        return Ok(pipeline);
    }
    let Some(table) = with_table(language) else {
        return Ok(pipeline);
    };
    let stemmer = table_stemmer(alloc, table)?;
    pipeline.queue.push(Stage::TableStemmer(stemmer))?;
    Ok(pipeline)
}
