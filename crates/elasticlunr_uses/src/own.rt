//! An index with a custom stage and language, those of `custom`.
//!
//! What each means stands in its `ghost` lines, in words of the library; the prover holds the body
//! against them. Proved: the printed text names the language, the stages and the field, and is that
//! of one document whose tokens are the words of its text, trimmed, without those that are then
//! empty.
ghost use Rattle.std.specs.Prelude.{◌≡◌, ◌∷◌, [], IfErr, IfOk, codes, filter_map, string_bytes};
ghost use Rattle.std.specs.Str.{chars};
ghost use Rattle.elasticlunr.specs.Stages.{IsRunBy, names_by};
ghost use Rattle.elasticlunr.specs.Trimmed.{is_word_char, trimmed, unless_empty};
ghost use Rattle.elasticlunr.specs.Words.{words};
ghost use Rattle.elasticlunr.specs.Choices.{fields_plan};
ghost use Rattle.elasticlunr.specs.Documents.{IsDocument};
ghost use Rattle.elasticlunr.specs.IndexError.TheVariants.{Memory};
ghost use Rattle.elasticlunr.specs.History.{Document, none, ◌▸◌, add};
ghost use Rattle.elasticlunr.specs.Printed.{IsPrintOf};

use crate::custom::{DropEmpty, Plain};
use elasticlunr::pipeline::{Pipeline, PipelineFn, Stage};
use elasticlunr::{IndexBuilder, IndexError};
use std::alloc::Global;

/// The text of an index of trimmed words.
pub fn text_of_words(alloc: Global) -> Result<String, IndexError>
    ensures text { IfOk result (λ text. (document : Document)
        × IsPrintOf (fields_plan (codes "Plain") (codes "trimmer" ∷ codes "dropEmpty" ∷ [])
        (codes "about" ∷ []))
        (none ▸ add document) (string_bytes text)
        × IsDocument (codes "about" ∷ []) (codes "id") (λ _ value tokens. tokens
        ≡ filter_map (λ word. unless_empty (trimmed is_word_char word)) (words (chars value)))
        (codes "1") (codes "The \"Big Apple\" ..." ∷ []) document) }
    ensures errors { IfErr result (λ e. e ≡ Memory) }
{
    let own: Box<dyn PipelineFn> = Box::new(alloc, DropEmpty {})?;
    let queue = vec![in alloc; Stage::EnglishTrimmer, Stage::Own(own)]?;
    text_with_pipeline(alloc, Pipeline { queue })
}

/// The text of an index of one document, with this pipeline.
fn text_with_pipeline(alloc: Global, pipeline: Pipeline) -> Result<String, IndexError>
    ensures text { IfOk result (λ text. (document : Document)
        × IsPrintOf (fields_plan (codes "Plain") (names_by name_text pipeline) (codes "about"
        ∷ []))
        (none ▸ add document) (string_bytes text)
        × IsDocument (codes "about" ∷ []) (codes "id")
        (λ _ value tokens. IsRunBy leaves pipeline (words (chars value)) tokens)
        (codes "1") (codes "The \"Big Apple\" ..." ∷ []) document) }
    ensures errors { IfErr result (λ e. e ≡ Memory) }
{
    let mut index = IndexBuilder::with_language(alloc, Plain {})?
        .with_pipeline(pipeline)
        .add_field("about")?
        .build()?;
    index.add_doc("1", &["The \"Big Apple\" ..."])?;
    let text = index.to_json()?;
    Ok(text)
}
