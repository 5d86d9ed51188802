//! The lines of hits.
ghost use Rattle.std.specs.Prelude.{◌≡◌, ◌⊎◌, Err, IfErr, IfOk, OnOk, map, string_bytes};
ghost use Rattle.elasticlunr_ranking.specs.Order.{told_hits};
ghost use Rattle.elasticlunr_search.specs.Lines.{lines};
ghost use Rattle.elasticlunr_search.specs.Standing.{HasFieldsOf, LacksFieldOf, fields_of};
ghost use Rattle.elasticlunr_search.specs.Standing.{kept_contents};
ghost use Rattle.elasticlunr_search.specs.declared.error.SearchError.TheVariants.{Memory};
ghost use Rattle.elasticlunr_search.specs.declared.error.SearchError.TheVariants.{NoSuchField};
ghost use Rattle.elasticlunr_hits.specs.Asked.{searched};
ghost use Rattle.elasticlunr_hits.specs.Lines.{AreAskedLines, AreLinesIn};

use crate::asked::Asked;
use crate::hits::hits_of;
use crate::json_lines::json_lines;
use elasticlunr_lang::AnyLanguage;
use elasticlunr_search::{Hit, SearchError, Searcher};
use std::alloc::{AllocError, Global};

/// What a line has of a hit.
#[derive(Clone, Copy)]
pub enum LineForm {
    /// Its reference.
    References,
    /// A JSON object with its reference, its score and its stored texts.
    Json,
}

/// The lines of the hits of what is asked for, the best first. A line ends with a line feed.
///
/// It costs what `hits_of` costs, and for lines of JSON a copy of the texts of each hit.
pub fn found_lines(
    alloc: Global,
    searcher: &Searcher<AnyLanguage>,
    asked: &Asked<'_>,
    form: LineForm,
) -> Result<String, SearchError>
    ensures no_field { result ≡ Err NoSuchField
        → LacksFieldOf searcher.now (searched asked.now (fields_of searcher.now)) }
    ensures has_fields { OnOk result
        (HasFieldsOf searcher.now (searched asked.now (fields_of searcher.now))) }
    ensures errors { IfErr result (λ e. (e ≡ NoSuchField) ⊎ (e ≡ Memory)) }
    ensures lines { IfOk result (λ text. AreAskedLines leaves searcher.now asked.now form
        (string_bytes text)) }
{
    let hits = hits_of(alloc, searcher, asked)?;
    let text = lines_of(alloc, searcher, &hits, form)?;
    Ok(text)
}

/// The lines of hits.
fn lines_of(
    alloc: Global,
    searcher: &Searcher<AnyLanguage>,
    hits: &[Hit],
    form: LineForm,
) -> Result<String, AllocError>
    ensures { IfOk result (λ text. AreLinesIn form (kept_contents searcher.now)
        (told_hits hits.now) (string_bytes text)) }
{
    match form {
        LineForm::References => reference_lines(alloc, hits),
        LineForm::Json => json_lines(alloc, searcher, hits),
    }
}

/// The references of hits, a line each.
fn reference_lines(alloc: Global, hits: &[Hit]) -> Result<String, AllocError>
    ensures { IfOk result (λ text. string_bytes text
        ≡ lines (map (λ hit. hit.0) (told_hits hits.now))) }
{
    let mut text = String::new(alloc);
    for hit in hits {
        text.push_str(hit.reference.as_str())?;
        text.push('\n')?;
    }
    Ok(text)
}
