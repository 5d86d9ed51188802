//! A ranked query of a printed text.
//!
//! The text of an index is read, and what a query finds in the field `body` comes with its scores,
//! the best first. Proved for each plan and all calls of which the text is the print: these are the
//! references that the query finds there after the calls. A caller has to know that the options
//! choose the field. Without them all fields are searched, and their scores added.
ghost use Rattle.std.specs.Prelude.{◌∷◌, [], codes, IfErr, IfOk};
ghost use Rattle.elasticlunr_laws.specs.Options.{options_of};
ghost use Rattle.elasticlunr_laws.specs.Order.{told_hits};
ghost use Rattle.elasticlunr_laws.specs.Ranked.{ChooseOne};
ghost use Rattle.elasticlunr_search.specs.declared.words.Join.TheVariants.{Any};
ghost use Rattle.elasticlunr_uses.specs.Found.{RanksInPrints};
ghost use Rattle.elasticlunr_uses.specs.Stops.{FindsNothingInPrints};

use elasticlunr::config::{SearchOptions, SearchOptionsField};
use elasticlunr::lang::AnyLanguage;
use elasticlunr::laws::calls::a_kept_language_makes_one_document;
use elasticlunr_laws::search::{
    a_print_is_refused_for_its_depth_alone, a_searcher_has_the_printed_fields, ranked_after_calls,
};
use elasticlunr_search::{Hit, SearchError, Searcher};
use std::alloc::{AllocError, Global};

/// The options of a search in the field `body` alone, for one of the query's tokens.
fn in_body(alloc: Global) -> Result<SearchOptions, AllocError>
    ensures { IfOk result (λ options. ChooseOne (options_of options) Any (codes "body")) }
{
    let mut options = SearchOptions::new(alloc);
    let body = String::from_str(alloc, "body")?;
    options.fields.insert(body, SearchOptionsField::default())?;
    Ok(options)
}

/// What the query finds in the field `body` of an index of this language, the best first.
pub fn ranked_in_text(
    alloc: Global,
    language: AnyLanguage,
    text: &str,
    query: &str,
) -> Result<Vec<Hit>, SearchError>
    ensures ranked { IfOk result (λ hits.
        RanksInPrints language text.now query.now (told_hits hits.items)) }
    ensures errors { IfErr result (FindsNothingInPrints language text.now (codes "body" ∷ [])) }
{
    a_kept_language_makes_one_document();
    a_print_is_refused_for_its_depth_alone();
    let searcher = Searcher::read(alloc, language, text)?;
    ranked_after_calls(&searcher);
    a_searcher_has_the_printed_fields(&searcher);
    let options = in_body(alloc)?;
    let hits = searcher.search(query, &options)?;
    Ok(hits)
}
