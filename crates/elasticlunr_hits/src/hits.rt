//! The hits of what is asked for, the best first.
ghost use Rattle.std.specs.Prelude.{◌≡◌, ◌≢◌, ◌⊎◌, Err, IfErr, IfOk, IsTrue, OnOk, filter};
ghost use Rattle.std.specs.Prelude.{string_bytes};
ghost use Rattle.std.specs.List.{AllByRecursion};
ghost use Rattle.std.specs.List.Sorted.{IsStrictlySortedBy};
ghost use Rattle.std.specs.Str.{all_scalars, chars};
ghost use Rattle.elasticlunr_text.specs.Text.{bytes_of, is_listed, text_cmp};
ghost use Rattle.elasticlunr_lang.specs.Words.{words};
ghost use Rattle.elasticlunr_store.specs.Options.{options_of};
ghost use Rattle.elasticlunr.specs.Fields.{borrowed};
ghost use Rattle.elasticlunr_ranking.specs.Choice.{named_fields};
ghost use Rattle.elasticlunr_ranking.specs.Order.{told_hits};
ghost use Rattle.elasticlunr_search.specs.Standing.{HasFieldsOf, LacksFieldOf, fields_of};
ghost use Rattle.elasticlunr_search.specs.declared.error.SearchError.TheVariants.{Memory};
ghost use Rattle.elasticlunr_search.specs.declared.error.SearchError.TheVariants.{NoSuchField};
ghost use Rattle.elasticlunr_hits.specs.Asked.{AreOptionsOf, at_most, searched};
ghost use Rattle.elasticlunr_hits.specs.Hits.{AreHitsOf, IfAsked};
ghost use Rattle.elasticlunr_hits.specs.declared.asked.Needed.TheVariants.{Each};

use crate::asked::{Asked, Needed};
use crate::fields::{boosted_names, searched_names};
use crate::options::search_options;
use elasticlunr_lang::AnyLanguage;
use elasticlunr_search::{Hit, SearchError, Searcher};
use elasticlunr_store::SearchOptions;
use std::alloc::Global;

/// The hits of what is asked for, the best first, as many of them as are asked for.
///
/// It costs what `Searcher::search` costs, and with a limit copies only the references of the hits
/// that come; where each word is needed, what `Searcher::find_across` costs, too.
pub fn hits_of(
    alloc: Global,
    searcher: &Searcher<AnyLanguage>,
    asked: &Asked<'_>,
) -> Result<Vec<Hit>, SearchError>
    ensures no_field { result ≡ Err NoSuchField
        → LacksFieldOf searcher.now (searched asked.now (fields_of searcher.now)) }
    ensures has_fields { OnOk result
        (HasFieldsOf searcher.now (searched asked.now (fields_of searcher.now))) }
    ensures errors { IfErr result (λ e. (e ≡ NoSuchField) ⊎ (e ≡ Memory)) }
    ensures hits { IfOk result (λ hits. AreHitsOf leaves searcher.now asked.now
        (told_hits hits.items)) }
{
    let names = searched_names(alloc, searcher.fields(), asked)?;
    let options = search_options(alloc, asked, &names)?;
    match asked.needed {
        Needed::Each => hits_with_each(alloc, searcher, asked, &names, &options),
        Needed::One | Needed::EachInOneField => best_hits(searcher, asked, &options),
    }
}

/// The first hits of a ranking.
fn best_hits(
    searcher: &Searcher<AnyLanguage>,
    asked: &Asked<'_>,
    options: &SearchOptions,
) -> Result<Vec<Hit>, SearchError>
    ensures no_field { result ≡ Err NoSuchField
        → LacksFieldOf searcher.now (named_fields (options_of options.now)) }
    ensures has_fields { OnOk result
        (HasFieldsOf searcher.now (named_fields (options_of options.now))) }
    ensures errors { IfErr result (λ e. (e ≡ NoSuchField) ⊎ (e ≡ Memory)) }
    ensures hits { asked.now.needed ≢ Each
        → AreOptionsOf asked.now (fields_of searcher.now) (options_of options.now)
        → IfOk result (λ hits. AreHitsOf leaves searcher.now asked.now (told_hits hits.items)) }
{
    words_are_texts(asked.query);
    match asked.limit {
        Some(limit) => searcher.search_best(asked.query, options, limit),
        None => searcher.search(asked.query, options),
    }
}

/// A law, for proofs: the words of a query are lists of characters.
fn words_are_texts(query: &str)
    ensures { AllByRecursion (λ word. IsTrue (all_scalars word)) (words (chars query.now)) }
{}

/// The first hits that have each word of the query, one in this field and another one in that.
fn hits_with_each(
    alloc: Global,
    searcher: &Searcher<AnyLanguage>,
    asked: &Asked<'_>,
    names: &[&str],
    options: &SearchOptions,
) -> Result<Vec<Hit>, SearchError>
    ensures no_field { IfAsked asked.now (fields_of searcher.now) (borrowed names.now)
        (options_of options.now) (result ≡ Err NoSuchField
        → LacksFieldOf searcher.now (borrowed names.now)) }
    ensures has_fields { OnOk result
        (HasFieldsOf searcher.now (named_fields (options_of options.now))) }
    ensures errors { IfErr result (λ e. (e ≡ NoSuchField) ⊎ (e ≡ Memory)) }
    ensures hits { asked.now.needed ≡ Each → IfAsked asked.now (fields_of searcher.now)
        (borrowed names.now) (options_of options.now)
        (IfOk result (λ hits. AreHitsOf leaves searcher.now asked.now (told_hits hits.items))) }
{
    words_are_texts(asked.query);
    let boosted = boosted_names(alloc, names, &asked.boosts)?;
    let found = searcher.find_across(&boosted, asked.query)?;
    let mut hits = searcher.search(asked.query, options)?;
    keep_found(&mut hits, &found);
    keep_first(&mut hits, asked.limit);
    Ok(hits)
}

/// Keeps the hits whose references are among these, which stand in order.
fn keep_found(hits: &mut Vec<Hit>, found: &[String])
    ensures { IsStrictlySortedBy text_cmp (bytes_of found.now) → told_hits hits.new.items
        ≡ filter (λ hit. is_listed hit.0 (bytes_of found.now)) (told_hits hits.old.items) }
{
    hits.retain(|hit| is_among(found, &hit.reference));
}

/// Whether a reference is among these, which stand in order.
fn is_among(references: &[String], reference: &String) -> bool
    ensures { IsStrictlySortedBy text_cmp (bytes_of references.now)
        → result ≡ is_listed (string_bytes reference.now) (bytes_of references.now) }
{
    references.binary_search(reference).is_ok()
}

/// Keeps the first hits, at most so many.
fn keep_first(hits: &mut Vec<Hit>, limit: Option<usize>)
    ensures { hits.new.items ≡ at_most limit hits.old.items }
{
    if let Some(limit) = limit {
        hits.truncate(limit);
    }
}
