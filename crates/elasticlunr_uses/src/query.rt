//! A query of a printed text.
//!
//! The text of an index is read and searched in its language. Proved for each plan and all calls of
//! which it is the print: found are exactly the references that the query finds after these calls,
//! or nothing is found for one of three reasons. A caller has to know that the searcher takes the
//! language of the index.
ghost use Rattle.std.specs.Prelude.{IfErr, IfOk};
ghost use Rattle.elasticlunr.specs.Fields.{borrowed};
ghost use Rattle.elasticlunr.specs.Text.{bytes_of};
ghost use Rattle.elasticlunr_uses.specs.Found.{FindsInPrints};
ghost use Rattle.elasticlunr_uses.specs.Stops.{FindsNothingInPrints};

use elasticlunr::lang::AnyLanguage;
use elasticlunr::laws::calls::a_kept_language_makes_one_document;
use elasticlunr_laws::search::{
    a_print_is_refused_for_its_depth_alone, a_searcher_has_the_printed_fields,
};
use elasticlunr_search::laws::found_after_calls;
use elasticlunr_search::{Join, SearchError, Searcher};
use std::alloc::Global;

/// A query: the fields that are searched, the words, and whether a document needs one of their
/// tokens or each.
#[derive(Clone, Copy)]
pub struct Query<'a> {
    pub join: Join,
    pub fields: &'a [&'a str],
    pub words: &'a str,
}

/// The references that the query finds in the text of an index of this language.
pub fn found_in_text(
    alloc: Global,
    language: AnyLanguage,
    text: &str,
    query: &Query<'_>,
) -> Result<Vec<String>, SearchError>
    ensures found { IfOk result (λ found.
        FindsInPrints language text.now query.now (bytes_of found.items)) }
    ensures errors { IfErr result
        (FindsNothingInPrints language text.now (borrowed query.now.fields.now)) }
{
    a_kept_language_makes_one_document();
    a_print_is_refused_for_its_depth_alone();
    let searcher = Searcher::read(alloc, language, text)?;
    found_after_calls(&searcher);
    a_searcher_has_the_printed_fields(&searcher);
    let found = searcher.find_in(query.join, query.fields, query.words)?;
    Ok(found)
}
