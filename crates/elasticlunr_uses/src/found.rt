//! Built, printed, found.
//!
//! Two documents go into an English index, it is printed, and the text is searched. Proved: found
//! are exactly the references whose text has a token of the query. A caller has to know that a
//! token is the output of the language's stages for a word (trimmed, no stop word, stemmed), and
//! that of two documents with one reference the later one stays.
ghost use Rattle.std.specs.Prelude.{◌≡◌, ◌≢◌, ◌⊎◌, ◌∷◌, [], List, IfErr, IfOk, Contains};
ghost use Rattle.elasticlunr.specs.Text.{Text, bytes_of};
ghost use Rattle.elasticlunr.specs.AnyLanguage.TheVariants.{English as english};
ghost use Rattle.elasticlunr.specs.Calls.{adding};
ghost use Rattle.elasticlunr.specs.Found.{AreExactly};
ghost use Rattle.elasticlunr.specs.Kept.{KeptReads};
ghost use Rattle.elasticlunr_search.specs.Words.{Asks};
ghost use Rattle.elasticlunr_uses.specs.Pages.{body_plan};
ghost use Rattle.elasticlunr_uses.specs.Sharing.{SharesToken};
ghost use Rattle.elasticlunr_uses.specs.Stops.{BuildsNoIndex, ReadsNoText, SearchFails};

use crate::error::UseError;
use crate::order::in_order;
use crate::page::Page;
use crate::query::{Query, found_in_text};
use elasticlunr::lang::{AnyLanguage, English};
use elasticlunr::laws::found::calls_tell_tokens;
use elasticlunr_search::Join;
use std::alloc::Global;

/// The references that the query finds among two documents, each a reference and its text.
pub fn built_printed_found(
    alloc: Global,
    other: &str,
    other_text: &str,
    reference: &str,
    text: &str,
    query: &str,
) -> Result<Vec<String>, UseError>
    ensures found { IfOk result (λ found. AreExactly (λ r.
        ((r ≡ reference.now) × SharesToken query.now text.now)
        ⊎ ((r ≡ other.now) × (r ≢ reference.now) × SharesToken query.now other_text.now))
        (bytes_of found.items)) }
    ensures shared { IfOk result (λ found. (token : Text)
        → Asks (KeptReads english) 0 query.now token
        → ((tokens : List Text) → KeptReads english 0 text.now tokens → Contains tokens token)
        → Contains (bytes_of found.items) reference.now) }
    ensures errors { IfErr result (λ e. BuildsNoIndex e
        ⊎ SearchFails (ReadsNoText english body_plan (adding other.now (other_text.now ∷ [])
        ∷ adding reference.now (text.now ∷ []) ∷ [])) e) }
{
    calls_tell_tokens::<English>();
    let first = Page {
        reference: other,
        text: other_text,
    };
    let printed = in_order(alloc, first, Page { reference, text })?;
    let asked = Query {
        join: Join::Any,
        fields: &["body"],
        words: query,
    };
    let found = found_in_text(alloc, AnyLanguage::English, printed.as_str(), &asked)?;
    Ok(found)
}
