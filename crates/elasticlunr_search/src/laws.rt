//! Laws of what is found: each is the contract of a function that does nothing.
ghost use Rattle.std.specs.Prelude.{ℕ, List};
ghost use Rattle.elasticlunr_text.specs.Text.{Bytes};
ghost use Rattle.elasticlunr.specs.Calls.{Call, HasOneReading};
ghost use Rattle.elasticlunr.specs.Current.{IsReadableAfter};
ghost use Rattle.elasticlunr.specs.Reading.{LanguageReads};
ghost use Rattle.elasticlunr.specs.Standing.{Plan};
ghost use Rattle.elasticlunr_search.specs.AfterCalls.{FindsAcrossAfter, FindsAfter};
ghost use Rattle.elasticlunr_search.specs.AfterCalls.{FindsInFieldsAfter, SearchesText};
ghost use Rattle.elasticlunr_search.specs.Standing.{AreFoundInFields, AreFoundInTexts};
ghost use Rattle.elasticlunr_search.specs.Standing.{AreFoundWithinFields};
ghost use Rattle.elasticlunr_search.specs.declared.words.Join.{Join};

use crate::searcher::Searcher;
use elasticlunr::laws::found::{calls_tell_tokens, printed_documents_are_read};
use elasticlunr_lang::Language;

/// What a searcher finds in a text that was printed after calls follows from the calls: `find` in
/// one field, `find_in` in several, `find_across` in all of several together. The language reads
/// one list of tokens of each value, as each language of the library does.
pub fn found_after_calls<L: Language>(searcher: &Searcher<L>)
    ensures field { (language : L) (plan : Plan) (calls : List Call) (text : List ℕ)
        (join : Join) (field query : Bytes) (found : List Bytes)
        → let reads = LanguageReads (L.tokens_of language) (L.leaves_of language) in HasOneReading
        reads
        → IsReadableAfter reads plan calls text → SearchesText L.leaves_of leaves searcher.now
        language text
        → AreFoundInTexts L.tokens_of L.leaves_of leaves searcher.now join field query found
        → FindsAfter reads plan.fields plan.reference_field calls join field query found }
    ensures fields { (language : L) (plan : Plan) (calls : List Call) (text : List ℕ)
        (join : Join) (names : List Bytes) (query : Bytes) (found : List Bytes)
        → let reads = LanguageReads (L.tokens_of language) (L.leaves_of language) in HasOneReading
        reads
        → IsReadableAfter reads plan calls text → SearchesText L.leaves_of leaves searcher.now
        language text
        → AreFoundInFields L.tokens_of L.leaves_of leaves searcher.now join names query found
        → FindsInFieldsAfter reads plan.fields plan.reference_field calls join names query found }
    ensures across { (language : L) (plan : Plan) (calls : List Call) (text : List ℕ)
        (names : List Bytes) (query : Bytes) (found : List Bytes)
        → let reads = LanguageReads (L.tokens_of language) (L.leaves_of language) in HasOneReading
        reads
        → IsReadableAfter reads plan calls text → SearchesText L.leaves_of leaves searcher.now
        language text
        → AreFoundWithinFields L.tokens_of L.leaves_of leaves searcher.now Join.All names query
        found
        → FindsAcrossAfter reads plan.fields plan.reference_field calls names query found }
{
    calls_tell_tokens::<L>();
    printed_documents_are_read::<L>();
}
