//! Laws of the search of a printed index.
ghost use Rattle.std.specs.Prelude.{◌≡◌, ◌⊎◌, List, IsTrue};
ghost use Rattle.std.specs.Float.{Float};
ghost use Rattle.elasticlunr.specs.AnyLanguage.{AnyLanguage};
ghost use Rattle.elasticlunr.specs.Calls.{Call, HasOneReading};
ghost use Rattle.elasticlunr.specs.Current.{IsReadableAfter};
ghost use Rattle.elasticlunr.specs.Fields.{all_differ};
ghost use Rattle.elasticlunr.specs.Kept.{KeptReads};
ghost use Rattle.elasticlunr.specs.Known.{language_name, language_stages};
ghost use Rattle.elasticlunr.specs.Reading.{LanguageReads};
ghost use Rattle.elasticlunr.specs.Standing.{Plan};
ghost use Rattle.elasticlunr.specs.Text.{Bytes};
ghost use Rattle.elasticlunr_laws.specs.Depth.{NestsTooDeep};
ghost use Rattle.elasticlunr_laws.specs.Ranked.{ChooseOne, RanksAfter};
ghost use Rattle.elasticlunr_ranking.specs.Choice.{named_fields};
ghost use Rattle.elasticlunr_store.specs.Options.{Options};
ghost use Rattle.elasticlunr_search.specs.AfterCalls.{SearchesText};
ghost use Rattle.elasticlunr_search.specs.Refusal.{RefusesPrint};
ghost use Rattle.elasticlunr_search.specs.Ranking.{AreRankedHits};
ghost use Rattle.elasticlunr_search.specs.Standing.{fields_of, HasFieldsOf};
ghost use Rattle.elasticlunr_search.specs.declared.error.SearchError.{SearchError};
ghost use Rattle.elasticlunr_search.specs.declared.error.SearchError.TheVariants.{Memory, TooDeep};
ghost use Rattle.elasticlunr_search.specs.declared.words.Join.{Join};

use elasticlunr::Language;
use elasticlunr::laws::found::{
    calls_tell_tokens, documents_have_the_tokens_of_their_values, postings_tell_tokens,
    printed_documents_are_read,
};
use elasticlunr_ranking::laws::hits_have_the_tokens;
use elasticlunr_search::Searcher;

/// A searcher of a built-in language reads what an index of this language printed, unless memory
/// runs out, or the text nests deeper than `serde_json` reads.
pub fn a_print_is_refused_for_its_depth_alone()
    ensures { (language : AnyLanguage) (plan : Plan) (calls : List Call) (text : Bytes)
        (e : SearchError)
        → plan.language ≡ language_name language → plan.stages ≡ language_stages language
        → IsReadableAfter (KeptReads language) plan calls text
        → RefusesPrint (language_name language) (language_stages language) text e
        → (e ≡ Memory) ⊎ ((e ≡ TooDeep) × NestsTooDeep language plan calls) }
{}

/// A searcher of a printed text has the fields of the index that printed it.
pub fn a_searcher_has_the_printed_fields<L: Language>(searcher: &Searcher<L>)
    ensures { (language : L) (kept : AnyLanguage) (plan : Plan) (calls : List Call) (text : Bytes)
        → IsReadableAfter (KeptReads kept) plan calls text
        → SearchesText L.leaves_of leaves searcher.now language text
        → fields_of searcher.now ≡ plan.fields }
{}

/// What `search` ranks in one field of a text that was printed after calls follows from the calls:
/// its hits are what `find` finds in this field, in the order of the scores. The options choose the
/// field alone, with a boost that is not 0, and a token represents itself alone. The language reads
/// one list of tokens of each value, as each language of the library does.
pub fn ranked_after_calls<L: Language>(searcher: &Searcher<L>)
    ensures { (language : L) (plan : Plan) (calls : List Call) (text : Bytes)
        (join : Join) (field query : Bytes) (options : Options) (hits : List (Bytes × Float))
        → let reads = LanguageReads (L.tokens_of language) (L.leaves_of language) in
        HasOneReading reads → IsTrue (all_differ plan.fields)
        → IsReadableAfter reads plan calls text
        → SearchesText L.leaves_of leaves searcher.now language text
        → HasFieldsOf searcher.now (named_fields options) → ChooseOne options join field
        → AreRankedHits L.tokens_of L.leaves_of leaves searcher.now query options hits
        → RanksAfter reads plan.fields plan.reference_field calls join field query hits }
{
    hits_have_the_tokens();
    postings_tell_tokens();
    documents_have_the_tokens_of_their_values::<L>();
    calls_tell_tokens::<L>();
    printed_documents_are_read::<L>();
}
