//! Searches of a printed index, by a query in its language.
ghost use Rattle.std.specs.Prelude.{◌≡◌, ◌<◌, ◌⊎◌, ◌↔◌, ℕ, List, false, Some, Err, IfOk, IfErr};
ghost use Rattle.std.specs.Prelude.{OnOk, IfSome, IsSome, IsTrue, length, map, option_map};
ghost use Rattle.std.specs.Prelude.{slice_get};
ghost use Rattle.std.specs.List.{zip};
ghost use Rattle.elasticlunr_text.specs.Stages.{IsRunBy, LeavesBy, names_by};
ghost use Rattle.elasticlunr_text.specs.Text.{bytes_of, texts_of};
ghost use Rattle.elasticlunr_store.specs.Contents.{text_map};
ghost use Rattle.elasticlunr_store.specs.Options.{options_of};
ghost use Rattle.elasticlunr_ranking.specs.Choice.{fields_for, named_fields};
ghost use Rattle.elasticlunr_ranking.specs.Fields.{field_of};
ghost use Rattle.elasticlunr_ranking.specs.Order.{told_hits};
ghost use Rattle.elasticlunr.specs.Fields.{has_name, borrowed};
ghost use Rattle.elasticlunr.specs.Found.{FindsAny, FindsAll};
ghost use Rattle.elasticlunr.specs.History.{Commands, now};
ghost use Rattle.elasticlunr.specs.Printed.{IsPrintOf};
ghost use Rattle.elasticlunr.specs.Reading.{LanguageReads};
ghost use Rattle.elasticlunr.specs.Standing.{Plan, stored};
ghost use Rattle.elasticlunr_search.specs.Fields.{HasStages};
ghost use Rattle.elasticlunr_search.specs.Query.{AreTokensOf, RunReads};
ghost use Rattle.elasticlunr_search.specs.Tries.{tables_of};
ghost use Rattle.elasticlunr_search.specs.Words.{asked_fields};
ghost use Rattle.elasticlunr_search.specs.Readers.{ReadsAs};
ghost use Rattle.elasticlunr_search.specs.Refusal.{Refuses, RefusesOthers, RefusesPrint};
ghost use Rattle.elasticlunr_search.specs.Refusal.{RefusesValue};
ghost use Rattle.elasticlunr_search.specs.Source.{IsSource};
ghost use Rattle.elasticlunr_search.specs.declared.error.SearchError.TheVariants.{NoSuchField};
ghost use Rattle.elasticlunr_search.specs.declared.error.SearchError.TheVariants.{Memory};
ghost use Rattle.serde_json.specs.Data.{Data};
ghost use Rattle.serde_json.specs.Read.{read};
ghost use Rattle.serde_json.specs.View.{view};

use crate::error::SearchError;
use crate::parts::{has_stages, names_other};
use crate::printed::Printed;
use crate::source::Source;
use crate::tries::{find_all_among, find_all_in, find_any_in};
use crate::words::Join;
use elasticlunr::laws::found::{documents_have_the_tokens_of_their_values, postings_tell_tokens};
use elasticlunr::laws::reading::a_language_reads_what_its_pipeline_leaves;
use elasticlunr::laws::values::{a_value_has_its_parts_once, printed_texts_have_their_parts};
use elasticlunr_lang::Language;
use elasticlunr_ranking::{
    Hit, SearchedField, best_hits, names_of_options, ranked_hits, searched_fields,
};
use elasticlunr_store::{DocumentStore, SearchOptions};
use elasticlunr_text::laws::a_run_has_one_answer;
use elasticlunr_text::pipeline::Pipeline;
use elasticlunr_trie::InvertedIndex;
use serde_json::Value;
use std::alloc::{AllocError, Global};
use std::collections::{BTreeMap, BTreeSet};

/// A printed index, the language that it was built with, and the pipeline of that language.
///
/// It keeps the allocator that its constructor was handed. The tokens of a query are what the
/// language and its pipeline make of it, without empty ones, which no index has. What is
/// found is what the tries have at these, whoever printed the index.
#[derive(Drop)]
pub struct Searcher<L> {
    alloc: Global,
    language: L,
    pipeline: Pipeline,
    printed: Printed,
}

impl<L: Language> Searcher<L> {
    ghost use Rattle.elasticlunr_search.specs.Ranking.{AreBestHits, AreBestAsChosen};
    ghost use Rattle.elasticlunr_search.specs.Ranking.{AreRankedHits, AreRankedAsChosen};
    ghost use Rattle.elasticlunr_search.specs.Standing.{fields_of, kept_contents, kept_texts};
    ghost use Rattle.elasticlunr_search.specs.Standing.{AreFound};
    ghost use Rattle.elasticlunr_search.specs.Standing.{AreFoundAsChosen, AreFoundInFields};
    ghost use Rattle.elasticlunr_search.specs.Standing.{AreFoundInTexts, AreFoundInTrie};
    ghost use Rattle.elasticlunr_search.specs.Standing.{AreFoundInTries, AreFoundOfTokens};
    ghost use Rattle.elasticlunr_search.specs.Standing.{AreFoundInTriesAsChosen};
    ghost use Rattle.elasticlunr_search.specs.Standing.{AreFoundWithinTriesAsChosen};
    ghost use Rattle.elasticlunr_search.specs.Standing.{AreFoundWithinFields, AreFoundWithinTries};
    ghost use Rattle.elasticlunr_search.specs.Standing.{AreTriesOf, FindsTokens, HasFieldsOf};
    ghost use Rattle.elasticlunr_search.specs.Standing.{HasPartsOf, IsChosen, LacksFieldOf};
    ghost use Rattle.elasticlunr_search.specs.Standing.{Searches, Speaks, StandsFor};

    /// Reads the printed text of an index, in any layout, once. The index must have been built with
    /// this language and its pipeline: a text that names another language or other stages is
    /// refused, and one that names no language is read. A text that an index printed may nest as
    /// deep as it likes. One that others wrote, one with more than a thousand fields, or one whose
    /// postings have too many bytes of tokens may nest no deeper than `serde_json` reads.
    pub fn read(alloc: Global, language: L, text: &str) -> Result<Searcher<L>, SearchError>
        ensures stands { IfOk result (λ s. (plan : Plan) (commands : Commands)
            → IsPrintOf plan commands text.now
            → StandsFor L.leaves_of leaves s language plan commands) }
        ensures speaks { IfOk result (λ s. Speaks L.leaves_of leaves s language) }
        ensures parts { IfOk result (λ s. (v : Data) × ReadsAs text.now v × HasPartsOf v s) }
        ensures refused { IfErr result (Refuses (L.name_of language) (L.stages_of language)
            text.now) }
        ensures accepted { IfErr result (RefusesPrint (L.name_of language) (L.stages_of language)
            text.now) }
        ensures other { (v : Data) → read text.now ≡ Some v
            → RefusesOthers (L.name_of language) (L.stages_of language) v result }
    {
        let empty = Pipeline {
            queue: Vec::new(alloc),
        };
        let pipeline = language.make_pipeline(alloc, empty)?;
        Searcher::with_pipeline(alloc, language, pipeline, text)
    }

    /// The same by this pipeline instead of the language's, with which the index must have been
    /// built (`IndexBuilder::with_pipeline`): a text that names other stages is refused.
    pub fn with_pipeline(
        alloc: Global,
        language: L,
        pipeline: Pipeline,
        text: &str,
    ) -> Result<Searcher<L>, SearchError>
        ensures stands { IfOk result (λ s. (plan : Plan) (commands : Commands)
            → IsPrintOf plan commands text.now → Searches s plan commands) }
        ensures chosen { IfOk result (λ s. IsChosen s language pipeline) }
        ensures parts { IfOk result (λ s. (v : Data) × ReadsAs text.now v × HasPartsOf v s) }
        ensures refused { IfErr result (Refuses (L.name_of language) (names_by name_text pipeline)
            text.now) }
        ensures accepted { IfErr result
            (RefusesPrint (L.name_of language) (names_by name_text pipeline) text.now) }
        ensures other { (v : Data) → read text.now ≡ Some v
            → RefusesOthers (L.name_of language) (names_by name_text pipeline) v result }
    {
        a_value_has_its_parts_once();
        printed_texts_have_their_parts();
        let source = Source::of_text(alloc, text)?;
        Searcher::of_source(alloc, language, pipeline, source)
    }

    /// The same as `read` from the value of the text.
    pub fn from_value(alloc: Global, language: L, value: &Value) -> Result<Searcher<L>, SearchError>
        ensures stands { IfOk result (λ s. (plan : Plan) (commands : Commands) (text : List ℕ)
            → read text ≡ Some (view value.now) → IsPrintOf plan commands text
            → StandsFor L.leaves_of leaves s language plan commands) }
        ensures speaks { IfOk result (λ s. Speaks L.leaves_of leaves s language) }
        ensures parts { IfOk result (HasPartsOf (view value.now)) }
        ensures refused { IfErr result (RefusesValue (L.name_of language) (L.stages_of language)
            (view value.now)) }
        ensures other { RefusesOthers (L.name_of language) (L.stages_of language) (view value.now)
            result }
    {
        printed_texts_have_their_parts();
        let name = language.name(alloc)?;
        if names_other(name.as_str(), value) {
            return Err(SearchError::OtherLanguage);
        }
        let bare = Pipeline {
            queue: Vec::new(alloc),
        };
        let pipeline = language.make_pipeline(alloc, bare)?;
        let stages = pipeline.names(alloc)?;
        if !has_stages(alloc, &stages, value)? {
            return Err(SearchError::OtherPipeline);
        }
        let printed = Printed::of_value(alloc, value)?;
        Ok(Searcher {
            alloc,
            language,
            pipeline,
            printed,
        })
    }

    /// A searcher of an index that was read, by its language and its language's pipeline.
    pub(crate) fn from_source(
        alloc: Global,
        language: L,
        source: Source,
    ) -> Result<Searcher<L>, SearchError>
        ensures speaks { IfOk result (λ s. Speaks L.leaves_of leaves s language) }
        ensures parts { IfOk result (λ s. (v : Data) → IsSource source v → HasPartsOf v s) }
        ensures refused { IfErr result (λ e. (v : Data) → IsSource source v
            → RefusesValue (L.name_of language) (L.stages_of language) v e) }
    {
        let blank = Pipeline {
            queue: Vec::new(alloc),
        };
        let pipeline = language.make_pipeline(alloc, blank)?;
        Searcher::of_source(alloc, language, pipeline, source)
    }

    /// A searcher of an index that was read, by this language and this pipeline.
    pub(crate) fn of_source(
        alloc: Global,
        language: L,
        pipeline: Pipeline,
        source: Source,
    ) -> Result<Searcher<L>, SearchError>
        ensures chosen { IfOk result (λ s. IsChosen s language pipeline) }
        ensures parts { IfOk result (λ s. (v : Data) → IsSource source v → HasPartsOf v s) }
        ensures staged { IfOk result (λ s. (v : Data) → IsSource source v
            → HasStages v (names_by name_text pipeline)) }
        ensures refused { IfErr result (λ e. (v : Data) → IsSource source v
            → RefusesValue (L.name_of language) (names_by name_text pipeline) v e) }
        ensures other { (v : Data) → IsSource source v
            → RefusesOthers (L.name_of language) (names_by name_text pipeline) v result }
    {
        let name = language.name(alloc)?;
        if source.names_other(name.as_str()) {
            return Err(SearchError::OtherLanguage);
        }
        let stages = pipeline.names(alloc)?;
        if !source.has_stages(alloc, &stages)? {
            return Err(SearchError::OtherPipeline);
        }
        let printed = source.into_printed(alloc)?;
        Ok(Searcher {
            alloc,
            language,
            pipeline,
            printed,
        })
    }

    /// The names of the fields, in order.
    pub fn fields(&self) -> &[String]
        ensures { bytes_of result.now ≡ fields_of self.now }
    {
        &self.printed.fields
    }

    /// `find_any` or `find_all`, as the join says: the references whose current document has in the
    /// field a token, or each token, that the query has.
    pub fn find(&self, join: Join, field: &str, query: &str) -> Result<Vec<String>, SearchError>
        ensures no_field { (result ≡ Err NoSuchField)
            ↔ (has_name field.now (fields_of self.now) ≡ false) }
        ensures errors { IfErr result (λ e. (e ≡ NoSuchField) ⊎ (e ≡ Memory)) }
        ensures found { IfOk result (λ found. AreFoundInTexts L.tokens_of L.leaves_of leaves
            self.now
            join field.now query.now (bytes_of found.items)) }
        ensures in_trie { IfOk result (λ found. AreFoundInTrie L.tokens_of L.leaves_of leaves
            self.now
            join field.now query.now (bytes_of found.items)) }
        ensures as_chosen { IfOk result (λ found. AreFoundAsChosen L.tokens_of L.leaves_of leaves
            self.now
            join field.now query.now (bytes_of found.items)) }
    {
        documents_have_the_tokens_of_their_values::<L>();
        match join {
            Join::Any => self.find_any(field, query),
            Join::All => self.find_all(field, query),
        }
    }

    /// What `find` finds in one or more of these fields: each reference once, in the order of their
    /// bytes. It costs what `find` costs in each of them.
    pub fn find_in(
        &self,
        join: Join,
        fields: &[&str],
        query: &str,
    ) -> Result<Vec<String>, SearchError>
        ensures no_field { result ≡ Err NoSuchField → LacksFieldOf self.now (borrowed fields.now) }
        ensures has_fields { OnOk result (HasFieldsOf self.now (borrowed fields.now)) }
        ensures errors { IfErr result (λ e. (e ≡ NoSuchField) ⊎ (e ≡ Memory)) }
        ensures found { IfOk result (λ found. AreFoundInFields L.tokens_of L.leaves_of leaves
            self.now
            join (borrowed fields.now) query.now (bytes_of found.items)) }
        ensures in_tries { IfOk result (λ found. AreFoundInTries L.tokens_of L.leaves_of leaves
            self.now
            join (borrowed fields.now) query.now (bytes_of found.items)) }
        ensures as_chosen { IfOk result (λ found. AreFoundInTriesAsChosen L.tokens_of L.leaves_of
            leaves self.now
            join (borrowed fields.now) query.now (bytes_of found.items)) }
    {
        let mut found = BTreeSet::new(self.alloc);
        for field in fields {
            let references = self.find(join, field, query)?;
            found.extend(references)?;
        }
        let found = found.into_iter().collect(self.alloc)?;
        Ok(found)
    }

    /// The references whose current document has each of the query's tokens, of which there is one
    /// at least, in one or more of these fields: one token in a title and another one in a body,
    /// too. Each once, in the order of their bytes. It costs the postings of the first token in
    /// each of the fields, and for each of these the look-ups of the others.
    pub fn find_across(&self, fields: &[&str], query: &str) -> Result<Vec<String>, SearchError>
        ensures no_field { result ≡ Err NoSuchField → LacksFieldOf self.now (borrowed fields.now) }
        ensures has_fields { OnOk result (HasFieldsOf self.now (borrowed fields.now)) }
        ensures errors { IfErr result (λ e. (e ≡ NoSuchField) ⊎ (e ≡ Memory)) }
        ensures found { IfOk result (λ found. AreFoundWithinFields L.tokens_of L.leaves_of leaves
            self.now
            Join.All (borrowed fields.now) query.now (bytes_of found.items)) }
        ensures in_tries { IfOk result (λ found. AreFoundWithinTries L.tokens_of L.leaves_of leaves
            self.now
            Join.All (borrowed fields.now) query.now (bytes_of found.items)) }
        ensures as_chosen { IfOk result (λ found. AreFoundWithinTriesAsChosen L.tokens_of
            L.leaves_of leaves self.now
            Join.All (borrowed fields.now) query.now (bytes_of found.items)) }
    {
        postings_tell_tokens();
        documents_have_the_tokens_of_their_values::<L>();
        let tries = self.tries(fields)?;
        let tokens = self.tokens(query)?;
        let found = find_all_among(self.alloc, &tries, &tokens)?;
        Ok(found)
    }

    /// What has one of the query's tokens, or each, in the field of this name, or else in one or
    /// more of all fields.
    pub(crate) fn find_within(
        &self,
        join: Join,
        field: Option<&str>,
        query: &str,
    ) -> Result<Vec<String>, SearchError>
        ensures no_field { result ≡ Err NoSuchField
            → LacksFieldOf self.now (asked_fields (option_map (λ f. f.now) field.entry)
            (fields_of self.now)) }
        ensures has_fields { OnOk result
            (HasFieldsOf self.now (asked_fields (option_map (λ f. f.now) field.entry)
            (fields_of self.now))) }
        ensures errors { IfErr result (λ e. (e ≡ NoSuchField) ⊎ (e ≡ Memory)) }
        ensures found { IfOk result (λ found. AreFoundWithinFields L.tokens_of L.leaves_of leaves
            self.now
            join (asked_fields (option_map (λ f. f.now) field.entry) (fields_of self.now)) query.now
            (bytes_of found.items)) }
        ensures in_tries { IfOk result (λ found. AreFoundWithinTries L.tokens_of L.leaves_of leaves
            self.now
            join (asked_fields (option_map (λ f. f.now) field.entry) (fields_of self.now)) query.now
            (bytes_of found.items)) }
    {
        match field {
            Some(field) => self.find_joined(join, &[field], query),
            None => {
                let names = texts_of(self.alloc, self.fields())?;
                self.find_joined(join, &names, query)
            }
        }
    }

    /// What has one of the query's tokens, or each, in one or more of these fields.
    fn find_joined(
        &self,
        join: Join,
        fields: &[&str],
        query: &str,
    ) -> Result<Vec<String>, SearchError>
        ensures no_field { result ≡ Err NoSuchField → LacksFieldOf self.now (borrowed fields.now) }
        ensures has_fields { OnOk result (HasFieldsOf self.now (borrowed fields.now)) }
        ensures errors { IfErr result (λ e. (e ≡ NoSuchField) ⊎ (e ≡ Memory)) }
        ensures found { IfOk result (λ found. AreFoundWithinFields L.tokens_of L.leaves_of leaves
            self.now
            join (borrowed fields.now) query.now (bytes_of found.items)) }
        ensures in_tries { IfOk result (λ found. AreFoundWithinTries L.tokens_of L.leaves_of leaves
            self.now
            join (borrowed fields.now) query.now (bytes_of found.items)) }
    {
        match join {
            Join::Any => self.find_in(join, fields, query),
            Join::All => self.find_across(fields, query),
        }
    }

    /// The references whose current document has, in the field, one of the query's tokens, in the
    /// order of their bytes. It costs the look-ups of the tokens and their postings.
    pub fn find_any(&self, field: &str, query: &str) -> Result<Vec<String>, SearchError>
        ensures no_field { (result ≡ Err NoSuchField)
            ↔ (has_name field.now (fields_of self.now) ≡ false) }
        ensures errors { IfErr result (λ e. (e ≡ NoSuchField) ⊎ (e ≡ Memory)) }
        ensures found { IfOk result (λ found. AreFound L.tokens_of L.leaves_of leaves self.now
            FindsAny
            field.now query.now (bytes_of found.items)) }
        ensures in_trie { IfOk result (λ found. AreFoundInTrie L.tokens_of L.leaves_of leaves
            self.now Join.Any
            field.now query.now (bytes_of found.items)) }
        ensures as_chosen { IfOk result (λ found. AreFoundAsChosen L.tokens_of L.leaves_of leaves
            self.now Join.Any
            field.now query.now (bytes_of found.items)) }
    {
        postings_tell_tokens();
        let Some(trie) = self.trie(field) else {
            return Err(SearchError::NoSuchField);
        };
        let tokens = self.tokens(query)?;
        let found = find_any_in(self.alloc, trie, &tokens)?;
        Ok(found)
    }

    /// The references whose current document has, in the field, each of the query's tokens, of
    /// which there is one at least, in the order of their bytes. It costs the postings of the first
    /// token, and for each of these the look-ups of the others.
    pub fn find_all(&self, field: &str, query: &str) -> Result<Vec<String>, SearchError>
        ensures no_field { (result ≡ Err NoSuchField)
            ↔ (has_name field.now (fields_of self.now) ≡ false) }
        ensures errors { IfErr result (λ e. (e ≡ NoSuchField) ⊎ (e ≡ Memory)) }
        ensures found { IfOk result (λ found. AreFound L.tokens_of L.leaves_of leaves self.now
            FindsAll
            field.now query.now (bytes_of found.items)) }
        ensures in_trie { IfOk result (λ found. AreFoundInTrie L.tokens_of L.leaves_of leaves
            self.now Join.All
            field.now query.now (bytes_of found.items)) }
        ensures as_chosen { IfOk result (λ found. AreFoundAsChosen L.tokens_of L.leaves_of leaves
            self.now Join.All
            field.now query.now (bytes_of found.items)) }
    {
        postings_tell_tokens();
        let Some(trie) = self.trie(field) else {
            return Err(SearchError::NoSuchField);
        };
        let tokens = self.tokens(query)?;
        let found = find_all_in(self.alloc, trie, &tokens)?;
        Ok(found)
    }

    /// What `find` finds of tokens that the caller made of a query, by the tokenizer and the
    /// pipeline that the field was built with. They are looked up as they stand. An empty token has
    /// no posting, so with one `All` finds nothing.
    pub fn find_tokens(
        &self,
        join: Join,
        field: &str,
        tokens: &[String],
    ) -> Result<Vec<String>, SearchError>
        ensures no_field { (result ≡ Err NoSuchField)
            ↔ (has_name field.now (fields_of self.now) ≡ false) }
        ensures errors { IfErr result (λ e. (e ≡ NoSuchField) ⊎ (e ≡ Memory)) }
        ensures found { IfOk result (λ found. AreFoundOfTokens self.now join field.now
            (texts_of tokens.now)
            (bytes_of found.items)) }
        ensures in_trie { IfOk result (λ found. FindsTokens self.now join field.now
            (texts_of tokens.now)
            (bytes_of found.items)) }
    {
        postings_tell_tokens();
        let Some(trie) = self.trie(field) else {
            return Err(SearchError::NoSuchField);
        };
        match join {
            Join::Any => Ok(find_any_in(self.alloc, trie, tokens)?),
            Join::All => Ok(find_all_in(self.alloc, trie, tokens)?),
        }
    }

    /// The documents that the query's tokens find in the fields that the options choose, each with
    /// its score, the best first: in all fields, or in those for which there are options. Equally
    /// good ones stand in the order of their references' bytes. It costs the postings of the words
    /// that the tokens match, and a sort of what is found.
    pub fn search(&self, query: &str, options: &SearchOptions) -> Result<Vec<Hit>, SearchError>
        ensures no_field { result ≡ Err NoSuchField
            → LacksFieldOf self.now (named_fields (options_of options.now)) }
        ensures has_fields { OnOk result
            (HasFieldsOf self.now (named_fields (options_of options.now))) }
        ensures errors { IfErr result (λ e. (e ≡ NoSuchField) ⊎ (e ≡ Memory)) }
        ensures ranked { IfOk result (λ hits. AreRankedHits L.tokens_of L.leaves_of leaves self.now
            query.now (options_of options.now)
            (told_hits hits.items)) }
        ensures as_chosen { IfOk result (λ hits. AreRankedAsChosen L.tokens_of L.leaves_of leaves
            self.now
            query.now (options_of options.now)
            (told_hits hits.items)) }
    {
        self.check_named(options)?;
        let tokens = self.tokens(query)?;
        let fields = self.searched_fields(options)?;
        let hits = ranked_hits(self.alloc, &fields, &tokens)?;
        Ok(hits)
    }

    /// The first of what `search` finds, at most so many. Only their references are copied.
    pub fn search_best(
        &self,
        query: &str,
        options: &SearchOptions,
        limit: usize,
    ) -> Result<Vec<Hit>, SearchError>
        ensures no_field { result ≡ Err NoSuchField
            → LacksFieldOf self.now (named_fields (options_of options.now)) }
        ensures has_fields { OnOk result
            (HasFieldsOf self.now (named_fields (options_of options.now))) }
        ensures errors { IfErr result (λ e. (e ≡ NoSuchField) ⊎ (e ≡ Memory)) }
        ensures ranked { IfOk result (λ hits. AreBestHits L.tokens_of L.leaves_of leaves self.now
            query.now (options_of options.now)
            limit (told_hits hits.items)) }
        ensures as_chosen { IfOk result (λ hits. AreBestAsChosen L.tokens_of L.leaves_of leaves
            self.now
            query.now (options_of options.now)
            limit (told_hits hits.items)) }
    {
        self.check_named(options)?;
        let tokens = self.tokens(query)?;
        let fields = self.searched_fields(options)?;
        let hits = best_hits(self.alloc, &fields, &tokens, limit)?;
        Ok(hits)
    }

    /// Whether each field is there for which there are options.
    fn check_named(&self, options: &SearchOptions) -> Result<(), SearchError>
        ensures no_field { result ≡ Err NoSuchField
            → LacksFieldOf self.now (named_fields (options_of options.now)) }
        ensures has_fields { OnOk result
            (HasFieldsOf self.now (named_fields (options_of options.now))) }
        ensures errors { IfErr result (λ e. (e ≡ NoSuchField) ⊎ (e ≡ Memory)) }
    {
        let named = names_of_options(self.alloc, options)?;
        let tries = self.tries(&named);
        match tries {
            Ok(_) => Ok(()),
            Err(error) => Err(error),
        }
    }

    /// The fields that are searched by these options.
    fn searched_fields<'a>(
        &'a self,
        options: &SearchOptions,
    ) -> Result<Vec<SearchedField<'a>>, AllocError>
        ensures { IfOk result (λ fields. map field_of fields.items ≡ fields_for
            (options_of options.now) self.now.printed.store
            (zip (fields_of self.now) self.now.printed.tries.items)) }
    {
        let printed = &self.printed;
        searched_fields(
            self.alloc,
            &printed.fields,
            &printed.tries,
            &printed.store,
            options,
        )
    }

    /// A copy of what is stored of the reference's current document: from the names of fields to
    /// their texts, none where there is no such document.
    pub fn texts(&self, reference: &str) -> Result<Option<BTreeMap<String, String>>, SearchError>
        ensures errors { IfErr result (λ e. e ≡ Memory) }
        ensures kept { IfOk result (λ texts.
            option_map (λ t. text_map t.entries) texts ≡ kept_texts self.now reference.now) }
        ensures texts { IfOk result (λ texts. (language : L) (plan : Plan) (commands : Commands)
            → StandsFor L.leaves_of leaves self.now language plan commands
            → option_map (λ t. text_map t.entries) texts
            ≡ option_map (stored plan) (now commands reference.now)) }
    {
        match self.printed.store.get_doc(reference) {
            Ok(texts) => Ok(texts),
            Err(_) => Err(SearchError::Memory),
        }
    }

    /// The documents: their stored texts and the lengths of their fields.
    pub fn document_store(&self) -> &DocumentStore
        ensures { result.now ≡ kept_contents self.now }
    {
        &self.printed.store
    }

    /// The tries of the fields of these names, in order.
    fn tries(&self, fields: &[&str]) -> Result<Vec<&InvertedIndex>, SearchError>
        ensures no_field { result ≡ Err NoSuchField → LacksFieldOf self.now (borrowed fields.now) }
        ensures has_fields { OnOk result (HasFieldsOf self.now (borrowed fields.now)) }
        ensures errors { IfErr result (λ e. (e ≡ NoSuchField) ⊎ (e ≡ Memory)) }
        ensures tries { IfOk result (λ tries. AreTriesOf self.now (borrowed fields.now)
            (tables_of tries.items)) }
    {
        let mut tries = Vec::new(self.alloc);
        for field in fields {
            let Some(trie) = self.trie(field) else {
                return Err(SearchError::NoSuchField);
            };
            tries.push(trie)?;
        }
        Ok(tries)
    }

    /// The trie of a field.
    fn trie(&self, field: &str) -> Option<&InvertedIndex>
        ensures there { IsSome result ↔ IsTrue (has_name field.now (fields_of self.now)) }
        ensures trie { IfSome result (λ trie. (i : ℕ)
            × (slice_get (fields_of self.now) i ≡ Some field.now)
            × (slice_get self.now.printed.tries.items i ≡ Some trie.now)) }
    {
        match place_of(&self.printed.fields, field) {
            Some(i) => Some(&self.printed.tries[i]),
            None => None,
        }
    }

    /// The tokens of a query.
    pub(crate) fn tokens(&self, query: &str) -> Result<Vec<String>, AllocError>
        ensures read { IfOk result (λ tokens. (i : ℕ)
            → LeavesBy leaves self.now.pipeline (L.leaves_of self.now.language)
            → AreTokensOf (LanguageReads (L.tokens_of self.now.language)
            (L.leaves_of self.now.language))
            i query.now (texts_of tokens.items)) }
        ensures run { IfOk result (λ tokens. (i : ℕ)
            → AreTokensOf (RunReads (L.tokens_of self.now.language)
            (IsRunBy leaves self.now.pipeline))
            i query.now (texts_of tokens.items)) }
    {
        a_language_reads_what_its_pipeline_leaves(&self.language, &self.pipeline);
        a_run_has_one_answer(&self.pipeline);
        let made = self.language.tokenize(self.alloc, query)?;
        let mut tokens = self.pipeline.run(self.alloc, made)?;
        tokens.retain(|token| !token.is_empty());
        Ok(tokens)
    }
}

/// The texts of strings.
fn texts_of<'a>(alloc: Global, names: &'a [String]) -> Result<Vec<&'a str>, AllocError>
    ensures { IfOk result (λ texts. borrowed texts.items ≡ bytes_of names.now) }
{
    let mut texts = Vec::new(alloc);
    for name in names {
        texts.push(name.as_str())?;
    }
    Ok(texts)
}

/// Where the name stands.
pub(crate) fn place_of(names: &[String], name: &str) -> Option<usize>
    ensures found { IfSome result (λ i. (i < length names.now)
        × (slice_get (bytes_of names.now) i ≡ Some name.now)) }
    ensures is_found { IsSome result ↔ IsTrue (has_name name.now (bytes_of names.now)) }
{
    for (i, other) in names.iter().enumerate() {
        if other.as_str() == name {
            return Some(i);
        }
    }
    None
}
