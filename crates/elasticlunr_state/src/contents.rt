//! What an index holds, and how each command changes it.
ghost use Rattle.std.specs.Prelude.{◌≡◌, ◌≢◌, ◌<◌, ℕ, Option, length, None, OnOk, IfOk};
ghost use Rattle.std.specs.Prelude.{IsOkUnless, ◌≤◌, Some, slice_get, vec_len, replicate};
ghost use Rattle.elasticlunr_error.specs.Text.{Text, bytes_of};
ghost use Rattle.elasticlunr_error.specs.declared.error.IndexError.TheVariants.{Memory};
ghost use Rattle.elasticlunr_trie.specs.Table.{Table, new_table, posting};
ghost use Rattle.elasticlunr_store.specs.Contents.{new_contents, without};
ghost use Rattle.elasticlunr_commands.specs.Fields.{borrowed};
ghost use Rattle.elasticlunr_commands.specs.Entered.{HoldsOneMore, TakesOut, IsCompacted};
ghost use Rattle.elasticlunr_commands.specs.Entered.{ReplacesPostings, HasOnlyStored, MakesRoom};
ghost use Rattle.elasticlunr_commands.specs.Entered.{AddsTokens};
ghost use Rattle.elasticlunr_state.specs.Others.{OthersStay};
ghost use Rattle.elasticlunr_state.specs.Texts.{texts_left, token_texts, with_tokens};
ghost use Rattle.elasticlunr_state.specs.Texts.{with_all_tokens};

use crate::counts::{add_postings, count_tokens};
use crate::documents::document_of;
use elasticlunr_error::IndexError;
use elasticlunr_store::DocumentStore;
use elasticlunr_trie::InvertedIndex;
use std::alloc::{AllocError, Global};
use std::collections::BTreeMap;

/// What an index holds: a trie for each field, in their order, and the store.
#[derive(Drop)]
pub struct IndexContents {
    pub tries: Vec<InvertedIndex>,
    pub store: DocumentStore,
}

impl IndexContents {
    /// A new trie for each field, and a new store.
    pub fn new(alloc: Global, fields: usize, save: bool) -> Result<Self, AllocError>
        ensures tries { IfOk result (λ c. c.tries.items ≡ replicate fields new_table) }
        ensures store { IfOk result (λ c. c.store ≡ new_contents save) }
    {
        let mut tries = Vec::with_capacity(alloc, fields)?;
        for _ in 0..fields {
            tries.push(InvertedIndex::new(alloc))?;
        }
        Ok(IndexContents {
            tries,
            store: DocumentStore::new(alloc, save),
        })
    }

    /// Puts a document in, which replaces what its reference had. The tokens are those of the
    /// values, in their order, none for the field that holds the reference. What other references
    /// have stays; after an error, what this one has may be anything between the old and the new.
    pub fn add_document(
        &mut self,
        alloc: Global,
        fields: &[String],
        ref_field: &str,
        doc_ref: &str,
        values: &[&str],
        tokens: Vec<Option<Vec<String>>>,
    ) -> Result<(), IndexError>
        requires one_each { vec_len self.old.tries ≡ length fields.now }
        requires as_many { vec_len tokens ≡ length values.now }
        requires few { length values.now ≤ length fields.now }
        ensures as_many { vec_len self.new.tries ≡ vec_len self.old.tries }
        ensures memory { IsOkUnless result Memory }
        ensures entered { OnOk result (HoldsOneMore (bytes_of fields.now) ref_field.now doc_ref.now
            (borrowed values.now) (token_texts tokens.items)
            self.old.tries.items self.old.store self.new.tries.items self.new.store) }
        ensures others_stay { OthersStay doc_ref.now self.old.tries.items self.new.tries.items
            self.old.store self.new.store }
    {
        self.make_room(doc_ref);
        self.enter_tokens(alloc, fields, doc_ref, tokens)?;
        let document = if self.store.is_stored() {
            document_of(alloc, fields, ref_field, doc_ref, values)?
        } else {
            BTreeMap::new(alloc)
        };
        self.store.add_doc(doc_ref, document)
    }

    /// Takes out what the reference has, if it is there. A new reference is not searched for in any
    /// trie.
    fn make_room(&mut self, doc_ref: &str)
        ensures as_many { vec_len self.new.tries ≡ vec_len self.old.tries }
        ensures room { HasOnlyStored self.old.tries.items self.old.store doc_ref.now
            → MakesRoom doc_ref.now self.old.tries.items self.new.tries.items self.old.store
            self.new.store }
        ensures others_stay { OthersStay doc_ref.now self.old.tries.items self.new.tries.items
            self.old.store self.new.store }
    {
        if self.store.has_doc(doc_ref) {
            self.remove_document(doc_ref);
        }
    }

    /// Adds the tokens of each field, and how many they are.
    fn enter_tokens(
        &mut self,
        alloc: Global,
        fields: &[String],
        doc_ref: &str,
        tokens: Vec<Option<Vec<String>>>,
    ) -> Result<(), IndexError>
        requires one_each { vec_len self.old.tries ≡ length fields.now }
        requires few { vec_len tokens ≤ length fields.now }
        ensures as_many { vec_len self.new.tries ≡ vec_len self.old.tries }
        ensures memory { IsOkUnless result Memory }
        ensures tables { OnOk result (AddsTokens doc_ref.now (token_texts tokens.items)
            self.old.tries.items self.new.tries.items) }
        ensures store { OnOk result (self.new.store
            ≡ with_all_tokens self.old.store doc_ref.now (bytes_of fields.now)
            (token_texts tokens.items)) }
        ensures others_stay { OthersStay doc_ref.now self.old.tries.items self.new.tries.items
            self.old.store self.new.store }
    {
        for (i, tokens) in tokens.into_iter().enumerate() {
            self.enter_field(alloc, i, fields[i].as_str(), doc_ref, tokens)?;
        }
        Ok(())
    }

    /// Adds the tokens of the field of this number.
    fn enter_field(
        &mut self,
        alloc: Global,
        i: usize,
        field: &str,
        doc_ref: &str,
        tokens: Option<Vec<String>>,
    ) -> Result<(), IndexError>
        requires { i < vec_len self.old.tries }
        ensures as_many { vec_len self.new.tries ≡ vec_len self.old.tries }
        ensures memory { IsOkUnless result Memory }
        ensures table { OnOk result ((before after : Table)
            → slice_get self.old.tries.items i ≡ Some before → slice_get self.new.tries.items i
            ≡ Some after
            → ((token : Text) → posting before token doc_ref.now ≡ None)
            → ReplacesPostings before after doc_ref.now (texts_left tokens)) }
        ensures others { OnOk result ((j : ℕ) → j ≢ i
            → slice_get self.new.tries.items j ≡ slice_get self.old.tries.items j) }
        ensures store { OnOk result (self.new.store
            ≡ with_tokens self.old.store doc_ref.now field.now (texts_left tokens)) }
        ensures others_stay { OthersStay doc_ref.now self.old.tries.items self.new.tries.items
            self.old.store self.new.store }
    {
        let Some(tokens) = tokens else {
            return Ok(());
        };
        self.store.add_field_length(doc_ref, field, tokens.len())?;
        let counts = count_tokens(alloc, tokens)?;
        add_postings(alloc, &mut self.tries[i], doc_ref, &counts)
    }

    /// Takes out what the reference has.
    pub fn remove_document(&mut self, doc_ref: &str)
        ensures as_many { vec_len self.new.tries ≡ vec_len self.old.tries }
        ensures tries { (i : ℕ) (before after : Table) → slice_get self.old.tries.items i
            ≡ Some before
            → slice_get self.new.tries.items i ≡ Some after → TakesOut before after doc_ref.now }
        ensures store { self.new.store ≡ without self.old.store doc_ref.now }
    {
        for trie in self.tries.iter_mut() {
            trie.remove_doc(doc_ref);
        }
        self.store.forget_doc(doc_ref);
    }

    /// The tries without the paths that lead to no posting.
    pub fn compacted_tries(&self, alloc: Global) -> Result<Vec<InvertedIndex>, IndexError>
        ensures memory { IsOkUnless result Memory }
        ensures as_many { IfOk result (λ tries. vec_len tries ≡ vec_len self.now.tries) }
        ensures tries { IfOk result (λ tries. (i : ℕ) (before after : Table)
            → slice_get self.now.tries.items i ≡ Some before
            → slice_get tries.items i ≡ Some after → IsCompacted before after) }
    {
        let mut tries = Vec::with_capacity(alloc, self.tries.len())?;
        for trie in &self.tries {
            tries.push(trie.compacted()?)?;
        }
        Ok(tries)
    }
}
