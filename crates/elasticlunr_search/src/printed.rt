//! The parts of a printed index.
ghost use Rattle.std.specs.Prelude.{◌≡◌, IfOk, IfErr, vec_len};
ghost use Rattle.elasticlunr_text.specs.Text.{bytes_of};
ghost use Rattle.elasticlunr_search.specs.Refusal.{Lacks};
ghost use Rattle.elasticlunr_search.specs.Fields.{IsIndexOf};
ghost use Rattle.serde_json.specs.View.{view};

use crate::error::SearchError;
use crate::parts::{fields_of, store_of, tries_of};
use elasticlunr_store::DocumentStore;
use elasticlunr_trie::InvertedIndex;
use serde_json::Value;
use std::alloc::Global;

/// The names of the fields, their tries in the same order, and the document store.
#[derive(Drop)]
pub(crate) struct Printed {
    pub fields: Vec<String>,
    pub tries: Vec<InvertedIndex>,
    pub store: DocumentStore,
    ghost one_each: { vec_len tries ≡ vec_len fields },
}

impl Printed {
    /// The parts of the value of an index.
    pub(crate) fn of_value(alloc: Global, value: &Value) -> Result<Printed, SearchError>
        ensures parts { IfOk result (λ s. IsIndexOf (view value.now) (bytes_of s.fields.items)
            s.tries.items s.store) }
        ensures lacks { IfErr result (Lacks (view value.now)) }
    {
        let fields = fields_of(alloc, value)?;
        let tries = tries_of(alloc, &fields, value)?;
        let store = store_of(alloc, value)?;
        Ok(Printed {
            fields,
            tries,
            store,
        })
    }
}
