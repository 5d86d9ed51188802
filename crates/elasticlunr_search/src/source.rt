//! A printed index, as it was read of its text.
ghost use Rattle.std.specs.Prelude.{◌≡◌, ◌↔◌, Some, None, IfOk, IfErr, IfSome, IsNone, IsTrue};
ghost use Rattle.elasticlunr_text.specs.Text.{Bytes, bytes_of};
ghost use Rattle.elasticlunr.specs.Shape.{HasLanguage};
ghost use Rattle.elasticlunr_search.specs.Fields.{HasStages, IsIndexOf};
ghost use Rattle.elasticlunr_search.specs.Refusal.{IsUnread, Lacks, NamesOther};
ghost use Rattle.elasticlunr_search.specs.Readers.{ReadsAs};
ghost use Rattle.elasticlunr_search.specs.Source.{IsSource};
ghost use Rattle.serde_json.specs.Data.{Data};

use crate::error::SearchError;
use crate::parts::{are_same, has_stages, language_of, names_other, value_of};
use crate::printed::Printed;
use crate::rebuilt_index::{RebuiltIndex, rebuild_and_compare};
use serde_json::Value;
use std::alloc::{AllocError, Global};

/// An index that was rebuilt from its text, or else the JSON value that the text is.
#[derive(Drop)]
pub(crate) enum Source {
    RebuiltIndex(RebuiltIndex),
    Value(Value),
}

impl Source {
    /// The index of a text.
    pub(crate) fn of_text(alloc: Global, text: &str) -> Result<Source, SearchError>
        ensures ok { IfOk result (λ source. (v : Data) × ReadsAs text.now v × IsSource source v) }
        ensures err { IfErr result (IsUnread text.now) }
    {
        if let Some(index) = rebuild_and_compare(alloc, text)? {
            return Ok(Source::RebuiltIndex(index));
        }
        let value = value_of(alloc, text)?;
        Ok(Source::Value(value))
    }

    /// The name of the language that the index names, if it names one.
    pub(crate) fn language(&self) -> Option<&str>
        ensures named { IfSome result (λ name. (v : Data) → IsSource self.now v
            → HasLanguage v name.now) }
        ensures none { IsNone result → (v : Data) (name : Bytes) → IsSource self.now v
            → ¬ HasLanguage v name }
    {
        match self {
            Source::RebuiltIndex(index) => Some(index.language.as_str()),
            Source::Value(value) => language_of(value),
        }
    }

    /// Whether the index names another language than this.
    pub(crate) fn names_other(&self, language: &str) -> bool
        ensures { (v : Data) → IsSource self.now v → IsTrue result ↔ NamesOther language.now v }
    {
        match self {
            Source::RebuiltIndex(index) => index.language.as_str() != language,
            Source::Value(value) => names_other(language, value),
        }
    }

    /// Whether these are the names of the index's stages, in order.
    pub(crate) fn has_stages(&self, alloc: Global, stages: &[String]) -> Result<bool, AllocError>
        ensures { IfOk result (λ has. (v : Data) → IsSource self.now v → IsTrue has
            ↔ HasStages v (bytes_of stages.now)) }
    {
        match self {
            Source::RebuiltIndex(index) => Ok(are_same(&index.stages, stages)),
            Source::Value(value) => has_stages(alloc, stages, value),
        }
    }

    /// The fields of the index, their tries and the document store.
    pub(crate) fn into_printed(self, alloc: Global) -> Result<Printed, SearchError>
        ensures parts { IfOk result (λ p. (v : Data) → IsSource self v
            → IsIndexOf v (bytes_of p.fields.items) p.tries.items p.store) }
        ensures lacks { IfErr result (λ e. (v : Data) → IsSource self v → Lacks v e) }
    {
        match self {
            Source::RebuiltIndex(index) => Ok(index.printed),
            Source::Value(value) => Printed::of_value(alloc, &value),
        }
    }
}
