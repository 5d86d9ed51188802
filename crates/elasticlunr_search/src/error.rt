//! Why a search was refused.

use std::alloc::{AllocError, AllocFailed};

/// Why a text was not read, or a field was not searched.
#[derive(Clone, Copy, Debug, PartialEq, Eq)]
pub enum SearchError {
    /// The text is not JSON.
    NotRead,
    /// The text is nested deeper than `serde_json` reads, and is not read as what an index printed.
    TooDeep,
    /// Under the key `lang` is the name of another language than the searcher's.
    OtherLanguage,
    /// Under the key `pipeline` are not the names of the searcher's stages: other ones, or no list
    /// of names.
    OtherPipeline,
    /// Under the key `fields` is no list of names.
    BadFields,
    /// Under the key `index` the name of a field has no trie.
    BadTries,
    /// Under the key `documentStore` is no document store.
    BadStore,
    /// No field has the name.
    NoSuchField,
    /// A request for memory was refused.
    Memory,
}

impl From<AllocError> for SearchError {
    ghost use Rattle.elasticlunr_search.specs.declared.error.SearchError.TheVariants.{Memory};
    ghost use Rattle.std.specs.Prelude.{◌≡◌};

    ghost from_gives = { λ _ e. e ≡ Memory };

    fn from(_refused: AllocError) -> SearchError {
        SearchError::Memory
    }
}

impl<T: Drop> From<AllocFailed<T>> for SearchError {
    ghost use Rattle.elasticlunr_search.specs.declared.error.SearchError.TheVariants.{Memory};
    ghost use Rattle.std.specs.Prelude.{◌≡◌};

    ghost from_gives = { λ _ e. e ≡ Memory };

    fn from(_refused: AllocFailed<T>) -> SearchError {
        SearchError::Memory
    }
}
