//! A stemmer that a table describes.
ghost use Rattle.std.specs.Prelude.{◌≡◌};
ghost use Rattle.elasticlunr_text.specs.TableStemmers.{stemmer_name, table_stem};

use crate::pipeline::PipelineFn;
use elasticlunr_stem_cache::CachedStemmer;
use std::alloc::{AllocError, Global};

/// Makes each token its stem by a table, and drops it where the stem is empty. It goes after the
/// trimmer and the stop words of its language. Tokens must be in lower case, as those of the
/// built-in languages are.
#[derive(Drop)]
pub struct TableStemmer {
    /// The name by which a printed index lists the stage.
    pub name: String,
    /// The stemmer of the table, which remembers the stems of the words that came last.
    pub stemmer: CachedStemmer,
}

impl PipelineFn for TableStemmer {
    ghost name_text = { stemmer_name };

    ghost leaves = { table_stem };

    fn name(&self, _alloc: Global) -> Result<String, AllocError> {
        self.name.clone()
    }

    fn filter(&self, alloc: Global, token: String) -> Result<Option<String>, AllocError> {
        let stem = self.stemmer.stem(alloc, token)?;
        if stem.is_empty() {
            return Ok(None);
        }
        Ok(Some(stem))
    }
}
