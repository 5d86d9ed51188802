//! A stemmer with the stems of the words that came last.
ghost use Rattle.std.specs.Prelude.{◌≡◌, IfErr, IfOk, Some};
ghost use Rattle.std.specs.Str.{chars};
ghost use Rattle.elasticlunr_error.specs.Text.{text_of};
ghost use Rattle.elasticlunr_stems.specs.Held.{Refuses, table_of};
ghost use Rattle.elasticlunr_stems.specs.Stems.{stem_of};
ghost use Rattle.elasticlunr_stem_cache.specs.Tables.{table_after};

use crate::cache::{Cache, Entry};
use elasticlunr_stem_tables::{Language, Version};
use elasticlunr_stems::{Stemmer, TableError};
use std::alloc::{AllocError, Global};
use std::cell::RefCell;

/// The stemmer of a language. It remembers the stems of some thousand words: a word of a text has
/// mostly come before, and is looked up in place of being stemmed anew.
#[derive(Drop)]
pub struct CachedStemmer {
    language: Language,
    version: Version,
    stemmer: Stemmer,
    cache: RefCell<Cache>,
    ghost reads: { table_after language version ≡ Some (table_of stemmer) },
}

impl CachedStemmer {
    ghost use Rattle.elasticlunr_stem_cache.specs.Cached.{cached_table};

    /// The stemmer of a language, after a version of Snowball. It reads the table of the language,
    /// of some thousand steps and suffixes, and holds it.
    pub fn read(alloc: Global, language: Language, version: Version) -> Result<Self, TableError>
        ensures ok { IfOk result (λ stemmer. table_after language version
            ≡ Some (cached_table stemmer)) }
        ensures err { IfErr result (λ error. Refuses error (table_after language version)) }
    {
        let stemmer = Stemmer::read(alloc, language.table(version))?;
        Ok(CachedStemmer {
            language,
            version,
            stemmer,
            cache: RefCell::new(Cache::new(alloc, language, version)),
        })
    }

    /// The stem of a word, which is to be in lower case. It may be empty. The only error is that
    /// memory was refused.
    pub fn stem(&self, alloc: Global, word: String) -> Result<String, AllocError>
        ensures { IfOk result (λ stem. text_of stem
            ≡ stem_of (cached_table self.now) (text_of word)) }
    {
        let (language, version) = (self.language, self.version);
        let Ok(mut cache) = self.cache.try_borrow_mut() else {
            return self.stemmer.stem(alloc, word);
        };
        if let Some(stem) = cache.get(language, version, word.as_str()) {
            return written(word, stem);
        }
        let key = word.clone()?;
        let stem = self.stemmer.stem(alloc, word)?;
        let entry = Entry {
            word: key,
            stem: stem.clone()?,
        };
        cache.put(alloc, language, version, entry)?;
        Ok(stem)
    }
}

/// The text, in the memory of one that is given up.
fn written(memory: String, text: &str) -> Result<String, AllocError>
    ensures { IfOk result (λ written. text_of written ≡ chars text.now) }
{
    let mut written = memory;
    written.clear();
    written.push_str(text)?;
    Ok(written)
}
