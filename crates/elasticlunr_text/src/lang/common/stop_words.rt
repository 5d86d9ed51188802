//! A filter of stop words.
ghost use Rattle.std.specs.Prelude.{◌≡◌, string_bytes, IfOk, IsOkUnless, IsOk, option_map};
ghost use Rattle.elasticlunr_text.specs.Text.{Text, text_of, texts_of, word_texts, is_listed};
ghost use Rattle.elasticlunr_text.specs.StopWords.{filter_name, has_word, HasWords, without};

use crate::IndexError;
use crate::pipeline::PipelineFn;
use std::alloc::{AllocError, Global};
use std::collections::HashSet;

/// Drops each token that equals a stop word, character by character: nothing is lower-cased.
#[derive(Drop)]
pub struct StopWordFilter {
    name: String,
    stop_words: HashSet<String>,
}

impl StopWordFilter {
    /// The filter with the name and the stop words. A word that is listed twice counts once.
    pub fn new(alloc: Global, name: &str, stop_words: &[&str]) -> Result<Self, IndexError>
        ensures name { IfOk result (λ filter. filter_name filter ≡ name.now) }
        ensures words { IfOk result (λ filter. HasWords filter (word_texts stop_words.now)) }
        ensures memory { IsOkUnless result IndexError.Memory }
    {
        let mut words = HashSet::new(alloc);
        for word in stop_words {
            words.insert(String::from_str(alloc, word)?)?;
        }
        Ok(StopWordFilter {
            name: String::from_str(alloc, name)?,
            stop_words: words,
        })
    }

    /// The stop words, each once, in no order that is promised. No memory is requested.
    pub fn stop_words(&self) -> &HashSet<String>
        ensures { (token : Text) → has_word self.now token ≡ is_listed token (texts_of result.now.keys) }
    {
        &self.stop_words
    }

    /// A filter with the same name and the same words.
    pub fn clone(&self, _alloc: Global) -> Result<Self, IndexError>
        ensures name { IfOk result (λ copy. filter_name copy ≡ filter_name self.now) }
        ensures words { IfOk result (λ copy. (token : Text) → has_word copy token ≡ has_word self.now token) }
        ensures memory { IsOkUnless result IndexError.Memory }
    {
        Ok(StopWordFilter {
            name: self.name.clone()?,
            stop_words: self.stop_words.clone()?,
        })
    }
}

impl PipelineFn for StopWordFilter {
    ghost name_text = { filter_name };

    ghost leaves = { without };

    fn name(&self, _alloc: Global) -> Result<String, AllocError> {
        self.name.clone()
    }

    /// The token, unless it is a stop word. No memory is requested.
    fn filter(&self, _alloc: Global, token: String) -> Result<Option<String>, AllocError>
        ensures left { IfOk result (λ left. option_map text_of left ≡ without self.now (text_of token)) }
        ensures always { IsOk result }
    {
        if self.stop_words.contains(token.as_str()) {
            Ok(None)
        } else {
            Ok(Some(token))
        }
    }
}
