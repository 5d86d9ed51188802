//! The English stemmer.
ghost use Rattle.elasticlunr_text.specs.OneStem.{HasStems, HasStems-prop};

use super::steps;
use crate::pipeline::PipelineFn;
use std::alloc::{AllocError, Global};

/// The English stemmer.
#[derive(Clone, Copy)]
pub struct Stemmer {
    // each word has exactly one stem
    ghost has_stems: { HasStems } by { HasStems-prop },
}

impl Stemmer {
    ghost use Rattle.std.specs.Prelude.{◌≡◌, ◌≤◌, string_len, slice_get, IsOkAnd};
    ghost use Rattle.elasticlunr_text.specs.Text.{Text, text_of};
    ghost use Rattle.elasticlunr_text.specs.Stems.{Stem};

    /// The stemmer. It has no settings.
    pub fn new() -> Self {
        Stemmer {}
    }

    /// The stem of the word, made in the word's own buffer: no memory is requested.
    ///
    /// A word under 3 bytes comes back as it is. The stem is never longer in bytes than the word,
    /// keeps its first character, and is empty only for the empty word; it need not be a word.
    pub fn stem(&self, w: String) -> Result<String, AllocError>
        ensures stem { IsOkAnd result (λ v. Stem (text_of w) (text_of v)) }
        ensures only { IsOkAnd result (λ v. (u : Text) → Stem (text_of w) u → u ≡ text_of v) }
        ensures length { IsOkAnd result (λ v. string_len v ≤ string_len w) }
        ensures first { IsOkAnd result (λ v. slice_get (text_of v) 0 ≡ slice_get (text_of w) 0) }
    {
        let mut word = w;
        if word.len() < 3 {
            return Ok(word);
        }
        if word.as_str().starts_with('y') {
            steps::set_first(&mut word, 'Y');
            steps::all(&mut word);
            steps::set_first(&mut word, 'y');
        } else {
            steps::all(&mut word);
        }
        Ok(word)
    }
}

impl PipelineFn for Stemmer {
    ghost use Rattle.std.specs.Prelude.{◌≡◌, IsOkAnd, IsSomeAnd, IfOk, Some, codes, option_map};
    ghost use Rattle.elasticlunr_text.specs.Text.{text_of};
    ghost use Rattle.elasticlunr_text.specs.Stems.{Stem};
    ghost use Rattle.elasticlunr_text.specs.TheStem.{stem_of};

    ghost name_text = { λ _. codes "stemmer" };

    ghost leaves = { λ stemmer token. Some (stem_of stemmer token) };

    fn name(&self, alloc: Global) -> Result<String, AllocError> {
        String::from_str(alloc, "stemmer")
    }

    /// The stem of the token. No memory is requested.
    fn filter(&self, _alloc: Global, token: String) -> Result<Option<String>, AllocError>
        ensures leaves { IfOk result (λ left. option_map text_of left
            ≡ Some (stem_of self.now (text_of token))) }
        ensures stem { IsOkAnd result (λ left. IsSomeAnd (option_map text_of left)
            (Stem (text_of token))) }
    {
        Ok(Some(self.stem(token)?))
    }
}
