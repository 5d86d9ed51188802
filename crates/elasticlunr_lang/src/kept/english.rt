//! English.
ghost use Rattle.elasticlunr_lang.specs.declared.any.AnyLanguage.{AnyLanguage};

use crate::any::AnyLanguage;
use crate::kept_language::KeptLanguage;

/// English: trimmer, stop words, stemmer.
#[derive(Clone, Copy)]
pub struct English {}

impl English {
    /// The language. It has no settings.
    pub fn new() -> Self {
        English {}
    }
}

impl KeptLanguage for English {
    ghost LANGUAGE = { AnyLanguage.English };

    const LANGUAGE: AnyLanguage = AnyLanguage::English;
}
