//! German.
ghost use Rattle.elasticlunr_lang.specs.declared.any.AnyLanguage.{AnyLanguage};

use crate::any::AnyLanguage;
use crate::kept_language::KeptLanguage;

/// German: a trimmer of the characters of the Latin script, and stop words.
#[derive(Clone, Copy)]
pub struct German {}

impl German {
    /// The language. It has no settings.
    pub fn new() -> Self {
        German {}
    }
}

impl KeptLanguage for German {
    ghost LANGUAGE = { AnyLanguage.German };

    const LANGUAGE: AnyLanguage = AnyLanguage::German;
}
