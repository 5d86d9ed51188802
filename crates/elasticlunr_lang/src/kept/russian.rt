//! Russian.
ghost use Rattle.elasticlunr_lang.specs.declared.any.AnyLanguage.{AnyLanguage};

use crate::any::AnyLanguage;
use crate::kept_language::KeptLanguage;

/// Russian: a trimmer of the characters of the Cyrillic script, and stop words.
#[derive(Clone, Copy)]
pub struct Russian {}

impl Russian {
    /// The language. It has no settings.
    pub fn new() -> Self {
        Russian {}
    }
}

impl KeptLanguage for Russian {
    ghost LANGUAGE = { AnyLanguage.Russian };

    const LANGUAGE: AnyLanguage = AnyLanguage::Russian;
}
