//! Turkish.
ghost use Rattle.elasticlunr_lang.specs.declared.any.AnyLanguage.{AnyLanguage};

use crate::any::AnyLanguage;
use crate::kept_language::KeptLanguage;

/// Turkish: a trimmer of the characters of the Latin script, and stop words.
#[derive(Clone, Copy)]
pub struct Turkish {}

impl Turkish {
    /// The language. It has no settings.
    pub fn new() -> Self {
        Turkish {}
    }
}

impl KeptLanguage for Turkish {
    ghost LANGUAGE = { AnyLanguage.Turkish };

    const LANGUAGE: AnyLanguage = AnyLanguage::Turkish;
}
