//! French.
ghost use Rattle.elasticlunr_lang.specs.declared.any.AnyLanguage.{AnyLanguage};

use crate::any::AnyLanguage;
use crate::kept_language::KeptLanguage;

/// French: a trimmer of the characters of the Latin script, and stop words.
#[derive(Clone, Copy)]
pub struct French {}

impl French {
    /// The language. It has no settings.
    pub fn new() -> Self {
        French {}
    }
}

impl KeptLanguage for French {
    ghost LANGUAGE = { AnyLanguage.French };

    const LANGUAGE: AnyLanguage = AnyLanguage::French;
}
