//! Norwegian.
ghost use Rattle.elasticlunr_lang.specs.declared.any.AnyLanguage.{AnyLanguage};

use crate::any::AnyLanguage;
use crate::kept_language::KeptLanguage;

/// Norwegian: a trimmer of the characters of the Latin script, and stop words.
#[derive(Clone, Copy)]
pub struct Norwegian {}

impl Norwegian {
    /// The language. It has no settings.
    pub fn new() -> Self {
        Norwegian {}
    }
}

impl KeptLanguage for Norwegian {
    ghost LANGUAGE = { AnyLanguage.Norwegian };

    const LANGUAGE: AnyLanguage = AnyLanguage::Norwegian;
}
