//! Italian.
ghost use Rattle.elasticlunr_lang.specs.declared.any.AnyLanguage.{AnyLanguage};

use crate::any::AnyLanguage;
use crate::kept_language::KeptLanguage;

/// Italian: a trimmer of the characters of the Latin script, and stop words.
#[derive(Clone, Copy)]
pub struct Italian {}

impl Italian {
    /// The language. It has no settings.
    pub fn new() -> Self {
        Italian {}
    }
}

impl KeptLanguage for Italian {
    ghost LANGUAGE = { AnyLanguage.Italian };

    const LANGUAGE: AnyLanguage = AnyLanguage::Italian;
}
