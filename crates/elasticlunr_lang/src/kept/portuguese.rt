//! Portuguese.
ghost use Rattle.elasticlunr_lang.specs.declared.any.AnyLanguage.{AnyLanguage};

use crate::any::AnyLanguage;
use crate::kept_language::KeptLanguage;

/// Portuguese: a trimmer of the characters of the Latin script, and stop words.
#[derive(Clone, Copy)]
pub struct Portuguese {}

impl Portuguese {
    /// The language. It has no settings.
    pub fn new() -> Self {
        Portuguese {}
    }
}

impl KeptLanguage for Portuguese {
    ghost LANGUAGE = { AnyLanguage.Portuguese };

    const LANGUAGE: AnyLanguage = AnyLanguage::Portuguese;
}
