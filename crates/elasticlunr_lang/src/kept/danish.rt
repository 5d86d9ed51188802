//! Danish.
ghost use Rattle.elasticlunr_lang.specs.declared.any.AnyLanguage.{AnyLanguage};

use crate::any::AnyLanguage;
use crate::kept_language::KeptLanguage;

/// Danish: a trimmer of the characters of the Latin script, and stop words.
#[derive(Clone, Copy)]
pub struct Danish {}

impl Danish {
    /// The language. It has no settings.
    pub fn new() -> Self {
        Danish {}
    }
}

impl KeptLanguage for Danish {
    ghost LANGUAGE = { AnyLanguage.Danish };

    const LANGUAGE: AnyLanguage = AnyLanguage::Danish;
}
