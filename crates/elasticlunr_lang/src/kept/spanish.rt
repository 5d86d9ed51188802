//! Spanish.
ghost use Rattle.elasticlunr_lang.specs.declared.any.AnyLanguage.{AnyLanguage};

use crate::any::AnyLanguage;
use crate::kept_language::KeptLanguage;

/// Spanish: a trimmer of the characters of the Latin script, and stop words.
#[derive(Clone, Copy)]
pub struct Spanish {}

impl Spanish {
    /// The language. It has no settings.
    pub fn new() -> Self {
        Spanish {}
    }
}

impl KeptLanguage for Spanish {
    ghost LANGUAGE = { AnyLanguage.Spanish };

    const LANGUAGE: AnyLanguage = AnyLanguage::Spanish;
}
