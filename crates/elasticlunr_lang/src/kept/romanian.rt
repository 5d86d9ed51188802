//! Romanian.
ghost use Rattle.elasticlunr_lang.specs.declared.any.AnyLanguage.{AnyLanguage};

use crate::any::AnyLanguage;
use crate::kept_language::KeptLanguage;

/// Romanian: a trimmer of the characters of the Latin script, and stop words.
#[derive(Clone, Copy)]
pub struct Romanian {}

impl Romanian {
    /// The language. It has no settings.
    pub fn new() -> Self {
        Romanian {}
    }
}

impl KeptLanguage for Romanian {
    ghost LANGUAGE = { AnyLanguage.Romanian };

    const LANGUAGE: AnyLanguage = AnyLanguage::Romanian;
}
