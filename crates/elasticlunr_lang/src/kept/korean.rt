//! Korean.
ghost use Rattle.elasticlunr_lang.specs.declared.any.AnyLanguage.{AnyLanguage};

use crate::any::AnyLanguage;
use crate::kept_language::KeptLanguage;

/// Korean: a trimmer of the characters of the Latin and Hangul scripts, stop words, and a stage
/// that keeps every token.
#[derive(Clone, Copy)]
pub struct Korean {}

impl Korean {
    /// The language. It has no settings.
    pub fn new() -> Self {
        Korean {}
    }
}

impl KeptLanguage for Korean {
    ghost LANGUAGE = { AnyLanguage.Korean };

    const LANGUAGE: AnyLanguage = AnyLanguage::Korean;
}
