//! Arabic.
ghost use Rattle.elasticlunr_lang.specs.declared.any.AnyLanguage.{AnyLanguage};

use crate::any::AnyLanguage;
use crate::kept_language::KeptLanguage;

/// Arabic: a stemmer alone.
#[derive(Clone, Copy)]
pub struct Arabic {}

impl Arabic {
    /// The language. It has no settings.
    pub fn new() -> Self {
        Arabic {}
    }
}

impl KeptLanguage for Arabic {
    ghost LANGUAGE = { AnyLanguage.Arabic };

    const LANGUAGE: AnyLanguage = AnyLanguage::Arabic;
}
