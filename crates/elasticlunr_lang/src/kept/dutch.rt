//! Dutch.
ghost use Rattle.elasticlunr_lang.specs.declared.any.AnyLanguage.{AnyLanguage};

use crate::any::AnyLanguage;
use crate::kept_language::KeptLanguage;

/// Dutch: a trimmer of the characters of the Latin script, and stop words.
#[derive(Clone, Copy)]
pub struct Dutch {}

impl Dutch {
    /// The language. It has no settings.
    pub fn new() -> Self {
        Dutch {}
    }
}

impl KeptLanguage for Dutch {
    ghost LANGUAGE = { AnyLanguage.Dutch };

    const LANGUAGE: AnyLanguage = AnyLanguage::Dutch;
}
