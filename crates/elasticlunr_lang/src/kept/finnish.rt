//! Finnish.
ghost use Rattle.elasticlunr_lang.specs.declared.any.AnyLanguage.{AnyLanguage};

use crate::any::AnyLanguage;
use crate::kept_language::KeptLanguage;

/// Finnish: a trimmer of the characters of the Latin script, and stop words.
#[derive(Clone, Copy)]
pub struct Finnish {}

impl Finnish {
    /// The language. It has no settings.
    pub fn new() -> Self {
        Finnish {}
    }
}

impl KeptLanguage for Finnish {
    ghost LANGUAGE = { AnyLanguage.Finnish };

    const LANGUAGE: AnyLanguage = AnyLanguage::Finnish;
}
