//! Swedish.
ghost use Rattle.elasticlunr_lang.specs.declared.any.AnyLanguage.{AnyLanguage};

use crate::any::AnyLanguage;
use crate::kept_language::KeptLanguage;

/// Swedish: a trimmer of the characters of the Latin script, and stop words.
#[derive(Clone, Copy)]
pub struct Swedish {}

impl Swedish {
    /// The language. It has no settings.
    pub fn new() -> Self {
        Swedish {}
    }
}

impl KeptLanguage for Swedish {
    ghost LANGUAGE = { AnyLanguage.Swedish };

    const LANGUAGE: AnyLanguage = AnyLanguage::Swedish;
}
