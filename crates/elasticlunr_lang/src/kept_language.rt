//! What a built-in language answers as a type.
ghost use Rattle.elasticlunr_lang.specs.Known.{language_name, language_code, language_stages};
ghost use Rattle.elasticlunr_lang.specs.Known.{language_leaves};
ghost use Rattle.elasticlunr_lang.specs.Words.{words};
ghost use Rattle.elasticlunr_lang.specs.declared.any.AnyLanguage.{AnyLanguage};

use crate::any::AnyLanguage;
use crate::language::Language;
use elasticlunr_text::pipeline::Pipeline;
use std::alloc::{AllocError, Global};

/// A type that represents one of the built-in languages. As a `Language` it answers as that one
/// does.
pub trait KeptLanguage: Drop {
    // the language that it represents
    ghost LANGUAGE: { AnyLanguage };

    /// The language that it represents.
    const LANGUAGE: AnyLanguage;
}

impl<K: KeptLanguage> Language for K {
    ghost name_of = { λ _. language_name K.LANGUAGE };

    ghost code_of = { λ _. language_code K.LANGUAGE };

    ghost tokens_of = { λ _. words };

    ghost stages_of = { λ _. language_stages K.LANGUAGE };

    ghost leaves_of = { λ _. language_leaves K.LANGUAGE };

    fn name(&self, alloc: Global) -> Result<String, AllocError> {
        K::LANGUAGE.name(alloc)
    }

    fn code(&self, alloc: Global) -> Result<String, AllocError> {
        K::LANGUAGE.code(alloc)
    }

    fn tokenize(&self, alloc: Global, text: &str) -> Result<Vec<String>, AllocError> {
        K::LANGUAGE.tokenize(alloc, text)
    }

    fn tokenizes_whitespace(&self) -> bool {
        K::LANGUAGE.tokenizes_whitespace()
    }

    fn make_pipeline(&self, alloc: Global, empty: Pipeline) -> Result<Pipeline, AllocError> {
        K::LANGUAGE.make_pipeline(alloc, empty)
    }
}
