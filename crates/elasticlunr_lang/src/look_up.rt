//! The built-in languages by name and by code.
ghost use Rattle.std.specs.Prelude.{◌≡◌, ◌≢◌, All, IfSome, IsNone};
ghost use Rattle.elasticlunr_lang.specs.Known.{all_languages, language_name, language_code};
ghost use Rattle.elasticlunr_lang.specs.Known.{SameCode};

use crate::any::AnyLanguage;

/// The built-in languages, in the order in which look-ups try them. Does not allocate.
pub fn languages() -> [AnyLanguage; 16]
    ensures { result ≡ all_languages }
{
    [
        AnyLanguage::English,
        AnyLanguage::Arabic,
        AnyLanguage::Danish,
        AnyLanguage::Dutch,
        AnyLanguage::Finnish,
        AnyLanguage::French,
        AnyLanguage::German,
        AnyLanguage::Italian,
        AnyLanguage::Korean,
        AnyLanguage::Norwegian,
        AnyLanguage::Portuguese,
        AnyLanguage::Romanian,
        AnyLanguage::Russian,
        AnyLanguage::Spanish,
        AnyLanguage::Swedish,
        AnyLanguage::Turkish,
    ]
}

/// The language with exactly this name, as `German`. Does not allocate.
pub fn from_name(name: &str) -> Option<AnyLanguage>
    ensures found { IfSome result (λ language. language_name language ≡ name.now) }
    ensures none { IsNone result → All (λ language. language_name language ≢ name.now)
        all_languages }
{
    for language in languages() {
        if language.as_name() == name {
            return Some(language);
        }
    }
    None
}

/// The language whose code equals the text but for ASCII case, as `de`. Does not allocate.
pub fn from_code(code: &str) -> Option<AnyLanguage>
    ensures found { IfSome result (λ language. SameCode (language_code language) code.now) }
    ensures none { IsNone result → All (λ language. ¬ (SameCode (language_code language) code.now))
        all_languages }
{
    for language in languages() {
        if language.as_code().eq_ignore_ascii_case(code) {
            return Some(language);
        }
    }
    None
}
