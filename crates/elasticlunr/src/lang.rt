//! Languages, and the functions that their pipelines are made of.
pub use elasticlunr_lang::{
    AnyLanguage, Arabic, Danish, Dutch, English, Finnish, French, German, Italian, Korean,
    Language, Norwegian, Portuguese, Romanian, Russian, Spanish, Swedish, Turkish, from_code,
    from_name, languages, lower_char, run_on_words, tokenize_whitespace,
};
pub use elasticlunr_text::lang::{ar, common, en};
