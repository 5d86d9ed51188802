//! The languages with the stemmers of their tables, by their names.
ghost use Rattle.std.specs.Prelude.{◌≡◌};
ghost use Rattle.elasticlunr_stem_tables.specs.declared.language.Language.{Language};

use crate::hungarian_language::Hungarian;
use crate::stemmed::Stemmed;
use elasticlunr_lang::{
    Danish, Dutch, Finnish, French, German, Italian, Norwegian, Portuguese, Romanian, Russian,
    Spanish, Swedish, Turkish,
};
use elasticlunr_stem_stage::Language as Table;

/// Danish with its stemmer.
pub fn danish() -> Stemmed<Danish>
    ensures { result.table ≡ Language.Danish }
{
    Stemmed {
        language: Danish::new(),
        table: Table::Danish,
    }
}

/// Dutch with its stemmer.
pub fn dutch() -> Stemmed<Dutch>
    ensures { result.table ≡ Language.Dutch }
{
    Stemmed {
        language: Dutch::new(),
        table: Table::Dutch,
    }
}

/// Finnish with its stemmer.
pub fn finnish() -> Stemmed<Finnish>
    ensures { result.table ≡ Language.Finnish }
{
    Stemmed {
        language: Finnish::new(),
        table: Table::Finnish,
    }
}

/// French with its stemmer.
pub fn french() -> Stemmed<French>
    ensures { result.table ≡ Language.French }
{
    Stemmed {
        language: French::new(),
        table: Table::French,
    }
}

/// German with its stemmer.
pub fn german() -> Stemmed<German>
    ensures { result.table ≡ Language.German }
{
    Stemmed {
        language: German::new(),
        table: Table::German,
    }
}

/// Hungarian with its stemmer.
pub fn hungarian() -> Stemmed<Hungarian>
    ensures { result.table ≡ Language.Hungarian }
{
    Stemmed {
        language: Hungarian::new(),
        table: Table::Hungarian,
    }
}

/// Italian with its stemmer.
pub fn italian() -> Stemmed<Italian>
    ensures { result.table ≡ Language.Italian }
{
    Stemmed {
        language: Italian::new(),
        table: Table::Italian,
    }
}

/// Norwegian with its stemmer.
pub fn norwegian() -> Stemmed<Norwegian>
    ensures { result.table ≡ Language.Norwegian }
{
    Stemmed {
        language: Norwegian::new(),
        table: Table::Norwegian,
    }
}

/// Portuguese with its stemmer.
pub fn portuguese() -> Stemmed<Portuguese>
    ensures { result.table ≡ Language.Portuguese }
{
    Stemmed {
        language: Portuguese::new(),
        table: Table::Portuguese,
    }
}

/// Romanian with its stemmer.
pub fn romanian() -> Stemmed<Romanian>
    ensures { result.table ≡ Language.Romanian }
{
    Stemmed {
        language: Romanian::new(),
        table: Table::Romanian,
    }
}

/// Russian with its stemmer.
pub fn russian() -> Stemmed<Russian>
    ensures { result.table ≡ Language.Russian }
{
    Stemmed {
        language: Russian::new(),
        table: Table::Russian,
    }
}

/// Spanish with its stemmer.
pub fn spanish() -> Stemmed<Spanish>
    ensures { result.table ≡ Language.Spanish }
{
    Stemmed {
        language: Spanish::new(),
        table: Table::Spanish,
    }
}

/// Swedish with its stemmer.
pub fn swedish() -> Stemmed<Swedish>
    ensures { result.table ≡ Language.Swedish }
{
    Stemmed {
        language: Swedish::new(),
        table: Table::Swedish,
    }
}

/// Turkish with its stemmer.
pub fn turkish() -> Stemmed<Turkish>
    ensures { result.table ≡ Language.Turkish }
{
    Stemmed {
        language: Turkish::new(),
        table: Table::Turkish,
    }
}
