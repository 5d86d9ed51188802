//! The languages with a table.
ghost use Rattle.std.specs.Prelude.{◌≡◌};
ghost use Rattle.elasticlunr_stem_tables.specs.Languages.{language_code, current_table};
ghost use Rattle.elasticlunr_stem_tables.specs.Languages.{older_table};
ghost use Rattle.elasticlunr_stem_tables.specs.Languages.{table_text};

use crate::tables::{da, de, du, es, fi, fr, hu, it, no, pt, ro, ru, sv, tr};

/// The languages with a stemmer, besides English and Arabic.
#[derive(Clone, Copy, Debug, PartialEq, Eq)]
pub enum Language {
    Danish,
    Dutch,
    Finnish,
    French,
    German,
    Hungarian,
    Italian,
    Norwegian,
    Portuguese,
    Romanian,
    Russian,
    Spanish,
    Swedish,
    Turkish,
}

/// Which Snowball a table gives the stems of.
#[derive(Clone, Copy, Debug, PartialEq, Eq)]
pub enum Version {
    /// Snowball 2.2.
    Current,
    /// The Snowball before 2.0, as the original's crate of stemmers has it.
    Older,
}

impl Language {
    /// All of them, by their names.
    pub const ALL: [Language; 14] = [
        Language::Danish,
        Language::Dutch,
        Language::Finnish,
        Language::French,
        Language::German,
        Language::Hungarian,
        Language::Italian,
        Language::Norwegian,
        Language::Portuguese,
        Language::Romanian,
        Language::Russian,
        Language::Spanish,
        Language::Swedish,
        Language::Turkish,
    ];

    /// The code, two letters: "du" is Dutch.
    pub fn code(self) -> &'static str
        ensures { result.now ≡ language_code self }
    {
        match self {
            Language::Danish => "da",
            Language::Dutch => "du",
            Language::Finnish => "fi",
            Language::French => "fr",
            Language::German => "de",
            Language::Hungarian => "hu",
            Language::Italian => "it",
            Language::Norwegian => "no",
            Language::Portuguese => "pt",
            Language::Romanian => "ro",
            Language::Russian => "ru",
            Language::Spanish => "es",
            Language::Swedish => "sv",
            Language::Turkish => "tr",
        }
    }

    /// The table of the stemmer.
    pub fn table(self, version: Version) -> &'static str
        ensures { result.now ≡ table_text version self }
    {
        match version {
            Version::Current => self.current(),
            Version::Older => self.older(),
        }
    }

    #[tactic(auto, unfolding(crate::specs::Languages::danish_table, crate::specs::Languages::dutch_table, crate::specs::Languages::finnish_table, crate::specs::Languages::french_table, crate::specs::Languages::german_table, crate::specs::Languages::hungarian_table, crate::specs::Languages::italian_table, crate::specs::Languages::norwegian_table, crate::specs::Languages::portuguese_table, crate::specs::Languages::romanian_table, crate::specs::Languages::russian_table, crate::specs::Languages::spanish_table, crate::specs::Languages::swedish_table, crate::specs::Languages::turkish_table,))]
    fn current(self) -> &'static str
        ensures { result.now ≡ current_table self }
    {
        match self {
            Language::Danish => da::TABLE,
            Language::Dutch => du::TABLE,
            Language::Finnish => fi::TABLE,
            Language::French => fr::TABLE,
            Language::German => de::TABLE,
            Language::Hungarian => hu::TABLE,
            Language::Italian => it::TABLE,
            Language::Norwegian => no::TABLE,
            Language::Portuguese => pt::TABLE,
            Language::Romanian => ro::TABLE,
            Language::Russian => ru::TABLE,
            Language::Spanish => es::TABLE,
            Language::Swedish => sv::TABLE,
            Language::Turkish => tr::TABLE,
        }
    }

    #[tactic(auto, unfolding(crate::specs::Languages::older_danish_table, crate::specs::Languages::older_finnish_table, crate::specs::Languages::older_french_table, crate::specs::Languages::older_portuguese_table, crate::specs::Languages::older_russian_table,))]
    fn older(self) -> &'static str
        ensures { result.now ≡ older_table self }
    {
        match self {
            Language::Danish => da::OLDER,
            Language::Finnish => fi::OLDER,
            Language::French => fr::OLDER,
            Language::Portuguese => pt::OLDER,
            Language::Russian => ru::OLDER,
            _ => self.current(),
        }
    }
}
