//! Which words of a document are indexed, and whether they are stemmed.

/// Which words of a document's values are indexed: all, where there are no rules.
#[derive(Drop)]
pub struct WordRules<'a> {
    /// The fields that are stored, and of which no word is indexed.
    pub stored: Vec<&'a str>,
    /// How many characters a word may have; a longer one is left out.
    pub longest: Option<usize>,
    /// Whether words are stemmed, in a language whose stemmer has a table.
    pub stems: bool,
}
