//! English: the trimmer, the stemmer and the tests that the stemmer makes.
mod blocks;
mod endings;
mod stemmer;
mod steps;
mod tables;
mod trim;

pub use self::blocks::{has_vowel, is_short, m_above_0, m_above_1, m_is_1};
pub use self::stemmer::Stemmer;
pub use self::trim::trimmer;
