//! Languages with the stemmer of a table, and Hungarian.
#![tactic(auto)]

mod hungarian_language;
mod hungarian_stop_words;
mod named;
mod stemmed;

pub use hungarian_language::Hungarian;
pub use named::{
    danish, dutch, finnish, french, german, hungarian, italian, norwegian, portuguese, romanian,
    russian, spanish, swedish, turkish,
};
pub use stemmed::Stemmed;
