//! Filters of stop words, trimmers of classes, and stemmers of tables.
mod class;
mod class_text;
mod ranges;
mod stop_words;
mod table_stemmer;
mod trimmer;
mod word_chars;

pub(crate) use class::Class;
pub use stop_words::StopWordFilter;
pub use table_stemmer::TableStemmer;
pub use trimmer::RegexTrimmer;
