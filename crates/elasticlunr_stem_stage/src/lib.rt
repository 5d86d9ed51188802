//! Stemmers of fourteen languages besides English, and pipelines that end in one.
#![tactic(auto)]

mod read;
mod stemmed;

pub use elasticlunr_stem_tables::{Language, Version};
pub use elasticlunr_stems::TableError;
pub use read::read_stemmer;
pub use stemmed::{language_pipeline, table_stemmer, with_table};
