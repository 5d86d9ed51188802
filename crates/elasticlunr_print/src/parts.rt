//! What is printed of an index.
ghost use Rattle.std.specs.Prelude.{◌≡◌, map, length, string_bytes, IsTrue};
ghost use Rattle.elasticlunr_commands.specs.Fields.{all_differ};

use elasticlunr_store::DocumentStore;
use elasticlunr_trie::InvertedIndex;

/// The version of elasticlunr.js whose form the printed indexes have.
pub const ELASTICLUNR_VERSION: &str = "0.9.5";

/// What is printed of an index: a trie for each field, in the order of the fields, and their names.
#[derive(Clone, Copy)]
pub struct Parts<'a> {
    pub fields: &'a [String],
    pub ref_field: &'a str,
    pub language: &'a str,
    pub stages: &'a [String],
    pub tries: &'a [InvertedIndex],
    pub store: &'a DocumentStore,
    ghost one_each: { length tries.now ≡ length fields.now },
    ghost distinct: { IsTrue (all_differ (map string_bytes fields.now)) },
}
