//! A field that is searched.

use elasticlunr_store::{DocumentStore, SearchBool};
use elasticlunr_trie::InvertedIndex;

/// A field that is searched: its name and its trie, the store that has the lengths of its
/// documents' values, how the tokens of a query are joined in it, whether a token matches those
/// that it begins, too, and how much the field counts.
#[derive(Drop)]
pub struct SearchedField<'a> {
    pub name: &'a str,
    pub trie: &'a InvertedIndex,
    pub store: &'a DocumentStore,
    pub join: SearchBool,
    pub expand: bool,
    pub boost: u8,
}
