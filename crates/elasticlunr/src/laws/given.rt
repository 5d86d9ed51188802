//! Laws of values that come with tokens.
ghost use Rattle.std.specs.Prelude.{◌≡◌, ◌↔◌, List, All};
ghost use Rattle.elasticlunr_text.specs.Stages.{LeavesBy};
ghost use Rattle.elasticlunr_text.specs.Text.{Bytes};
ghost use Rattle.elasticlunr.specs.GivenTokens.{value_texts};
ghost use Rattle.elasticlunr.specs.Index.{choices_of, IsDocument, IsDocumentWithTokens};
ghost use Rattle.elasticlunr.specs.Index.{IsDocumentWithTokensBy, ReadsAs};
ghost use Rattle.elasticlunr.specs.declared.values.FieldValue.{FieldValue};
ghost use Rattle.elasticlunr.specs.declared.values.TokenSource.TheVariants.{FromText};
ghost use Rattle.elasticlunr_commands.specs.History.{Document};

use crate::index::Index;
use elasticlunr_lang::Language;

/// Of values without tokens of their own an index makes the documents that it makes of their texts.
pub fn values_without_tokens_make_the_same_documents<L: Language>(index: &Index<L>)
    ensures { (reference : Bytes) (values : List FieldValue) (document : Document)
        → All (λ value. value.tokens ≡ FromText) values
        → IsDocumentWithTokens L.tokens_of leaves index.now reference values document
        ↔ IsDocument L.tokens_of leaves index.now reference (value_texts values) document }
{}

/// An index that reads what a language reads, and whose pipeline makes what the language makes,
/// makes of values with tokens only the documents that the language makes of them.
pub fn values_with_tokens_make_what_a_language_makes<L: Language>(index: &Index<L>)
    ensures { (lang : L) (reference : Bytes) (values : List FieldValue) (document : Document)
        → ReadsAs L.tokens_of leaves L.leaves_of index.now lang
        → LeavesBy leaves (choices_of index.now).pipeline (L.leaves_of lang)
        → IsDocumentWithTokens L.tokens_of leaves index.now reference values document
        → IsDocumentWithTokensBy L.tokens_of L.leaves_of index.now lang reference values document }
{}
