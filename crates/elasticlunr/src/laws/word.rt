//! The law of an index of one word.
ghost use Rattle.std.specs.Prelude.{◌≢◌, [], List};
ghost use Rattle.elasticlunr_text.specs.Text.{Text, Bytes};
ghost use Rattle.elasticlunr_lang.specs.declared.any.AnyLanguage.{AnyLanguage};
ghost use Rattle.elasticlunr.specs.Kept.{ReadsOneToken};
ghost use Rattle.elasticlunr.specs.Word.{one_field_plan, PrintsPath};

use elasticlunr_trie::laws::one_value_a_table;

/// An index of one document, in whose one field the language reads one token, prints this value: a
/// path of the token's characters, and at its end the root of 1 for the reference.
pub fn one_word_is_a_path()
    ensures { (language : AnyLanguage) (name : Bytes) (stages : List Bytes)
        (reference_field field reference value : Bytes) (token : Text)
        → field ≢ reference_field → token ≢ [] → ReadsOneToken language value token
        → PrintsPath language (one_field_plan name stages reference_field field) field reference
        value token }
{
    one_value_a_table();
}
