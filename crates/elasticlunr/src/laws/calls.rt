//! Laws of the calls of an index: equal calls leave equal commands, and print equal texts.
ghost use Rattle.std.specs.Prelude.{List};
ghost use Rattle.elasticlunr_text.specs.Text.{Bytes};
ghost use Rattle.elasticlunr_lang.specs.declared.any.AnyLanguage.{AnyLanguage};
ghost use Rattle.elasticlunr.specs.Calls.{CommandsOnly, HasOneDocument, HasOneReading, MakesOnly};
ghost use Rattle.elasticlunr.specs.Calls.{SameCommands};
ghost use Rattle.elasticlunr.specs.Current.{SameTexts};
ghost use Rattle.elasticlunr.specs.Index.{IsDocument, IsDocumentBy, plan_of, reads_of, ReadsAs};
ghost use Rattle.elasticlunr.specs.Index.{SameSettings};
ghost use Rattle.elasticlunr.specs.Kept.{IsKeptDocument, KeptReads};
ghost use Rattle.elasticlunr.specs.ReadDocuments.{MadeAreRead};
ghost use Rattle.elasticlunr.specs.Reading.{LanguageReads};
ghost use Rattle.elasticlunr_commands.specs.Standing.{Plan};

use crate::index::Index;
use elasticlunr_lang::Language;
use elasticlunr_print::laws::values::settings_and_commands_have_one_value;
use elasticlunr_text::laws::{a_run_has_one_answer, each_word_has_one_stem};

/// Of a value for a field an index reads one list of tokens, and of a reference and values it makes
/// one document.
pub fn an_index_makes_one_document<L: Language>(index: &Index<L>)
    ensures reading { HasOneReading (reads_of L.tokens_of leaves index.now) }
    ensures document { HasOneDocument (IsDocument L.tokens_of leaves index.now) }
{
    a_run_has_one_answer(&index.settings.pipeline);
}

/// So does a built-in language.
pub fn a_kept_language_makes_one_document()
    ensures reading { (language : AnyLanguage) → HasOneReading (KeptReads language) }
    ensures document { (language : AnyLanguage) (fields : List Bytes) (reference_field : Bytes)
        → HasOneDocument (IsKeptDocument language fields reference_field) }
{
    each_word_has_one_stem();
}

/// An index that reads only what a language reads makes only documents, and so commands, that are
/// made by the language.
pub fn an_index_makes_what_its_language_makes<L: Language>(index: &Index<L>)
    ensures documents { (lang : L) → ReadsAs L.tokens_of leaves L.leaves_of index.now lang
        → MakesOnly
        (IsDocument L.tokens_of leaves index.now) (IsDocumentBy L.tokens_of L.leaves_of index.now lang) }
    ensures commands { (lang : L) → ReadsAs L.tokens_of leaves L.leaves_of index.now lang
        → CommandsOnly
        (IsDocument L.tokens_of leaves index.now) (IsDocumentBy L.tokens_of L.leaves_of index.now lang) }
{}

/// Two indexes with equal settings make equal documents. Equal calls of both are equal commands,
/// and the texts that both print after them are equal.
pub fn equal_settings_print_equal_texts<L: Language>(index: &Index<L>, other: &Index<L>)
    ensures documents { SameSettings index.now other.now
        → MakesOnly (IsDocument L.tokens_of leaves other.now)
        (IsDocument L.tokens_of leaves index.now) }
    ensures commands { SameSettings index.now other.now
        → SameCommands (IsDocument L.tokens_of leaves index.now)
        (IsDocument L.tokens_of leaves other.now) }
    ensures texts { SameSettings index.now other.now
        → SameTexts (IsDocument L.tokens_of leaves index.now)
        (IsDocument L.tokens_of leaves other.now)
        (plan_of L.name_of name_text index.now) (plan_of L.name_of name_text other.now) }
{
    an_index_makes_one_document(index);
    settings_and_commands_have_one_value();
}

/// Equal calls whose documents a built-in language makes are equal commands, and the texts that
/// indexes of one plan print after them are equal.
pub fn kept_languages_print_equal_texts()
    ensures commands { (language : AnyLanguage) (fields : List Bytes) (reference_field : Bytes)
        → let makes = IsKeptDocument language fields reference_field in SameCommands makes makes }
    ensures texts { (language : AnyLanguage) (plan : Plan)
        → let makes = IsKeptDocument language plan.fields plan.reference_field in SameTexts makes
        makes plan plan }
{
    a_kept_language_makes_one_document();
    settings_and_commands_have_one_value();
}

/// A language read the documents of calls that it makes the documents of.
pub fn documents_of_calls_are_read<L: Language>()
    ensures { (language : L) → MadeAreRead
        (LanguageReads (L.tokens_of language) (L.leaves_of language)) }
{}
