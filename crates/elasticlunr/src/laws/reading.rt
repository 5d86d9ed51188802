//! Laws of what a language reads.
ghost use Rattle.std.specs.Prelude.{◌≡◌, ℕ, List, String};
ghost use Rattle.std.specs.Str.{chars};
ghost use Rattle.std.specs.declared.alloc.Global.{Global};
ghost use Rattle.elasticlunr_text.specs.Stages.{IsRunBy, LeavesBy};
ghost use Rattle.elasticlunr_text.specs.Text.{Text, Bytes, texts_of};
ghost use Rattle.elasticlunr.specs.Reading.{LanguageReads};

use elasticlunr_lang::Language;
use elasticlunr_text::laws::a_run_has_one_answer;
use elasticlunr_text::pipeline::Pipeline;

/// The output of a language's pipeline for the language's tokens of a text is what the language
/// reads of it, and the language reads nothing else.
pub fn a_language_reads_what_its_pipeline_leaves<L: Language>(language: &L, pipeline: &Pipeline)
    ensures reads { (i : ℕ) (text : Bytes) (made : List (String Global)) (left : List Text)
        → LeavesBy leaves pipeline.now (L.leaves_of language.now)
        → texts_of made ≡ L.tokens_of language.now (chars text)
        → IsRunBy leaves pipeline.now (texts_of made) left
        → LanguageReads (L.tokens_of language.now) (L.leaves_of language.now) i text left }
    ensures only { (i : ℕ) (text : Bytes) (made : List (String Global)) (left : List Text)
        (others : List Text)
        → LeavesBy leaves pipeline.now (L.leaves_of language.now)
        → texts_of made ≡ L.tokens_of language.now (chars text)
        → IsRunBy leaves pipeline.now (texts_of made) left
        → LanguageReads (L.tokens_of language.now) (L.leaves_of language.now) i text others
        → others ≡ left }
{
    a_run_has_one_answer(pipeline);
}
