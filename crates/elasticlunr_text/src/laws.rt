//! Laws over the definitions: each is the contract of a function that does nothing.
ghost use Rattle.std.specs.Prelude.{◌≡◌, ◌≢◌, ◌↔◌, ◌++◌, ℕ, Bool, List, [], Option, Some};
ghost use Rattle.elasticlunr_text.specs.Text.{Text};
ghost use Rattle.elasticlunr_text.specs.Trimmed.{IsTrimmed, trimmed};
ghost use Rattle.elasticlunr_text.specs.Trimmers.{keeps, cut_to_class};
ghost use Rattle.elasticlunr_text.specs.Stages.{MayLeaveAll, IsRun};
ghost use Rattle.elasticlunr_text.specs.Stems.{Stem};
ghost use Rattle.elasticlunr_text.specs.declared.lang.common.trimmer.RegexTrimmer.{RegexTrimmer};

use crate::pipeline::Pipeline;

/// Each text is cut in exactly one way.
pub fn trimming_has_one_answer()
    ensures { (class : ℕ → Bool) (t u : Text) → IsTrimmed class t u ↔ (u ≡ trimmed class t) }
{}

/// What a trimmer leaves begins and ends with characters of its class, and what was cut holds none.
pub fn a_trimmer_cuts_what_is_not_of_its_class()
    ensures { (trimmer : RegexTrimmer) (token left : Text) → cut_to_class trimmer token ≡ Some left
        → IsTrimmed (keeps trimmer) token left × (left ≢ []) }
{}

/// Each word has exactly one stem.
pub fn each_word_has_one_stem()
    ensures { (w : Text) → (v : Text) × Stem w v × ((u : Text) → Stem w u → u ≡ v) }
{}

/// A run of two lists of tokens, one after the other, is the one run followed by the other.
pub fn a_run_of_two_lists(pipeline: &Pipeline)
    ensures parts { (tokens more texts : List Text) → IsRun leaves pipeline.now (tokens ++ more)
        texts
        → (one : List Text) × (other : List Text) × (texts ≡ one ++ other)
        × IsRun leaves pipeline.now tokens one × IsRun leaves pipeline.now more other }
    ensures both { (tokens more one other : List Text) → IsRun leaves pipeline.now tokens one
        → IsRun leaves pipeline.now more other → IsRun leaves pipeline.now (tokens ++ more)
        (one ++ other) }
{}

/// A run of one list of tokens leaves one list of texts.
pub fn a_run_has_one_answer(pipeline: &Pipeline)
    ensures { (tokens texts others : List Text) → IsRun leaves pipeline.now tokens texts
        → IsRun leaves pipeline.now tokens others → texts ≡ others }
{}

/// The stages of a pipeline leave one answer of a token.
pub fn a_token_has_one_answer(pipeline: &Pipeline)
    ensures { (token : Text) (left other : Option Text)
        → MayLeaveAll leaves pipeline.now.queue.items token left
        → MayLeaveAll leaves pipeline.now.queue.items token other → left ≡ other }
{}
