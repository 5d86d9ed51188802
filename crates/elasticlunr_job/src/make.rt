//! What is made of an index.
ghost use Rattle.std.specs.Prelude.{◌≡◌, ◌⊎◌, Bool, IfOk, IfErr, string_bytes};
ghost use Rattle.elasticlunr.specs.History.{Commands};
ghost use Rattle.elasticlunr.specs.Index.{plan_of, IsFailed, StandsFor};
ghost use Rattle.elasticlunr.specs.Standing.{Plan};
ghost use Rattle.elasticlunr_lang.specs.Known.{language_name};
ghost use Rattle.elasticlunr_job.specs.Answer.{IsPrintedLine, IsReadableLine};

use crate::answer::line_of;
use elasticlunr::lang::AnyLanguage;
use elasticlunr::{Index, IndexError};

/// What makes something of an index: its text, or files. An index stays in the function that filled
/// it, so that function lends it to this.
pub trait Make {
    type Made: Drop;

    /// What is made of an index of this plan that represents these commands, and is printed with a
    /// line for each member or not.
    ghost makes: { Self → Self.Made → Bool → Plan → Commands → Type 0 };

    /// Makes it, once, when the index is filled.
    fn make(&self, index: &Index<AnyLanguage>, pretty: bool) -> Result<Self::Made, IndexError>
        ensures ok { IfOk result (λ made. (commands : Commands)
            → StandsFor language_name name_text index.now commands
            → makes self.now made pretty (plan_of language_name name_text index.now) commands) }
        ensures errors { IfErr result (λ e. (e ≡ IndexError.Failed) ⊎ (e ≡ IndexError.Memory)) };
}

/// Makes the text of an index, and a line feed.
#[derive(Clone, Copy)]
pub struct Line;

impl Make for Line {
    type Made = String;

    ghost makes = { λ _ text. IsPrintedLine (string_bytes text) };

    fn make(&self, index: &Index<AnyLanguage>, pretty: bool) -> Result<String, IndexError> {
        line_of(index, pretty)
    }
}

/// Makes the same text. Its meaning says as well that the text is read as what was printed.
#[derive(Clone, Copy)]
pub(crate) struct ReadableLine;

impl Make for ReadableLine {
    type Made = String;

    ghost makes = { λ _ text. IsReadableLine (string_bytes text) };

    fn make(&self, index: &Index<AnyLanguage>, pretty: bool) -> Result<String, IndexError> {
        line_of(index, pretty)
    }
}
