//! What is made of the index of an input.
ghost use Rattle.std.specs.Prelude.{◌≡◌, ◌⊎◌, IfErr, IfOk};
ghost use Rattle.elasticlunr.specs.History.{Commands};
ghost use Rattle.elasticlunr.specs.Index.{plan_of, StandsFor};
ghost use Rattle.elasticlunr.specs.Standing.{Plan};
ghost use Rattle.elasticlunr_c_calls.specs.Languages.{name_in};

use crate::language::InputLanguage;
use elasticlunr::{Index, IndexError};
use std::alloc::Global;

/// What makes something of an index: its text, or its head and its pieces. An index stays in the
/// function that filled it, so that function lends it to this.
pub(crate) trait Make {
    type Made: Drop;

    /// What is made of an index of this plan that represents these commands.
    ghost makes: { Self → Self.Made → Plan → Commands → Type 0 };

    /// Makes it, once, when the index is filled.
    fn make(&self, alloc: Global, index: &Index<InputLanguage>) -> Result<Self::Made, IndexError>
        ensures ok { IfOk result (λ made. (commands : Commands)
            → StandsFor name_in name_text index.now commands
            → makes self.now made (plan_of name_in name_text index.now) commands) }
        ensures errors { IfErr result (λ e. (e ≡ IndexError.Failed) ⊎ (e ≡ IndexError.Memory)) };
}

/// Makes the compact text of an index.
#[derive(Clone, Copy)]
pub(crate) struct CompactText;

impl Make for CompactText {
    ghost use Rattle.std.specs.Prelude.{string_bytes};
    ghost use Rattle.elasticlunr_c_calls.specs.Indexes.{IsTextOfIndex};

    type Made = String;

    ghost makes = { λ _ text. IsTextOfIndex (string_bytes text) };

    fn make(&self, _alloc: Global, index: &Index<InputLanguage>) -> Result<String, IndexError> {
        index.to_json()
    }
}
