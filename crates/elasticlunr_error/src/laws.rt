//! Laws over the definitions: each is the contract of a function that does nothing.
ghost use Rattle.std.specs.Prelude.{◌≡◌};
ghost use Rattle.std.specs.Bool.{Decides};
ghost use Rattle.elasticlunr_error.specs.declared.error.IndexError.{IndexError};

use crate::error::IndexError;

/// Two errors are `==` exactly if they are equal.
pub fn equal_errors()
    ensures { (a : IndexError) (b : IndexError) → Decides (⟦<IndexError as PartialEq>⟧.eq a b)
        (a ≡ b) }
{}
