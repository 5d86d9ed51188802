//! A token of which a beginning has been walked.
ghost use Rattle.std.specs.Prelude.{◌≡◌};
ghost use Rattle.std.specs.Str.{chars};
ghost use Rattle.elasticlunr_trie_nodes.specs.Trie.{Step};
ghost use Rattle.elasticlunr_trie_nodes.specs.Starts.{IsStart, told};

use crate::nodes::Place;

/// A token and its frequency, where a beginning of the token leads, and what follows that.
#[derive(Clone, Copy)]
pub struct WalkedToken<'a> {
    pub token: &'a str,
    pub frequency: u64,
    pub place: Place,
    pub rest: &'a str,
}

impl<'a> WalkedToken<'a> {
    /// The empty beginning, which leads to the root.
    pub fn new(token: &'a str, frequency: u64) -> Self
        ensures start { (step : Step) → IsStart step result }
        ensures told { told result ≡ (chars token.now, frequency) }
    {
        WalkedToken {
            token,
            frequency,
            place: Place::Root,
            rest: token,
        }
    }
}
