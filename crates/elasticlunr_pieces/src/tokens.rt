//! The tokens of all tries.
ghost use Rattle.std.specs.Prelude.{◌≡◌, IfOk};
ghost use Rattle.elasticlunr_error.specs.Text.{bytes_of};
ghost use Rattle.elasticlunr_pieces.specs.Entries.{AreTokens};

use elasticlunr_trie::inverted_index::InvertedIndex;
use std::alloc::{AllocError, Global};

/// The tokens that have a posting in one of the tries, each once, in the order of their bytes.
///
/// Those of each trie come in order, so the sort only merges them.
pub fn tokens_of(alloc: Global, tries: &[InvertedIndex]) -> Result<Vec<String>, AllocError>
    ensures { IfOk result (λ tokens. AreTokens tries.now (bytes_of tokens.items)) }
{
    let mut all = Vec::new(alloc);
    for trie in tries {
        let mut tokens = trie.tokens(alloc, "")?;
        all.append(&mut tokens)?;
    }
    all.sort()?;
    all.dedup();
    Ok(all)
}
