//! Copies of texts.
ghost use Rattle.std.specs.Prelude.{◌≡◌, IfOk};
ghost use Rattle.std.specs.List.Sorted.{IsStrictlySortedBy};
ghost use Rattle.elasticlunr_error.specs.Text.{bytes_of, text_cmp};
ghost use Rattle.elasticlunr_trie.specs.References.{texts_in};

use std::alloc::{AllocError, Global};
use std::collections::BTreeSet;

/// Copies of the texts in a set, in the order of their bytes.
pub fn copied(alloc: Global, texts: &BTreeSet<&str>) -> Result<Vec<String>, AllocError>
    ensures texts { IfOk result (λ v. bytes_of v.items ≡ texts_in texts.now) }
    ensures order { IfOk result (λ _. IsStrictlySortedBy text_cmp (texts_in texts.now)) }
{
    let mut copies = Vec::with_capacity(alloc, texts.len())?;
    for text in texts.iter() {
        copies.push(String::from_str(alloc, text)?)?;
    }
    Ok(copies)
}
