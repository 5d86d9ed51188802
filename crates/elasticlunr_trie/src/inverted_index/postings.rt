//! The postings of a token, with nothing copied.
ghost use Rattle.std.specs.Prelude.{◌≡◌, IfOk};
ghost use Rattle.std.specs.Str.{chars};
ghost use Rattle.std.specs.FinMap.{entries};
ghost use Rattle.elasticlunr_trie_nodes.specs.Names.{AreNames, ArePostings, named_pairs};
ghost use Rattle.elasticlunr_trie_nodes.specs.Table.{postings};
ghost use Rattle.elasticlunr_trie.specs.Tokens.{told_postings};

use super::InvertedIndex;
use elasticlunr_trie_nodes::names::Names;
use elasticlunr_trie_nodes::nodes::find_postings;
use elasticlunr_trie_nodes::postings::Postings;
use std::alloc::{AllocError, Global};

impl InvertedIndex {
    /// The references that have a posting at a token, each once and with its frequency, in the
    /// order of their bytes. There are none where the token is unknown. An index sets frequencies
    /// in millionths.
    ///
    /// No name is copied. A step for each character of the token, and a sort of its postings by
    /// their names; each takes 24 bytes.
    pub fn postings<'a>(
        &'a self,
        alloc: Global,
        token: &str,
    ) -> Result<Vec<(&'a str, u64)>, AllocError>
        ensures { IfOk result (λ v. told_postings v.items
            ≡ entries (postings self.now (chars token.now))) }
    {
        match find_postings(&self.root, &self.nodes, token) {
            Some(postings) => in_name_order(alloc, &self.names, postings),
            None => Ok(Vec::new(alloc)),
        }
    }
}

// Postings under their names, in the order of these. No name comes twice, so frequencies decide
// nothing.
fn in_name_order<'a>(
    alloc: Global,
    names: &'a Names,
    postings: &Postings,
) -> Result<Vec<(&'a str, u64)>, AllocError>
    requires names { AreNames names.now }
    requires postings { ArePostings names.now (entries postings.now) }
    ensures { IfOk result (λ v. told_postings v.items ≡ entries (named_pairs names.now
        (entries postings.now))) }
{
    let count = postings.len();
    let mut named = Vec::with_capacity(alloc, count)?;
    for i in 0..count {
        let (number, frequency) = postings.at(i);
        named.push((names.name(number), frequency))?;
    }
    named.sort_unstable();
    Ok(named)
}
