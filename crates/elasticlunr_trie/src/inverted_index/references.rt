//! The references of a token.
ghost use Rattle.std.specs.Prelude.{◌≡◌, ◌↔◌, ◌||◌, IsTrue, IsSome, is_some, IfOk, OnOk, OnErr};
ghost use Rattle.std.specs.Prelude.{IsOkUnless};
ghost use Rattle.std.specs.List.Sorted.{IsStrictlySortedBy};
ghost use Rattle.std.specs.Str.{chars};
ghost use Rattle.elasticlunr_error.specs.Text.{Bytes, bytes_of, is_listed, text_cmp};
ghost use Rattle.elasticlunr_error.specs.declared.error.IndexError.TheVariants.{Memory};
ghost use Rattle.std.specs.FinMap.{entries, get};
ghost use Rattle.elasticlunr_trie_nodes.specs.Names.{AreNames, ArePostings, named_pairs};
ghost use Rattle.elasticlunr_trie_nodes.specs.Table.{posting};
ghost use Rattle.elasticlunr_trie.specs.References.{texts_in};

use super::InvertedIndex;
use crate::texts::copied;
use elasticlunr_error::IndexError;
use elasticlunr_trie_nodes::names::Names;
use elasticlunr_trie_nodes::nodes::find_postings;
use elasticlunr_trie_nodes::postings::Postings;
use std::alloc::AllocError;
use std::collections::BTreeSet;

impl InvertedIndex {
    /// The references that have a posting at a token, each once, in the order of their bytes. The
    /// work is in proportion to the token and its postings.
    pub fn references(&self, token: &str) -> Result<Vec<String>, IndexError>
        ensures order { IfOk result (λ v. IsStrictlySortedBy text_cmp (bytes_of v.items)) }
        ensures listed { IfOk result (λ v. (r : Bytes) → IsTrue (is_listed r (bytes_of v.items))
            ↔ IsSome (posting self.now (chars token.now) r)) }
        ensures memory { IsOkUnless result Memory }
    {
        let alloc = *self.nodes.allocator();
        let mut found = BTreeSet::new(alloc);
        self.put_references(token, &mut found)?;
        let references = copied(alloc, &found)?;
        Ok(references)
    }
}

impl InvertedIndex {
    /// Puts the references that have a posting at a token into a set, which takes no copies of
    /// them. The work is in proportion to the token and its postings, with a look-up in the set for
    /// each. Where memory is refused, some of them may stand there.
    pub fn put_references<'a>(
        &'a self,
        token: &str,
        found: &mut BTreeSet<&'a str>,
    ) -> Result<(), IndexError>
        ensures listed { OnOk result ((r : Bytes) → is_listed r (texts_in found.new)
            ≡ (is_listed r (texts_in found.old) || is_some (posting self.now (chars token.now) r))) }
        ensures keeps { (r : Bytes) → IsTrue (is_listed r (texts_in found.old))
            → IsTrue (is_listed r (texts_in found.new)) }
        ensures err { OnErr result ((r : Bytes) → IsTrue (is_listed r (texts_in found.new))
            → IsTrue (is_listed r (texts_in found.old) || is_some
            (posting self.now (chars token.now) r))) }
        ensures memory { IsOkUnless result Memory }
    {
        match find_postings(&self.root, &self.nodes, token) {
            Some(postings) => Ok(put_names(&self.names, postings, found)?),
            None => Ok(()),
        }
    }
}

// Puts the names of postings into a set.
fn put_names<'a>(
    names: &'a Names,
    postings: &Postings,
    found: &mut BTreeSet<&'a str>,
) -> Result<(), AllocError>
    requires names { AreNames names.now }
    requires postings { ArePostings names.now (entries postings.now) }
    ensures listed { OnOk result ((r : Bytes) → is_listed r (texts_in found.new)
        ≡ (is_listed r (texts_in found.old) || is_some (get (named_pairs names.now
        (entries postings.now)) r))) }
    ensures keeps { (r : Bytes) → IsTrue (is_listed r (texts_in found.old))
        → IsTrue (is_listed r (texts_in found.new)) }
    ensures err { OnErr result ((r : Bytes) → IsTrue (is_listed r (texts_in found.new))
        → IsTrue (is_listed r (texts_in found.old) || is_some
        (get (named_pairs names.now (entries postings.now)) r))) }
{
    for i in 0..postings.len() {
        let (number, _) = postings.at(i);
        found.insert(names.name(number))?;
    }
    Ok(())
}
