//! Tries of tokens, each with the frequency of each reference that has it.
ghost use Rattle.std.specs.FinMap.{get as get_postings, len};
ghost use Rattle.std.specs.Prelude.{◌≡◌, ◌↔◌, [], None, IsTrue, IfOk, IfErr, IsOk, OnOk, OnErr};
ghost use Rattle.std.specs.Prelude.{IsOkUnless, false, unwrap_or, is_some, ◌≢◌};
ghost use Rattle.std.specs.Str.{chars};
ghost use Rattle.elasticlunr_error.specs.Text.{Text, Bytes};
ghost use Rattle.elasticlunr_trie_nodes.specs.Table.{Table, new_table, knows, posting, postings};
ghost use Rattle.elasticlunr_trie_nodes.specs.Table.{IsTable, AddsToken, RemovesToken, AreChanged};
ghost use Rattle.elasticlunr_trie_nodes.specs.Table.{additions, told_tokens, same_tables};
ghost use Rattle.elasticlunr_trie_nodes.specs.Copied.{copied_postings};
ghost use Rattle.serde_json.specs.View.{view};
ghost use Rattle.elasticlunr_json.specs.Refused.{IsRefused};
ghost use Rattle.elasticlunr_error.specs.declared.error.IndexError.TheVariants.{Memory};
ghost use Rattle.serde_json.specs.Written.{has_float};
ghost use Rattle.elasticlunr_trie.specs.Begun.{AreBegun};
ghost use Rattle.elasticlunr_trie.specs.Tree.{IsTrieValue};

mod add;
mod compact;
mod ends;
mod postings;
mod read;
mod references;
mod remove;
mod room;
mod same;
mod starts;
mod tokens;
mod value;
mod write;

use add::add_posting;
use elasticlunr_error::IndexError;
use elasticlunr_json::set_member;
use elasticlunr_trie_nodes::child::Child;
use elasticlunr_trie_nodes::docs::copy_docs;
use elasticlunr_trie_nodes::names::Names;
use elasticlunr_trie_nodes::nodes::{Node, Place, Reference, find, find_frequency, find_postings};
use elasticlunr_trie_nodes::start::WalkedToken;
use ends::TokenCache;
use read::{only_member, read_nodes};
use remove::{remove_posting, remove_postings};
use same::same_below;
use serde_json::{Map, Value};
use starts::{add_walked, walked_tokens};
use std::alloc::Global;
use std::collections::BTreeMap;
use std::marker::Model;
use std::{fmt, mem};
use value::tree_value;

/// The tokens of a field, each with the references of the documents that have it, and how often
/// they do.
///
/// It represents a table: the known texts, among them the empty one and each beginning of a known
/// one, and for some pairs of a known token and a reference a frequency. Known texts stay known
/// when their postings go, until the trie is compacted.
///
/// The nodes stand in one vector, and name their children by number. Each is the child of exactly
/// one: of the root, or of a node of a lower number. So a trie is dropped without recursion. At
/// each character of a text up to 16 children are scanned from the first, and more of them are
/// searched by binary search. A reference has a number, under which its postings stand; its name is
/// kept once. A name may stay when its postings go, until the trie is compacted; no call shows it.
///
/// A node takes 32 bytes, and more where it has several children or several postings. A token of up
/// to 27 bytes that `add_tokens` is given when it is known already, for the second time or as the
/// beginning of another one, is remembered with its node, if a slot is free for it: a slot takes 32
/// bytes, and at most three of four are taken. Where memory for more slots is refused, the token
/// isn't remembered. There are numbers for 2^43 nodes, more than memory has room for: a call that
/// would make more of them fails as where memory is refused.
#[derive(Drop)]
pub struct InvertedIndex {
    root: Vec<Child>,
    nodes: Vec<Node>,
    names: Names,
    references: Vec<Reference>,
    // where tokens lead that `add_tokens` was given when they were known already
    ends: TokenCache,
}

impl Model for InvertedIndex {
    ghost use Rattle.std.specs.FinMap as map;
    ghost use Rattle.std.specs.Coded.{coded_ℕ, coded_list};
    ghost use Rattle.elasticlunr_trie_nodes.specs.Table.{Table};

    ghost Value = { Table };

    ghost coded = { map.code (coded_list coded_ℕ) (map.code (coded_list coded_ℕ) coded_ℕ) };

    ghost use Rattle.elasticlunr_trie_nodes.specs.Trie.{table_of, step_of, IsIndex};
    ghost use Rattle.elasticlunr_trie.specs.TokenCache.{AreEnds};

    ghost view = { λ a. table_of a.root.items a.nodes.items a.names };

    ghost invariant = { λ a. IsIndex a.root.items a.nodes.items a.names a.references.items
        × AreEnds (step_of a.root.items a.nodes.items) a.ends };
}

impl InvertedIndex {
    /// A trie that knows the empty text alone. It does not allocate; later calls take it from this
    /// allocator.
    pub fn new(alloc: Global) -> Self
        ensures new { result ≡ new_table }
        ensures table { IsTable result }
    {
        InvertedIndex {
            root: Vec::new(alloc),
            nodes: Vec::new(alloc),
            names: Names::new(alloc),
            references: Vec::new(alloc),
            ends: TokenCache::new(alloc),
        }
    }

    /// Sets the posting of a token, which makes its beginnings known. The empty token changes
    /// nothing.
    ///
    /// Where memory is refused, the table stays as it was. What changes then is shown by no call:
    /// the reference may have a number, or a node in its list, without a posting, and the tokens
    /// that `add_tokens` remembered are forgotten. The token is walked, and not remembered. The
    /// work is in proportion to the token; the reference is looked up among all names unless it is
    /// the one that was entered last, and by binary search among the postings of the token unless
    /// it is newer than all of them.
    pub fn add_token(
        &mut self,
        doc_ref: &str,
        token: &str,
        term_freq: u64,
    ) -> Result<(), IndexError>
        ensures ok { OnOk result (chars token.now ≢ []
            → AddsToken self.old self.new (chars token.now) doc_ref.now term_freq) }
        ensures empty_token { chars token.now ≡ [] → IsOk result × (self.new ≡ self.old) }
        ensures memory { IsOkUnless result Memory }
        ensures err { OnErr result (self.new ≡ self.old) }
    {
        if token.is_empty() {
            return Ok(());
        }
        let alloc = *self.nodes.allocator();
        let ends = mem::replace(&mut self.ends, TokenCache::new(alloc));
        add_posting(
            alloc,
            &mut self.root,
            &mut self.nodes,
            &mut self.names,
            &mut self.references,
            doc_ref,
            WalkedToken::new(token, term_freq),
        )?;
        self.ends = ends;
        Ok(())
    }

    /// Sets the postings of several tokens, one after the other. An empty token changes nothing.
    ///
    /// A token that is remembered is at its end by one look-up. The others are walked side by side:
    /// while one walk waits for memory, the others go on, so that in a large trie this takes less
    /// time than a call for each; and the reference gets room for all of them at once. Those that
    /// are known are remembered; where memory for that is refused, the call goes on without it.
    ///
    /// Where memory is refused otherwise, the postings of some tokens may be set, from the first
    /// on, and no others have changed. What else changes then is shown by no call: the reference
    /// may have a number, or a node in its list, without a posting, and the tokens that were
    /// remembered may be forgotten, so that they are walked again.
    pub fn add_tokens(&mut self, doc_ref: &str, tokens: &[(&str, u64)]) -> Result<(), IndexError>
        ensures ok { OnOk result (AreChanged (additions doc_ref.now (told_tokens tokens.now))
            self.old self.new) }
        ensures memory { IsOkUnless result Memory }
        ensures err { OnErr result (AreBegun (additions doc_ref.now (told_tokens tokens.now))
            self.old self.new) }
    {
        let alloc = *self.nodes.allocator();
        let starts = walked_tokens(alloc, &self.root, &self.nodes, &mut self.ends, tokens)?;
        let ends = mem::replace(&mut self.ends, TokenCache::new(alloc));
        add_walked(
            alloc,
            &mut self.root,
            &mut self.nodes,
            &mut self.names,
            &mut self.references,
            doc_ref,
            &starts,
        )?;
        self.ends = ends;
        Ok(())
    }

    /// Takes every posting of a reference away. The known texts stay. It visits the nodes where the
    /// reference has or had a posting, and no others; an unknown reference is looked up and costs
    /// no more. Does not allocate.
    pub fn remove_doc(&mut self, doc_ref: &str)
        ensures known { (t : Text) → knows self.new t ≡ knows self.old t }
        ensures gone { (t : Text) → posting self.new t doc_ref.now ≡ None }
        ensures others { (t : Text) (r : Bytes) → r ≢ doc_ref.now → posting self.new t r
            ≡ posting self.old t r }
    {
        let alloc = *self.nodes.allocator();
        remove_postings(
            alloc,
            &self.names,
            &mut self.references,
            &mut self.nodes,
            doc_ref,
        );
    }

    /// Takes a posting away if it is there. The known texts stay. The work is in proportion to the
    /// token and to the postings of the reference. Does not allocate.
    pub fn remove_token(&mut self, doc_ref: &str, token: &str)
        ensures { RemovesToken self.old self.new (chars token.now) doc_ref.now }
    {
        remove_posting(
            &self.root,
            &self.names,
            &mut self.references,
            &mut self.nodes,
            doc_ref,
            token,
        );
    }

    /// A copy of the postings of a token, `None` where it is unknown. The work is in proportion to
    /// the token and its postings.
    pub fn get_docs(&self, token: &str) -> Result<Option<BTreeMap<String, u64>>, IndexError>
        ensures ok { IfOk result (λ docs. copied_postings docs
            ≡ get_postings self.now (chars token.now)) }
        ensures memory { IsOkUnless result Memory }
    {
        let alloc = *self.nodes.allocator();
        let docs = copy_docs(alloc, &self.root, &self.nodes, &self.names, token)?;
        Ok(docs)
    }

    /// The frequency of a reference at a token, 0 where it has no posting. A step for each
    /// character of the token, and a look-up of the reference; does not allocate.
    pub fn get_term_frequency(&self, doc_ref: &str, token: &str) -> u64
        ensures { result ≡ unwrap_or (posting self.now (chars token.now) doc_ref.now) 0 }
    {
        find_frequency(&self.root, &self.nodes, &self.names, token, doc_ref).unwrap_or(0)
    }

    /// Has a reference a posting at a token? A step for each character of the token, and a look-up
    /// of the reference; does not allocate.
    pub fn has_posting(&self, doc_ref: &str, token: &str) -> bool
        ensures { result ≡ is_some (posting self.now (chars token.now) doc_ref.now) }
    {
        find_frequency(&self.root, &self.nodes, &self.names, token, doc_ref).is_some()
    }

    /// How many references have a posting at a token. A step for each character of the token; does
    /// not allocate.
    pub fn get_doc_frequency(&self, token: &str) -> u64
        ensures { result ≡ len (postings self.now (chars token.now)) }
    {
        match find_postings(&self.root, &self.nodes, token) {
            Some(postings) => postings.len() as u64,
            None => 0,
        }
    }

    /// The JSON value of the trie: an object with the key `root`, under which each node has `docs`,
    /// `df` and a key for each of its children's characters.
    ///
    /// It takes more than a thousand bytes a posting: to print, use `write`. A value is dropped by
    /// the machine's stack, a step for each character of a token: 8 MB are enough for tokens of
    /// 20,000 characters.
    pub fn to_value(&self) -> Result<Value, IndexError>
        ensures tree { IfOk result (λ v. IsTrieValue self.now (view v)) }
        ensures table { IsTable self.now }
        ensures only { IfOk result (λ v. (U : Table) → IsTable U → IsTrieValue U (view v) → U
            ≡ self.now) }
        ensures whole { IfOk result (λ v. has_float (view v) ≡ false) }
        ensures memory { IsOkUnless result Memory }
    {
        let alloc = *self.nodes.allocator();
        let root = tree_value(alloc, &self.root, &self.nodes, &self.names)?;
        let mut members = Map::new(alloc);
        set_member(alloc, &mut members, "root", root)?;
        Ok(Value::Object(members))
    }

    /// The trie whose JSON value this is. Refuses other keys, missing ones, a `df` that is not the
    /// number of references, and a root with postings.
    ///
    /// The value may nest as deep as it likes.
    pub fn from_value(alloc: Global, value: &Value) -> Result<Self, IndexError>
        ensures ok { IfOk result (λ t. IsTrieValue t (view value.now)) }
        ensures table { IfOk result (λ t. IsTable t) }
        ensures foreign { IfErr result (IsRefused ((T : Table) → IsTable T
            → ¬ (IsTrieValue T (view value.now)))) }
    {
        let Some(root) = only_member(value, "root") else {
            return Err(IndexError::ForeignValue);
        };
        let mut names = Names::new(alloc);
        let mut references = Vec::new(alloc);
        let (root, nodes) = read_nodes(alloc, root, &mut names, &mut references)?;
        Ok(InvertedIndex {
            root,
            nodes,
            names,
            references,
            ends: TokenCache::new(alloc),
        })
    }

    /// Is this text known, as a token or as the beginning of one? A step for each of its
    /// characters.
    pub fn has_token(&self, token: &str) -> bool
        ensures { result ≡ knows self.now (chars token.now) }
    {
        find(&self.root, &self.nodes, token).is_some()
    }
}

impl fmt::Debug for InvertedIndex {
    fn fmt<W: fmt::Write>(&self, f: &mut fmt::Formatter<W>) -> fmt::Result {
        f.debug_struct("InvertedIndex")
            .field("root", &self.root)
            .field("nodes", &self.nodes)
            .field("names", &self.names)
            .field("references", &self.references)
            .finish()
    }
}

impl PartialEq for InvertedIndex {
    ghost use Rattle.elasticlunr_trie_nodes.specs.Table.{same_tables};
    ghost use Rattle.elasticlunr_trie.specs.EqualTables.{tables_equivalence};
    ghost use Rattle.std.specs.Cmp.{partial_equiv_from_equiv};

    ghost eq = { same_tables };

    ghost laws = { partial_equiv_from_equiv tables_equivalence };

    /// Do both represent the same table? The numbers of their nodes and references make no
    /// difference. Does not allocate. A path without branches takes no stack.
    fn eq(&self, other: &InvertedIndex) -> bool
        ensures test { result ≡ same_tables self.now other.now }
        ensures equal { IsTrue result ↔ (self.now ≡ other.now) }
    {
        same_below(
            &self.names,
            &self.root,
            &self.nodes,
            Place::Root,
            &other.names,
            &other.root,
            &other.nodes,
            Place::Root,
        )
    }
}

impl Eq for InvertedIndex {
    ghost use Rattle.elasticlunr_trie.specs.EqualTables.{tables_equivalence};

    ghost laws = { tables_equivalence };
}
