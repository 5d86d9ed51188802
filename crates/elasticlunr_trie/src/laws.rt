//! Laws of the tables that a trie represents.
ghost use Rattle.std.specs.Prelude.{◌≡◌, ◌≢◌, ◌⊎◌, ◌↔◌, [], List, Result, IfOk, IfErr, IsTrue};
ghost use Rattle.std.specs.Prelude.{unwrap_or, option_map};
ghost use Rattle.std.specs.Bool.{Decides};
ghost use Rattle.std.specs.FinMap.{entries, get, len};
ghost use Rattle.serde_json.specs.Data.{Data};
ghost use Rattle.elasticlunr_error.specs.Text.{Text};
ghost use Rattle.elasticlunr_error.specs.declared.error.IndexError.{IndexError};
ghost use Rattle.elasticlunr_json.specs.Refused.{IsRefused, IsAnswer};
ghost use Rattle.elasticlunr_trie_nodes.specs.Table.{Table, new_table, knows, postings};
ghost use Rattle.elasticlunr_trie_nodes.specs.Table.{same_tables, IsPrefix, IsTable, Change};
ghost use Rattle.elasticlunr_trie_nodes.specs.Table.{AreChanged, IsAdded};
ghost use Rattle.elasticlunr_trie.specs.Tokens.{IsTokenFrom};
ghost use Rattle.elasticlunr_trie.specs.Tree.{IsTrieValue};

/// A value is the trie value of one table at most.
pub fn one_table_a_value()
    ensures { (T : Table) (U : Table) (v : Data)
        → IsTable T → IsTable U → IsTrieValue T v → IsTrieValue U v → T ≡ U }
{}

/// A table has one trie value at most.
pub fn one_value_a_table()
    ensures { (T : Table) (v : Data) (w : Data) → IsTrieValue T v → IsTrieValue T w → v ≡ w }
{}

/// An answer that keeps the contract of `InvertedIndex::from_value` on the trie value of a table is
/// that table, or out of memory.
pub fn trie_values_are_read_back()
    ensures { (T : Table) (v : Data) (answer : Result Table IndexError)
        → IsTable T → IsTrieValue T v
        → IfOk answer (λ U. IsTable U × IsTrieValue U v)
        → IfErr answer (IsRefused ((U : Table) → IsTable U → ¬ (IsTrieValue U v)))
        → IsAnswer T answer }
{}

/// Whatever was added and removed, known are the empty text and the beginnings of the tokens that
/// were added.
pub fn known_after_changes()
    ensures { (changes : List Change) (T : Table) → AreChanged changes new_table T → (s : Text)
        → IsTrue (knows T s) ↔ ((s ≡ []) ⊎ ((t : Text) × IsAdded t changes × IsPrefix s t)) }
{}

/// The document frequency of a token is the number of its postings, and 0 where it is unknown.
pub fn frequency_counts_postings()
    ensures { (T : Table) (t : Text) → len (postings T t) ≡ unwrap_or (option_map len (get T t)) 0 }
{}

/// What `InvertedIndex::tokens` lists is what begins with the text and has a posting in
/// `InvertedIndex::postings`.
pub fn tokens_have_postings()
    ensures { (T : Table) (s : Text) (t : Text)
        → IsTokenFrom T s t ↔ (IsPrefix s t × (entries (postings T t) ≢ [])) }
{}

/// Two tries are `==` exactly if their tables are equal.
pub fn equal_tries()
    ensures { (T : Table) (U : Table) → Decides (same_tables T U) (T ≡ U) }
{}
