//! Laws of the pieces of an index: each is the contract of a function that does nothing.
ghost use Rattle.std.specs.Prelude.{◌≡◌, ◌<◌, ℕ, List, IsTrue};
ghost use Rattle.std.specs.FinMap.{entries};
ghost use Rattle.std.specs.Str.{chars};
ghost use Rattle.elasticlunr_error.specs.Text.{Bytes, is_listed};
ghost use Rattle.elasticlunr_print.specs.declared.parts.Parts.{Parts};
ghost use Rattle.elasticlunr_store.specs.Contents.{Contents, TextMap, length_at};
ghost use Rattle.elasticlunr_pieces.specs.Entries.{documents_items, field_value, field_values};
ghost use Rattle.elasticlunr_pieces.specs.Entries.{IsTokenOf, token_members};
ghost use Rattle.elasticlunr_pieces.specs.Head.{all_lengths, firsts};
ghost use Rattle.elasticlunr_pieces.specs.Pieces.{ArePieces};
ghost use Rattle.elasticlunr_pieces.specs.Standing.{BeginsWith, IsLastNotAbove, StandsIn};
ghost use Rattle.elasticlunr_pieces.specs.Telling.{HasNumbers};
ghost use Rattle.elasticlunr_trie.specs.Table.{Table, postings};

/// What is printed of an index, the field of the titles and the size determine the pieces.
pub fn pieces_are_determined()
    ensures { (parts : Parts) (field : Bytes) (size : ℕ) (tries other_tries : List (List Bytes))
        (texts other_texts : List (List TextMap)) (titles other_titles : List (List Bytes))
        → ArePieces parts field size tries texts titles
        → ArePieces parts field size other_tries other_texts other_titles
        → (tries ≡ other_tries) × (texts ≡ other_texts) × (titles ≡ other_titles) }
{}

/// A token stands in one piece of the tries. It is the one that the head names for it: the last one
/// whose first token is not above the token.
pub fn tokens_stand_where_the_head_says()
    ensures { (parts : Parts) (field : Bytes) (size : ℕ) (tries : List (List Bytes))
        (texts : List (List TextMap)) (titles : List (List Bytes))
        → ArePieces parts field size tries texts titles → (token : Bytes)
        → IsTokenOf parts.tries.now token → ((n : ℕ) × StandsIn tries token n
        × IsLastNotAbove (firsts tries) token n × ((m : ℕ) → StandsIn tries token m → m ≡ n)) }
{}

/// The tokens that begin with a text stand in neighbouring pieces of the tries: the pieces between
/// two of these have no others.
pub fn tokens_with_one_beginning_are_neighbours()
    ensures { (parts : Parts) (field : Bytes) (size : ℕ) (tries : List (List Bytes))
        (texts : List (List TextMap)) (titles : List (List Bytes))
        → ArePieces parts field size tries texts titles → (beginning first token last : Bytes)
        (l m n : ℕ) → StandsIn tries first l → StandsIn tries token m → StandsIn tries last n
        → l < m → m < n → BeginsWith first beginning → BeginsWith last beginning
        → BeginsWith token beginning }
{}

/// The list of a token in a field determines its postings, where their references have numbers:
/// tables with one list have the same postings.
pub fn lists_tell_postings()
    ensures { (names : List Bytes) (table other : Table) (token : Bytes)
        → HasNumbers names (entries (postings table (chars token)))
        → HasNumbers names (entries (postings other (chars token)))
        → field_value names table token ≡ field_value names other token
        → postings table (chars token) ≡ postings other (chars token) }
{}

/// The values of the pieces and of the head determine what they were made of. Pieces of the tries
/// with the same members have the same tokens, and each has the same lists; heads with the same
/// lengths are of documents with these lengths; and pieces of the texts with the same items have
/// the same documents.
pub fn pieces_tell_the_index()
    ensures tokens { (names tokens others : List Bytes) (tables more : List Table)
        → token_members names tables tokens ≡ token_members names more others → tokens ≡ others }
    ensures lists { (names tokens others : List Bytes) (tables more : List Table)
        → token_members names tables tokens ≡ token_members names more others
        → (token : Bytes) → IsTrue (is_listed token tokens)
        → field_values names tables token ≡ field_values names more token }
    ensures lengths { (contents other : Contents) (fields names : List Bytes)
        → all_lengths contents fields names ≡ all_lengths other fields names
        → (field reference : Bytes) → IsTrue (is_listed field fields)
        → IsTrue (is_listed reference names)
        → length_at contents reference field ≡ length_at other reference field }
    ensures texts { (documents others : List TextMap)
        → documents_items documents ≡ documents_items others → documents ≡ others }
{}
