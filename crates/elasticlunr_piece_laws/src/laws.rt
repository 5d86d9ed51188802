//! Laws of a search in pieces: each is the contract of a function that does nothing.
ghost use Rattle.std.specs.Prelude.{◌≡◌, ◌↔◌, ◌<◌, ℕ, Bool, List, Contains, length, replicate};
ghost use Rattle.std.specs.Prelude.{slice_index_or, [], ◌∷◌, IsTrue, map, string_bytes, vec_len};
ghost use Rattle.std.specs.FinMap.{len};
ghost use Rattle.std.specs.Float.{Float};
ghost use Rattle.std.specs.List.{AllZip, zip};
ghost use Rattle.std.specs.Str.{chars, IsUtf8};
ghost use Rattle.elasticlunr_error.specs.Text.{Bytes, Text, bytes_of, is_listed};
ghost use Rattle.elasticlunr_piece_head.specs.Choice.{IsNeededForOne};
ghost use Rattle.elasticlunr_piece_laws.specs.Alike.{AreAlike, CanStandFor, LeaveExpansion};
ghost use Rattle.elasticlunr_piece_laws.specs.Held.{HasDocumentsOf, HavePostingsOf};
ghost use Rattle.elasticlunr_piece_laws.specs.ReadPieces.{AreAdded, IsReadHead};
ghost use Rattle.elasticlunr_piece_laws.specs.Whole.{IsWhole};
ghost use Rattle.elasticlunr_piece_texts.specs.Texts.{HasSmallNumbers};
ghost use Rattle.elasticlunr_piece_search.specs.Entries.{AreEntriesAdded, Entry, piece_value};
ghost use Rattle.elasticlunr_pieces.specs.Entries.{references, token_members};
ghost use Rattle.elasticlunr_pieces.specs.Head.{Beginnings, firsts, head_value};
ghost use Rattle.elasticlunr_pieces.specs.Pieces.{ArePieces, IsHead, tokens_text};
ghost use Rattle.elasticlunr_pieces.specs.declared.making.Head.{Head};
ghost use Rattle.elasticlunr_print.specs.declared.parts.Parts.{Parts};
ghost use Rattle.elasticlunr_ranking.specs.Fields.{Field};
ghost use Rattle.elasticlunr_ranking.specs.Order.{AreRanked};
ghost use Rattle.elasticlunr_store.specs.Contents.{Contents, TextMap, field_length};
ghost use Rattle.elasticlunr_store.specs.Options.{Options};
ghost use Rattle.elasticlunr_ranking.specs.Choice.{fields_for};
ghost use Rattle.elasticlunr_piece_head.specs.Head.{Says};
ghost use Rattle.elasticlunr_piece_head.specs.declared.head.PieceHead.{PieceHead};
ghost use Rattle.elasticlunr_piece_laws.specs.Heads.{IsHeadOf};
ghost use Rattle.elasticlunr_piece_search.specs.Documents.{head_contents};
ghost use Rattle.elasticlunr_print.specs.Parts.{plan_of_parts};
ghost use Rattle.elasticlunr_trie.specs.Table.{Table, new_table, postings};
ghost use Rattle.serde_json.specs.Data.{object};
ghost use Rattle.elasticlunr_commands.specs.Standing.{Plan};
ghost use Rattle.elasticlunr_piece_laws.specs.Searched.{Searches};
ghost use Rattle.elasticlunr_print.specs.Printed.{IsTextOf};
ghost use Rattle.elasticlunr_search.specs.Named.{IsNamedIn};
ghost use Rattle.serde_json.specs.Written.{compact_text};

use elasticlunr_lang::AnyLanguage;
use elasticlunr_pieces::laws::tokens_stand_where_the_head_says;
use elasticlunr_search::Searcher;
use elasticlunr_store::laws::one_contents_a_value;
use elasticlunr_trie::laws::one_table_a_value;

/// In fields that are alike for the tokens of a query, these find the same documents with the same
/// scores.
pub fn fields_that_are_alike_rank_alike()
    ensures { (tokens : List Text) (fields others : List Field) (hits : List (Bytes × Float))
        → AllZip (AreAlike tokens) fields others
        → AreRanked fields tokens hits ↔ AreRanked others tokens hits }
{}

/// New tables have the postings of no piece.
pub fn new_tables_have_no_piece()
    ensures { (groups : List (List Bytes)) (tables : List Table)
        → HavePostingsOf groups [] tables (replicate (length tables) new_table) }
{}

/// Tables with the postings of some pieces of an index have those of one piece more after its
/// entries were added.
pub fn a_piece_adds_its_postings()
    ensures { (parts : Parts) (field : Bytes) (size : ℕ) (tries : List (List Bytes))
        (texts : List (List TextMap)) (titles : List (List Bytes))
        → ArePieces parts field size tries texts titles → IsWhole parts
        → (number : ℕ) → number < length tries → (entries : List Entry)
        → piece_value entries ≡ object (token_members (references parts.store.now) parts.tries.now
        (slice_index_or tries number []))
        → (numbers : List ℕ) (old new : List Table)
        → HavePostingsOf tries numbers parts.tries.now old
        → AreEntriesAdded (references parts.store.now) entries old new
        → HavePostingsOf tries (number ∷ numbers) parts.tries.now new }
{}

/// Tables with the postings of all pieces that tokens need have, at each word that one of the
/// tokens can match, the postings of the index.
pub fn needed_pieces_are_enough()
    ensures { (parts : Parts) (field : Bytes) (size : ℕ) (tries : List (List Bytes))
        (texts : List (List TextMap)) (titles : List (List Bytes))
        → ArePieces parts field size tries texts titles → IsWhole parts
        → (expand : Bool) (asked : List Bytes) (numbers : List ℕ)
        → ((n : ℕ) → IsNeededForOne (firsts tries) expand asked n → Contains numbers n)
        → (others : List Table) → HavePostingsOf tries numbers parts.tries.now others
        → (k : ℕ) → k < length asked → IsUtf8 (slice_index_or asked k [])
        → (word : Text) → CanStandFor expand (chars (slice_index_or asked k [])) word
        → (i : ℕ) (d : Table) → i < length parts.tries.now
        → postings (slice_index_or others i d) word
        ≡ postings (slice_index_or parts.tries.now i d) word }
{
    tokens_stand_where_the_head_says();
}

/// What is read of the head of an index in pieces has its fields, its references, its lengths and
/// the first tokens of its pieces.
pub fn a_head_tells_its_index()
    ensures { (parts : Parts) (tries : List (List Bytes)) (beginnings : Beginnings)
        (head : PieceHead) → beginnings.tries ≡ firsts tries
        → Says (head_value (plan_of_parts parts) parts.store.now (references parts.store.now)
        beginnings) head → IsHeadOf parts tries head }
{}

/// The contents that are made of such a head have as many documents as the index, with the same
/// lengths of its fields.
pub fn a_head_has_the_documents_of_its_index()
    ensures documents { (parts : Parts) (tries : List (List Bytes)) (head : PieceHead)
        → IsHeadOf parts tries head
        → len (head_contents head).texts ≡ len parts.store.now.texts }
    ensures lengths { (parts : Parts) (tries : List (List Bytes)) (head : PieceHead)
        → IsHeadOf parts tries head → (reference field : Bytes)
        → IsTrue (is_listed field (map string_bytes parts.fields.now))
        → field_length (head_contents head) reference field
        ≡ field_length parts.store.now reference field }
{}

/// A ranked search in the documents of the head and in the pieces that the tokens of a query need
/// finds what it finds in the whole index, with the same scores.
pub fn pieces_rank_as_the_whole()
    ensures { (parts : Parts) (field : Bytes) (size : ℕ) (tries : List (List Bytes))
        (texts : List (List TextMap)) (titles : List (List Bytes))
        → ArePieces parts field size tries texts titles → IsWhole parts
        → (head : PieceHead) → IsHeadOf parts tries head
        → (options : Options) → LeaveExpansion options
        → (asked : List Bytes)
        → ((k : ℕ) → k < length asked → IsUtf8 (slice_index_or asked k []))
        → (numbers : List ℕ)
        → ((n : ℕ) → IsNeededForOne (bytes_of head.tries.items) options.expand asked n
        → Contains numbers n)
        → (others : List Table) → HavePostingsOf tries numbers parts.tries.now others
        → (contents : Contents) → HasDocumentsOf (head_contents head) contents
        → (hits : List (Bytes × Float))
        → AreRanked (fields_for options contents (zip (bytes_of head.fields.items) others))
        (map chars asked) hits
        ↔ AreRanked (fields_for options parts.store.now
        (zip (map string_bytes parts.fields.now) parts.tries.now)) (map chars asked) hits }
{
    tokens_stand_where_the_head_says();
}

/// A searcher of a text searches the tables and the contents that the text was printed of.
pub fn a_searcher_has_what_was_printed(searcher: &Searcher<AnyLanguage>)
    ensures { (plan : Plan) (tables : List Table) (contents : Contents) (text : Bytes)
        → IsTextOf compact_text plan tables contents text → IsNamedIn leaves text searcher.now
        → Searches plan.fields tables contents searcher.now }
{
    one_table_a_value();
    one_contents_a_value();
}

/// A ranked search over the texts of an index in pieces finds what it finds in the whole index, with
/// the same scores: where the text of its head was read, and of the texts of its pieces those were
/// added that the tokens of a query need.
pub fn texts_rank_as_the_whole()
    ensures { (parts : Parts) (field : Bytes) (size : ℕ) (tries : List (List Bytes))
        (texts : List (List TextMap)) (titles : List (List Bytes))
        → ArePieces parts field size tries texts titles → IsWhole parts
        → HasSmallNumbers parts tries texts titles
        → (printed : Head) → IsHead parts field tries texts titles printed
        → (head : PieceHead) → IsReadHead (string_bytes printed.text) head
        → (options : Options) → LeaveExpansion options
        → (asked : List Bytes)
        → ((k : ℕ) → k < length asked → IsUtf8 (slice_index_or asked k []))
        → (numbers : List ℕ)
        → ((n : ℕ) → IsNeededForOne (bytes_of head.tries.items) options.expand asked n
        → Contains numbers n)
        → (others : List Table)
        → AreAdded head (λ n. tokens_text parts (slice_index_or tries n [])) numbers
        (replicate (vec_len head.fields) new_table) others
        → (contents : Contents) → HasDocumentsOf (head_contents head) contents
        → (hits : List (Bytes × Float))
        → AreRanked (fields_for options contents (zip (bytes_of head.fields.items) others))
        (map chars asked) hits
        ↔ AreRanked (fields_for options parts.store.now
        (zip (map string_bytes parts.fields.now) parts.tries.now)) (map chars asked) hits }
{
    pieces_rank_as_the_whole();
}
