//! Laws of the texts of pieces: each is the contract of a function that does nothing.
ghost use Rattle.std.specs.Prelude.{◌≡◌, ◌<◌, ℕ, List, Result, Some, IfErr, IsOkUnless, length};
ghost use Rattle.std.specs.Prelude.{slice_index_or, [], string_bytes};
ghost use Rattle.elasticlunr_error.specs.Text.{Bytes};
ghost use Rattle.elasticlunr_piece_head.specs.Fault.{IsHeadFault};
ghost use Rattle.elasticlunr_piece_head.specs.declared.fault.HeadFault.{HeadFault};
ghost use Rattle.elasticlunr_piece_head.specs.declared.fault.HeadFault.TheVariants.{Memory};
ghost use Rattle.elasticlunr_piece_head.specs.declared.head.PieceHead.{PieceHead};
ghost use Rattle.elasticlunr_piece_texts.specs.Texts.{HasSmallNumbers, printed_head};
ghost use Rattle.elasticlunr_pieces.specs.Entries.{references, token_members};
ghost use Rattle.elasticlunr_pieces.specs.Pieces.{ArePieces, IsHead, tokens_text};
ghost use Rattle.elasticlunr_pieces.specs.declared.making.Head.{Head};
ghost use Rattle.elasticlunr_print.specs.declared.parts.Parts.{Parts};
ghost use Rattle.elasticlunr_store.specs.Contents.{TextMap};
ghost use Rattle.serde_json.specs.Data.{object};
ghost use Rattle.serde_json.specs.Read.{read};

/// The text of a piece of the tries is read as the value that was printed.
pub fn pieces_are_read()
    ensures { (parts : Parts) (field : Bytes) (size : ℕ) (tries : List (List Bytes))
        (texts : List (List TextMap)) (titles : List (List Bytes))
        → ArePieces parts field size tries texts titles
        → HasSmallNumbers parts tries texts titles → (number : ℕ) → number < length tries
        → read (tokens_text parts (slice_index_or tries number []))
        ≡ Some (object (token_members (references parts.store.now) parts.tries.now
        (slice_index_or tries number []))) }
{}

/// The text of the head of an index in pieces is read as the value that was printed. An answer that
/// keeps the contract of `PieceHead::read` refuses it only where memory runs out.
pub fn heads_are_read()
    ensures value { (parts : Parts) (field : Bytes) (tries : List (List Bytes))
        (texts : List (List TextMap)) (titles : List (List Bytes))
        → HasSmallNumbers parts tries texts titles
        → (printed : Head) → IsHead parts field tries texts titles printed
        → read (string_bytes printed.text) ≡ Some (printed_head parts field tries texts titles) }
    ensures taken { (parts : Parts) (field : Bytes) (size : ℕ) (tries : List (List Bytes))
        (texts : List (List TextMap)) (titles : List (List Bytes))
        → ArePieces parts field size tries texts titles
        → HasSmallNumbers parts tries texts titles
        → (printed : Head) → IsHead parts field tries texts titles printed
        → (answer : Result PieceHead HeadFault)
        → IfErr answer (IsHeadFault (string_bytes printed.text)) → IsOkUnless answer Memory }
{}
