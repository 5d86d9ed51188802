//! What the functions for C answer: bytes in, bytes out. `elasticlunr_c` gives them their names.
#![tactic(auto)]

mod answers;
mod documents;
mod language;
mod make;
mod pieces;
mod search;

pub use answers::{
    answer_into, answer_text, hand_out, hand_out_bytes, index_answer, pieces_answer, search_answer,
};
pub use documents::{index_documents, index_text};
pub use language::InputLanguage;
pub use pieces::{PiecesOutcome, index_pieces};
pub use search::{SearchOutcome, search_index};
