//! The entries of the pieces of the texts: documents.
ghost use Rattle.std.specs.Prelude.{◌≡◌, IfOk, OnOk, string_bytes, length, slice_index_or, []};
ghost use Rattle.elasticlunr_json.specs.Maps.{keyed};
ghost use Rattle.elasticlunr_json.specs.Tokens.{WritesValue};
ghost use Rattle.elasticlunr_store.specs.Contents.{text_map};
ghost use Rattle.serde_json.specs.Data.{string};

use crate::cut::Entries;
use elasticlunr_json::{CompactText, Token, Tokens};
use std::alloc::{AllocError, Global};
use std::collections::BTreeMap;

/// The documents whose texts are kept.
#[derive(Drop)]
pub(crate) struct DocumentEntries<'a, 'b> {
    pub(crate) alloc: Global,
    pub(crate) documents: &'b [&'a BTreeMap<String, String>],
}

impl Entries for DocumentEntries<'_, '_> {
    ghost use Rattle.elasticlunr_pieces.specs.EntryTexts.{document_texts};
    ghost use Rattle.elasticlunr_pieces.specs.Numbers.{told_documents};

    ghost texts = { λ e. document_texts (told_documents e.documents.now) };

    fn count(&self) -> usize {
        self.documents.len()
    }

    fn text(&self, at: usize) -> Result<String, AllocError> {
        let mut out = CompactText::new(self.alloc)?;
        write_document(self.documents[at], &mut out)?;
        Ok(out.into_string())
    }
}

// Writes the texts of a document.
fn write_document<W: Tokens>(
    document: &BTreeMap<String, String>,
    out: &mut W,
) -> Result<(), AllocError>
    ensures { OnOk result (WritesValue (W.Tokens.written out.old) (W.Tokens.written out.new)
        (keyed string (text_map document.now.entries))) }
{
    out.token(Token::BeginObject)?;
    for (field, text) in document.iter() {
        out.token(Token::Key(field))?;
        out.token(Token::String(text))?;
    }
    out.token(Token::EndObject)
}
