//! The JSON text of a document store, with no JSON value built.
ghost use Rattle.std.specs.Prelude.{OnOk};
ghost use Rattle.elasticlunr_json.specs.Tokens.{WritesValue};
ghost use Rattle.elasticlunr_store.specs.Contents.{IsContents, store_value};

use super::DocumentStore;
use elasticlunr_json::{Token, Tokens};
use elasticlunr_store_maps::write::{
    write_document_lengths, write_document_texts, write_last_members,
};
use std::alloc::AllocError;

impl DocumentStore {
    /// Writes the JSON value of the store, without making it.
    pub fn write<W: Tokens>(&self, out: &mut W) -> Result<(), AllocError>
        ensures written { OnOk result (WritesValue (W.Tokens.written out.old)
            (W.Tokens.written out.new)
            (store_value self.now)) }
        ensures contents { IsContents self.now }
    {
        let length = self.docs.len() as u64;
        out.token(Token::BeginObject)?;
        out.token(Token::Key("docInfo"))?;
        write_document_lengths(&self.doc_info, out)?;
        out.token(Token::Key("docs"))?;
        write_document_texts(&self.docs, out)?;
        write_last_members(length, self.save, out)
    }
}
