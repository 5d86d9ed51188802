//! The JSON text of maps of texts and of lengths, with no JSON value built.
ghost use Rattle.std.specs.Prelude.{◌≡◌, [], ◌∷◌, ◌++◌, OnOk, codes, decimal};
ghost use Rattle.json.specs.Token.{key, number, boolean, end_object};
ghost use Rattle.serde_json.specs.Data.{string};
ghost use Rattle.elasticlunr_json.specs.Maps.{keyed, count};
ghost use Rattle.elasticlunr_json.specs.Tokens.{WritesValue};
ghost use Rattle.elasticlunr_store_maps.specs.Contents.{text_map, length_map, document_texts};
ghost use Rattle.elasticlunr_store_maps.specs.Contents.{document_lengths};

use elasticlunr_json::{Token, Tokens};
use std::alloc::AllocError;
use std::collections::BTreeMap;

/// Writes the number of documents and whether texts are kept, and the end of the object.
pub fn write_last_members<W: Tokens>(length: u64, save: bool, out: &mut W) -> Result<(), AllocError>
    ensures { OnOk result (W.Tokens.written out.new ≡ W.Tokens.written out.old
        ++ key (codes "length") ∷ number (decimal length) ∷ key (codes "save") ∷ boolean save ∷ end_object ∷ []) }
{
    out.token(Token::Key("length"))?;
    out.number(length)?;
    out.token(Token::Key("save"))?;
    out.token(Token::Bool(save))?;
    out.token(Token::EndObject)
}

// Writes an object of texts.
fn write_texts<W: Tokens>(texts: &BTreeMap<String, String>, out: &mut W) -> Result<(), AllocError>
    ensures { OnOk result (WritesValue (W.Tokens.written out.old) (W.Tokens.written out.new)
        (keyed string (text_map texts.now.entries))) }
{
    out.token(Token::BeginObject)?;
    for (field, text) in texts.iter() {
        out.token(Token::Key(field))?;
        out.token(Token::String(text))?;
    }
    out.token(Token::EndObject)
}

// Writes an object of lengths.
fn write_lengths<W: Tokens>(
    lengths: &BTreeMap<String, usize>,
    out: &mut W,
) -> Result<(), AllocError>
    ensures { OnOk result (WritesValue (W.Tokens.written out.old) (W.Tokens.written out.new)
        (keyed count (length_map lengths.now.entries))) }
{
    out.token(Token::BeginObject)?;
    for (field, length) in lengths.iter() {
        out.token(Token::Key(field))?;
        out.number(*length as u64)?;
    }
    out.token(Token::EndObject)
}

/// Writes an object of objects of texts.
pub fn write_document_texts<W: Tokens>(
    docs: &BTreeMap<String, BTreeMap<String, String>>,
    out: &mut W,
) -> Result<(), AllocError>
    ensures { OnOk result (WritesValue (W.Tokens.written out.old) (W.Tokens.written out.new)
        (keyed (keyed string) (document_texts docs.now.entries))) }
{
    out.token(Token::BeginObject)?;
    for (doc_ref, texts) in docs.iter() {
        out.token(Token::Key(doc_ref))?;
        write_texts(texts, out)?;
    }
    out.token(Token::EndObject)
}

/// Writes an object of objects of lengths.
pub fn write_document_lengths<W: Tokens>(
    doc_info: &BTreeMap<String, BTreeMap<String, usize>>,
    out: &mut W,
) -> Result<(), AllocError>
    ensures { OnOk result (WritesValue (W.Tokens.written out.old) (W.Tokens.written out.new)
        (keyed (keyed count) (document_lengths doc_info.now.entries))) }
{
    out.token(Token::BeginObject)?;
    for (doc_ref, lengths) in doc_info.iter() {
        out.token(Token::Key(doc_ref))?;
        write_lengths(lengths, out)?;
    }
    out.token(Token::EndObject)
}
