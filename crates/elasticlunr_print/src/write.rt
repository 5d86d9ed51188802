//! The JSON tokens of an index, with no JSON value built.
ghost use Rattle.std.specs.Prelude.{◌≡◌, ◌++◌, map, length, string_bytes, OnOk, IfOk};
ghost use Rattle.json.specs.Tree.{members_tokens};
ghost use Rattle.serde_json.specs.Data.{Data, array};
ghost use Rattle.serde_json.specs.Written.{members_outline};
ghost use Rattle.elasticlunr_json.specs.Tokens.{WritesValue};
ghost use Rattle.elasticlunr_print.specs.Printed.{texts};
ghost use Rattle.elasticlunr_print.specs.Parts.{IsPrinted, plan_of_parts, settings_members};
ghost use Rattle.elasticlunr_print.specs.Sorted.{IsByName, WritesTries};

use crate::parts::{ELASTICLUNR_VERSION, Parts};
use elasticlunr_json::{Token, Tokens};
use elasticlunr_trie::InvertedIndex;
use std::alloc::{AllocError, Global};
use std::collections::BTreeMap;

/// Writes the JSON value of an index with these parts, in one pass over them.
pub fn write_index<W: Tokens>(
    alloc: Global,
    parts: Parts<'_>,
    out: &mut W,
) -> Result<(), AllocError>
    ensures { OnOk result ((v : Data) × IsPrinted parts.entry v
        × WritesValue (W.Tokens.written out.old) (W.Tokens.written out.new) v) }
{
    let tries = by_name(alloc, parts.fields, parts.tries)?;
    out.token(Token::BeginObject)?;
    out.token(Token::Key("documentStore"))?;
    parts.store.write(out)?;
    out.token(Token::Key("fields"))?;
    write_names(parts.fields, out)?;
    out.token(Token::Key("index"))?;
    write_tries(&tries, out)?;
    write_settings(parts, out)
}

// Writes the members that say how the index was built, and the end of the object.
fn write_settings<W: Tokens>(parts: Parts<'_>, out: &mut W) -> Result<(), AllocError>
    ensures { OnOk result (W.Tokens.written out.new
        ≡ W.Tokens.written out.old ++ members_tokens
        (members_outline (settings_members (plan_of_parts parts.entry)))) }
{
    out.token(Token::Key("lang"))?;
    out.token(Token::String(parts.language))?;
    out.token(Token::Key("pipeline"))?;
    write_names(parts.stages, out)?;
    out.token(Token::Key("ref"))?;
    out.token(Token::String(parts.ref_field))?;
    out.token(Token::Key("version"))?;
    out.token(Token::String(ELASTICLUNR_VERSION))?;
    out.token(Token::EndObject)
}

// The fields' tries, in the order of the fields' names.
fn by_name<'a>(
    alloc: Global,
    fields: &'a [String],
    tries: &'a [InvertedIndex],
) -> Result<BTreeMap<&'a str, &'a InvertedIndex>, AllocError>
    requires { length tries.now ≡ length fields.now }
    ensures { IfOk result (λ m. IsByName (map string_bytes fields.now) tries.now m) }
{
    let mut sorted = BTreeMap::new(alloc);
    for (name, trie) in fields.iter().zip(tries) {
        sorted.insert(name.as_str(), trie)?;
    }
    Ok(sorted)
}

// Writes the object of the tries under their names.
fn write_tries<W: Tokens>(
    tries: &BTreeMap<&str, &InvertedIndex>,
    out: &mut W,
) -> Result<(), AllocError>
    ensures { OnOk result (WritesTries tries.now (W.Tokens.written out.old)
        (W.Tokens.written out.new)) }
{
    out.token(Token::BeginObject)?;
    for (name, trie) in tries.iter() {
        out.token(Token::Key(name))?;
        trie.write(out)?;
    }
    out.token(Token::EndObject)
}

// Writes the array of some names.
fn write_names<W: Tokens>(names: &[String], out: &mut W) -> Result<(), AllocError>
    ensures { OnOk result (WritesValue (W.Tokens.written out.old) (W.Tokens.written out.new)
        (array (texts (map string_bytes names.now)))) }
{
    out.token(Token::BeginArray)?;
    for name in names {
        out.token(Token::String(name.as_str()))?;
    }
    out.token(Token::EndArray)
}
