//! An index rebuilt from the tokens of its printed text, with no JSON value of its tries.
//!
//! What is made is well formed, and no clause says more of it: whether it is what was printed is
//! judged by printing it, token by token, next to the text (`rebuild_and_compare`).
ghost use Rattle.std.specs.Prelude.{IfOk};
ghost use Rattle.elasticlunr_store.specs.Contents.{IsConsistent};

use crate::error::SearchError;
use crate::field_references::{FieldReferences, references_by_field};
use crate::levels::MAX_DEPTH;
use crate::tokens::{next, read_names, read_text, take};
use crate::walk::{Steps, Walk};
use elasticlunr_store::DocumentStore;
use elasticlunr_text::IndexError;
use elasticlunr_trie::InvertedIndex;
use json::{Reader, Token};
use serde_json::Value;
use std::alloc::Global;

/// What a printed text has, as it seems.
#[derive(Drop)]
pub(crate) struct Rebuilt {
    pub fields: Vec<String>,
    pub ref_field: String,
    pub language: String,
    pub stages: Vec<String>,
    pub tries: Vec<(String, InvertedIndex)>,
    pub store: DocumentStore,
}

/// The parts that stand in a text in the order in which an index is printed.
pub(crate) fn rebuild(
    alloc: Global,
    text: &str,
    reader: &mut Reader<'_>,
) -> Result<Rebuilt, SearchError>
    ensures { IfOk result (λ r. IsConsistent r.store) }
{
    take(reader, Token::BeginObject)?;
    take(reader, Token::Key("documentStore"))?;
    let store = read_store(alloc, text, reader)?;
    take(reader, Token::Key("fields"))?;
    let fields = read_names(alloc, reader)?;
    take(reader, Token::Key("index"))?;
    let references = references_by_field(alloc, &store)?;
    let tries = read_tries(alloc, reader, references, Steps::of_text(text))?;
    take(reader, Token::Key("lang"))?;
    let language = read_text(alloc, reader)?;
    take(reader, Token::Key("pipeline"))?;
    let stages = read_names(alloc, reader)?;
    take(reader, Token::Key("ref"))?;
    let ref_field = read_text(alloc, reader)?;
    Ok(Rebuilt {
        fields,
        ref_field,
        language,
        stages,
        tries,
        store,
    })
}

/// A document store. It is read from its part of the text.
fn read_store(
    alloc: Global,
    text: &str,
    reader: &mut Reader<'_>,
) -> Result<DocumentStore, SearchError>
    ensures { IfOk result IsConsistent }
{
    let start = reader.offset();
    if reader.skip_value(MAX_DEPTH).is_err() {
        return Err(SearchError::NotRead);
    }
    let Some(part) = text.get(start..reader.offset()) else {
        return Err(SearchError::NotRead);
    };
    let part = part.trim_ascii_end();
    let value = match Value::from_str(alloc, part.strip_suffix(',').unwrap_or(part)) {
        Ok(value) => value,
        Err(e) if e.is_memory() => return Err(SearchError::Memory),
        Err(_) => return Err(SearchError::NotRead),
    };
    match DocumentStore::from_value(alloc, &value) {
        Ok(store) => Ok(store),
        Err(IndexError::Memory) => Err(SearchError::Memory),
        Err(_) => Err(SearchError::NotRead),
    }
}

/// Tries under the names of their fields. A second one of a name would have no references left, so
/// the references of a field are numbered once.
fn read_tries(
    alloc: Global,
    reader: &mut Reader<'_>,
    mut references: FieldReferences<'_>,
    mut steps: Steps,
) -> Result<Vec<(String, InvertedIndex)>, SearchError> {
    take(reader, Token::BeginObject)?;
    let mut tries = Vec::new(alloc);
    'tries: loop {
        match next(reader)? {
            Token::Key(name) => {
                let of_field = references.remove(name).unwrap_or(Vec::new(alloc));
                let mut walk = Walk::new(alloc, of_field, steps)?;
                walk.read(reader)?;
                let (trie, left) = walk.into_parts();
                tries.push((String::from_str(alloc, name)?, trie))?;
                steps = left;
            }
            Token::EndObject => return Ok(tries),
            _ => return Err(SearchError::NotRead),
        }
    }
}
