//! Tokens of a JSON text, taken one after another where they are those of a printed index.
ghost use Rattle.std.specs.Prelude.{◌<◌, OnOk, length};

use crate::error::SearchError;
use json::{Reader, Token};
use std::alloc::Global;

/// The next token.
pub(crate) fn next<'a>(reader: &mut Reader<'a>) -> Result<Token<'a>, SearchError>
    ensures { OnOk result (length reader.new < length reader.old) }
{
    reader.next().ok_or(SearchError::NotRead)
}

/// Takes this token, if it is next.
pub(crate) fn take(reader: &mut Reader<'_>, token: Token<'_>) -> Result<(), SearchError>
    ensures { OnOk result (length reader.new < length reader.old) }
{
    let is_it = match (next(reader)?, token) {
        (Token::BeginObject, Token::BeginObject) => true,
        (Token::EndObject, Token::EndObject) => true,
        (Token::BeginArray, Token::BeginArray) => true,
        (Token::Key(found), Token::Key(name)) => found == name,
        _ => false,
    };
    if is_it {
        Ok(())
    } else {
        Err(SearchError::NotRead)
    }
}

/// A text.
pub(crate) fn read_text(alloc: Global, reader: &mut Reader<'_>) -> Result<String, SearchError> {
    match next(reader)? {
        Token::String(text) => Ok(String::from_str(alloc, text)?),
        _ => Err(SearchError::NotRead),
    }
}

/// A number.
pub(crate) fn read_number(reader: &mut Reader<'_>) -> Result<u64, SearchError>
    ensures { OnOk result (length reader.new < length reader.old) }
{
    match next(reader)? {
        Token::Number(text) => text.parse::<u64>().map_err(|_| SearchError::NotRead),
        _ => Err(SearchError::NotRead),
    }
}

/// An array of names.
pub(crate) fn read_names(
    alloc: Global,
    reader: &mut Reader<'_>,
) -> Result<Vec<String>, SearchError> {
    take(reader, Token::BeginArray)?;
    let mut names = Vec::new(alloc);
    'names: loop {
        match next(reader)? {
            Token::String(name) => names.push(String::from_str(alloc, name)?)?,
            Token::EndArray => return Ok(names),
            _ => return Err(SearchError::NotRead),
        }
    }
}
