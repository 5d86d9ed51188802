//! The cells of a table's line.
use serde_json::Value;
use std::alloc::{AllocError, Global};

/// The text that a cell holds as JSON, `None` where it holds none.
pub fn text(alloc: Global, cell: &str) -> Result<Option<String>, AllocError> {
    let Ok(value) = Value::from_str(alloc, cell) else {
        return Ok(None);
    };
    match value.as_str() {
        Some(text) => Ok(Some(String::from_str(alloc, text)?)),
        None => Ok(None),
    }
}

/// The texts that a cell holds as a JSON array, `None` where it holds none.
pub fn texts(alloc: Global, cell: &str) -> Result<Option<Vec<String>>, AllocError> {
    let Ok(Value::Array(values)) = Value::from_str(alloc, cell) else {
        return Ok(None);
    };
    let mut texts = Vec::with_capacity(alloc, values.len())?;
    for value in values {
        let Value::String(text) = value else {
            return Ok(None);
        };
        texts.push(text)?;
    }
    Ok(Some(texts))
}

/// The number that a cell holds in decimal digits, `None` where it holds none.
pub fn number(cell: &str) -> Option<u64> {
    cell.parse().ok()
}
