//! Lists of texts, for the other tests.
use std::alloc::{AllocError, Global};

/// The texts, each followed by `;`.
pub fn joined(alloc: Global, texts: &[String]) -> Result<String, AllocError> {
    let mut all = String::new(alloc);
    for text in texts {
        all.push_str(text.as_str())?;
        all.push(';')?;
    }
    Ok(all)
}

/// The same texts, owned.
pub fn texts(alloc: Global, texts: &[&str]) -> Result<Vec<String>, AllocError> {
    let mut made = Vec::new(alloc);
    for text in texts {
        made.push(String::from_str(alloc, text)?)?;
    }
    Ok(made)
}

/// A text of one character many times.
pub fn repeated(alloc: Global, letter: char, times: usize) -> Result<String, AllocError> {
    let mut text = String::new(alloc);
    for _ in 0..times {
        text.push(letter)?;
    }
    Ok(text)
}
