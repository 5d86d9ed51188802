//! A call as a line lists it: `["add_token","1","ab",3]`.
use serde_json::Value;
use std::alloc::{AllocError, Global};

/// A call: its name and its arguments. One that is missing is empty, 0 or false.
#[derive(Drop)]
pub struct Call<'a> {
    pub alloc: Global,
    pub name: &'a str,
    /// The arguments that are texts.
    pub texts: Vec<&'a str>,
    /// The last argument that is no text.
    pub value: Option<&'a Value>,
}

impl<'a> Call<'a> {
    /// The call of a value, `None` where it is none or where memory runs out.
    pub fn read(alloc: Global, value: &'a Value) -> Option<Call<'a>> {
        let (name, arguments) = value.as_array()?.split_first()?;
        let name = name.as_str()?;
        let mut texts = Vec::new(alloc);
        let mut value = None;
        for argument in arguments {
            match argument.as_str() {
                Some(text) => texts.push(text).ok()?,
                None => value = Some(argument),
            }
        }
        Some(Call {
            alloc,
            name,
            texts,
            value,
        })
    }

    /// The texts, each in its own memory.
    pub fn tokens(&self) -> Result<Vec<String>, AllocError> {
        let mut tokens = Vec::with_capacity(self.alloc, self.texts.len())?;
        for text in &self.texts {
            tokens.push(String::from_str(self.alloc, text)?)?;
        }
        Ok(tokens)
    }

    pub fn text(&self, number: usize) -> &'a str {
        match self.texts.get(number) {
            Some(text) => text,
            None => "",
        }
    }

    /// The texts after the first.
    pub fn texts_after_first(&self) -> &[&'a str] {
        &self.texts[self.texts.len().min(1)..]
    }

    pub fn number(&self) -> u64 {
        match self.value {
            Some(value) => value.as_u64().unwrap_or(0),
            None => 0,
        }
    }

    /// A number that counts tokens.
    pub fn count(&self) -> usize {
        usize::try_from(self.number()).unwrap_or(0)
    }

    pub fn flag(&self) -> bool {
        match self.value {
            Some(value) => value.as_bool().unwrap_or(false),
            None => false,
        }
    }
}
