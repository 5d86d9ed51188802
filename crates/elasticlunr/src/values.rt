//! The values of a document, each with or without tokens of its own.
ghost use Rattle.std.specs.Prelude.{◌≡◌, IfOk};
ghost use Rattle.elasticlunr_text.specs.Text.{texts_of, word_texts};
ghost use Rattle.elasticlunr_commands.specs.Fields.{borrowed};
ghost use Rattle.elasticlunr.specs.GivenTokens.{value_texts};

use std::alloc::{AllocError, Global};

/// A value of a document, for the field at its place.
#[derive(Clone, Copy)]
pub struct FieldValue<'a> {
    /// The text, which is stored.
    pub text: &'a str,
    /// Where its tokens come from.
    pub tokens: TokenSource<'a>,
}

/// Where the tokens of a value come from.
#[derive(Clone, Copy)]
pub enum TokenSource<'a> {
    /// The field's tokenizer, or else the language, makes tokens of the text. They go through the
    /// pipeline.
    FromText,
    /// These tokens go through the pipeline.
    IntoPipeline(&'a [&'a str]),
    /// These are the tokens. No stage sees them.
    AsGiven(&'a [&'a str]),
}

/// The texts of values, in order.
pub(crate) fn texts_of_values<'a>(
    alloc: Global,
    values: &[FieldValue<'a>],
) -> Result<Vec<&'a str>, AllocError>
    ensures { IfOk result (λ texts. borrowed texts.items ≡ value_texts values.now) }
{
    let mut texts = Vec::with_capacity(alloc, values.len())?;
    for value in values {
        texts.push(value.text)?;
    }
    Ok(texts)
}

/// The same texts, as strings.
pub(crate) fn strings_of(alloc: Global, texts: &[&str]) -> Result<Vec<String>, AllocError>
    ensures { IfOk result (λ strings. texts_of strings.items ≡ word_texts texts.now) }
{
    let mut strings = Vec::with_capacity(alloc, texts.len())?;
    for text in texts {
        strings.push(String::from_str(alloc, *text)?)?;
    }
    Ok(strings)
}
