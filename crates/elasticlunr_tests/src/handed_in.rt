//! Parts that are handed in to the library. Each has no memory for the token `b`, or for a text
//! with a `b`.
ghost use Rattle.std.specs.Prelude.{◌≡◌, ◌∷◌, [], IfOk, Some, option_map};
ghost use Rattle.elasticlunr_text.specs.Text.{bytes_of, text_of};

use elasticlunr::Language;
use elasticlunr::lang::tokenize_whitespace;
use elasticlunr::pipeline::{Pipeline, PipelineFn, Stage};
use std::alloc::{AllocError, Global};

/// A copy of the token, but no memory for `b`.
pub fn copy_all_but_b(_alloc: Global, token: String) -> Result<Option<String>, AllocError>
    ensures { IfOk result (λ left. option_map text_of left ≡ Some (text_of token)) }
{
    if token.as_str() == "b" {
        return Err(AllocError);
    }
    let copy = token.clone()?;
    Ok(Some(copy))
}

/// The same as an object.
#[derive(Drop)]
pub struct CopyAllButB {}

impl PipelineFn for CopyAllButB {
    ghost use Rattle.std.specs.Prelude.{codes};

    ghost name_text = { λ _. codes "own" };

    ghost leaves = { λ _ token. Some token };

    fn name(&self, alloc: Global) -> Result<String, AllocError> {
        String::from_str(alloc, "own")
    }

    fn filter(&self, alloc: Global, token: String) -> Result<Option<String>, AllocError> {
        copy_all_but_b(alloc, token)
    }
}

/// What makes tokens of a field's value.
pub type Tokenizer = Box<dyn Fn(Global, &str) -> Result<Vec<String>, AllocError>>;

/// The text as one token, but no memory for a text with a `b`.
pub fn whole_without_b(alloc: Global, text: &str) -> Result<Vec<String>, AllocError>
    ensures { IfOk result (λ tokens. bytes_of tokens.items ≡ text.now ∷ []) }
{
    if text.contains('b') {
        return Err(AllocError);
    }
    let mut tokens = Vec::new(alloc);
    tokens.push(String::from_str(alloc, text)?)?;
    Ok(tokens)
}

/// A language with the words of the kept ones, but no memory for a text with a `b`.
#[derive(Drop)]
pub struct WithoutB {}

impl Language for WithoutB {
    ghost use Rattle.std.specs.Prelude.{codes};
    ghost use Rattle.elasticlunr_lang.specs.Words.{words};

    ghost name_of = { λ _. codes "WithoutB" };

    ghost code_of = { λ _. codes "wb" };

    ghost tokens_of = { λ _. words };

    ghost stages_of = { λ _. codes "all" ∷ [] };

    ghost leaves_of = { λ _ token left. left ≡ Some token };

    fn name(&self, alloc: Global) -> Result<String, AllocError> {
        String::from_str(alloc, "WithoutB")
    }

    fn code(&self, alloc: Global) -> Result<String, AllocError> {
        String::from_str(alloc, "wb")
    }

    fn tokenize(&self, alloc: Global, text: &str) -> Result<Vec<String>, AllocError> {
        if text.contains('b') {
            return Err(AllocError);
        }
        tokenize_whitespace(alloc, text)
    }

    fn make_pipeline(&self, alloc: Global, empty: Pipeline) -> Result<Pipeline, AllocError> {
        let _unused = empty;
        let name = String::from_str(alloc, "all")?;
        Ok(Pipeline {
            queue: vec![in alloc; Stage::Keep(name)]?,
        })
    }
}
