//! What a pipeline calls on a token: the trait, and a custom function.
ghost use Rattle.std.specs.Prelude.{◌≡◌, Option, String, Ok, option_map};
ghost use Rattle.std.specs.declared.alloc.Global.{Global};
ghost use Rattle.elasticlunr_text.specs.Text.{text_of};

use crate::IndexError;
use std::alloc::{AllocError, Global};

/// A step of a pipeline: it keeps a token, changes it or drops it.
///
/// Both calls have a meaning, a function of the value and of the token's characters; an answer is
/// that meaning, or out of memory.
pub trait PipelineFn: Drop {
    ghost use Rattle.std.specs.Prelude.{◌≡◌, Option, IfOk, option_map, string_bytes};
    ghost use Rattle.elasticlunr_text.specs.Text.{Text, Bytes, text_of};

    // the name of the step
    ghost name_text: { Self → Bytes };

    // the output of the stage for a token
    ghost leaves: { Self → Text → Option Text };

    /// The name of the step, by which a printed index lists it.
    fn name(&self, alloc: Global) -> Result<String, AllocError>
        ensures { IfOk result (λ name. string_bytes name ≡ name_text self.now) };

    /// The output of the stage for the token, `None` where it drops it.
    fn filter(&self, alloc: Global, token: String) -> Result<Option<String>, AllocError>
        ensures { IfOk result (λ left. option_map text_of left ≡ leaves self.now (text_of token)) };
}

/// A function on tokens, with a name.
///
/// Who builds one owes two facts: the function may be called on every text, and it has one answer
/// for each text, unless memory runs out.
#[derive(Drop)]
pub struct FnWrapper {
    /// The name by which a printed index lists the function.
    pub name: String,
    /// The function. It takes the allocator and a token, and answers as `PipelineFn::filter` does.
    pub function: fn(Global, String) -> Result<Option<String>, AllocError>,

    // the function may be called on every text
    pub ghost callable: { IsAlwaysCallable function },

    // two answers to one text are equal, unless memory runs out
    pub ghost one_answer: { (a b : Global) (s t : String Global) (p q : Option (String Global)) →
        text_of s ≡ text_of t → post function a s (Ok p) → post function b t (Ok q) →
        option_map text_of p ≡ option_map text_of q },
}

impl FnWrapper {
    ghost use Rattle.std.specs.Prelude.{IfOk, IsOkUnless, string_bytes};
    ghost use Rattle.elasticlunr_text.specs.Answers.{MayAnswer};

    /// The name of the function.
    pub fn name(&self, _alloc: Global) -> Result<String, AllocError>
        ensures { IfOk result (λ name. string_bytes name ≡ string_bytes self.now.name) }
    {
        self.name.clone()
    }

    /// The wrapper with the same name and the same function.
    pub fn clone(&self, _alloc: Global) -> Result<Self, IndexError>
        ensures name { IfOk result (λ copy. string_bytes copy.name ≡ string_bytes self.now.name) }
        ensures function { IfOk result (λ copy. copy.function ≡ self.now.function) }
        ensures memory { IsOkUnless result IndexError.Memory }
    {
        Ok(FnWrapper {
            name: self.name.clone()?,
            function: self.function,
        })
    }

    /// What the function answers.
    pub fn filter(&self, alloc: Global, token: String) -> Result<Option<String>, AllocError>
        ensures same { post self.now.function alloc token result }
        ensures answer { IfOk result (λ left. MayAnswer self.now (text_of token)
            (option_map text_of left)) }
    {
        (self.function)(alloc, token)
    }
}
