//! Pipelines of stages.
ghost use Rattle.std.specs.Prelude.{◌≡◌, IfOk, OnOk, OnErr, option_map};
ghost use Rattle.elasticlunr_text.specs.Text.{text_of, texts_of, bytes_of};

use super::stage::Stage;
use std::alloc::{AllocError, Global};

/// Stages that each token passes one after the other.
#[derive(Drop)]
pub struct Pipeline {
    /// The stages, the first one first.
    pub queue: Vec<Stage>,
}

impl Pipeline {
    ghost use Rattle.elasticlunr_text.specs.Stages.{IsRun, IsRunOn, names_of};
    ghost use Rattle.elasticlunr_text.specs.Filtered.{MayFilterTo};

    /// The names of the stages, in order, as a printed index lists them.
    pub fn names(&self, alloc: Global) -> Result<Vec<String>, AllocError>
        ensures { IfOk result (λ names. bytes_of names.items ≡ names_of name_text self.now) }
    {
        let mut names = Vec::new(alloc);
        for stage in &self.queue {
            names.push(stage.name(alloc)?)?;
        }
        Ok(names)
    }

    /// What the stages make of one token.
    fn filter(&self, alloc: Global, token: String) -> Result<Option<String>, AllocError>
        ensures { IfOk result (λ left. MayFilterTo leaves self.now (text_of token)
            (option_map text_of left)) }
    {
        let mut token = token;
        for stage in &self.queue {
            match stage.filter(alloc, token)? {
                Some(left) => token = left,
                None => return Ok(None),
            }
        }
        Ok(Some(token))
    }

    /// Puts what the stages make of one more token after what was kept of others. A token that a
    /// stage drops adds nothing; one that a stage empties is added.
    pub fn run_on(
        &self,
        alloc: Global,
        token: String,
        kept: &mut Vec<String>,
    ) -> Result<(), AllocError>
        ensures ok { OnOk result (IsRunOn leaves self.now (text_of token) kept.old.items
            kept.new.items) }
        ensures err { OnErr result (kept.new.items ≡ kept.old.items) }
    {
        if let Some(left) = self.filter(alloc, token)? {
            kept.push(left)?;
        }
        Ok(())
    }

    /// What the stages make of each token, in order. A token that a stage drops is gone; one that
    /// a stage empties stays.
    pub fn run(&self, alloc: Global, tokens: Vec<String>) -> Result<Vec<String>, AllocError>
        ensures { IfOk result (λ left. IsRun leaves self.now (texts_of tokens.items)
            (texts_of left.items)) }
    {
        let mut kept = Vec::with_capacity(alloc, tokens.len())?;
        for token in tokens {
            self.run_on(alloc, token, &mut kept)?;
        }
        Ok(kept)
    }
}
