//! A trimmer of a class of characters.
ghost use Rattle.std.specs.Prelude.{◌≡◌, ◌⊎◌, ℕ, IfOk, IfErr, IsOk, IsOkUnless, Err, option_map};
ghost use Rattle.std.specs.Prelude.{string_bytes};
ghost use Rattle.std.specs.Str.{chars};
ghost use Rattle.elasticlunr_text.specs.Text.{text_of};
ghost use Rattle.elasticlunr_text.specs.ClassTexts.{Names, NamesNone};
ghost use Rattle.elasticlunr_text.specs.Classes.{in_scripts};
ghost use Rattle.elasticlunr_text.specs.Trimmers.{trimmer_name, keeps, cut_to_class};

use super::class::Class;
use super::class_text::ranges_of_text;
use super::ranges::Ranges;
use crate::IndexError;
use crate::pipeline::PipelineFn;
use std::alloc::{AllocError, Global};
use unicode::properties::Script;

/// Cuts off both ends of a token what is not of a class of characters; drops a token of which
/// nothing is left.
#[derive(Drop)]
pub struct RegexTrimmer {
    name: String,
    class: Class,
}

impl RegexTrimmer {
    /// The trimmer of the characters that a class text names.
    ///
    /// A class text is one or more items: a range `x-y`, a character that no `-` follows, or
    /// `\p{Name}`, the set that the crate `unicode` finds by that name. The characters of `\[]^-&~`
    /// never mean themselves. Every other text is `BadClass`.
    pub fn new(alloc: Global, name: &str, word_chars: &str) -> Result<Self, IndexError>
        ensures name { IfOk result (λ trimmer. trimmer_name trimmer ≡ name.now) }
        ensures class { IfOk result (λ trimmer. Names (chars word_chars.now) (keeps trimmer)) }
        ensures bad { result ≡ Err IndexError.BadClass → NamesNone (chars word_chars.now) }
        ensures errors { IfErr result (λ e. (e ≡ IndexError.BadClass) ⊎ (e ≡ IndexError.Memory)) }
    {
        let ranges = ranges_of_text(alloc, word_chars)?;
        let class = Class::Ranges(Ranges::new(alloc, ranges)?);
        let name = String::from_str(alloc, name)?;
        Ok(RegexTrimmer { name, class })
    }

    /// The trimmer of the characters of some scripts. No script gives the class without characters,
    /// whose trimmer drops every token.
    pub fn of_scripts(alloc: Global, name: &str, scripts: &[Script]) -> Result<Self, IndexError>
        ensures name { IfOk result (λ trimmer. trimmer_name trimmer ≡ name.now) }
        ensures class { IfOk result (λ trimmer. (c : ℕ) → keeps trimmer c
            ≡ in_scripts scripts.now c) }
        ensures memory { IsOkUnless result IndexError.Memory }
    {
        let class = Class::Scripts(Vec::from_slice(alloc, scripts)?);
        let name = String::from_str(alloc, name)?;
        Ok(RegexTrimmer { name, class })
    }

    /// Whether the character is of the class. In the ranges of a class text an ASCII character is
    /// looked up from the first range on, and any other one by binary search; of scripts, each is
    /// compared with that of the character. No memory is requested.
    pub fn contains(&self, c: char) -> bool
        ensures { result ≡ keeps self.now c }
    {
        self.class.contains(c)
    }

    /// A trimmer with the same name and the same class.
    pub fn clone(&self, alloc: Global) -> Result<Self, IndexError>
        ensures name { IfOk result (λ copy. trimmer_name copy ≡ trimmer_name self.now) }
        ensures class { IfOk result (λ copy. (c : ℕ) → keeps copy c ≡ keeps self.now c) }
        ensures memory { IsOkUnless result IndexError.Memory }
    {
        Ok(RegexTrimmer {
            name: self.name.clone()?,
            class: self.class.clone(alloc)?,
        })
    }
}

impl PipelineFn for RegexTrimmer {
    ghost name_text = { trimmer_name };

    ghost leaves = { cut_to_class };

    fn name(&self, _alloc: Global) -> Result<String, AllocError> {
        self.name.clone()
    }

    /// The token from its first to its last character of the class, `None` where there is none. It
    /// is cut in its own buffer: no memory is requested.
    fn filter(&self, _alloc: Global, token: String) -> Result<Option<String>, AllocError>
        ensures left { IfOk result (λ left. option_map text_of left
            ≡ cut_to_class self.now (text_of token)) }
        ensures always { IsOk result }
    {
        let left = self.class.cut(token);
        if left.is_empty() {
            return Ok(None);
        }
        Ok(Some(left))
    }
}
