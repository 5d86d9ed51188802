//! Classes of characters.
ghost use Rattle.std.specs.Prelude.{◌≡◌, ℕ, IfOk};
ghost use Rattle.std.specs.Str.{chars};
ghost use Rattle.elasticlunr_text.specs.Text.{text_of};
ghost use Rattle.elasticlunr_text.specs.Trimmed.{from_first, up_to_last, trimmed};

use super::ranges::Ranges;
use super::word_chars::{has_script, is_word_char};
use std::alloc::{AllocError, Global};
use unicode::properties::Script;

/// A class of characters.
#[derive(Drop)]
pub enum Class {
    /// The characters of the ranges.
    Ranges(Ranges),
    /// The characters of the scripts.
    Scripts(Vec<Script>),
    /// ASCII letters, ASCII digits and the underscore.
    Word,
}

impl Class {
    ghost use Rattle.elasticlunr_text.specs.Classes.{in_class};

    /// Whether the character is in the class.
    pub fn contains(&self, c: char) -> bool
        ensures { result ≡ in_class self.now c }
    {
        match self {
            Class::Ranges(ranges) => ranges.contains(c),
            Class::Scripts(scripts) => has_script(scripts.as_slice(), c),
            Class::Word => is_word_char(c),
        }
    }

    /// The text from its first character in the class on.
    fn from_first<'a>(&self, text: &'a str) -> &'a str
        ensures { chars result.now ≡ from_first (in_class self.now) (chars text.now) }
    {
        text.trim_start_matches(|c| !self.contains(c))
    }

    /// The text up to its last character in the class.
    fn up_to_last<'a>(&self, text: &'a str) -> &'a str
        ensures { chars result.now ≡ up_to_last (in_class self.now) (chars text.now) }
    {
        text.trim_end_matches(|c| !self.contains(c))
    }

    /// The token loses what stands before its first character in the class.
    fn cut_beginning(&self, token: &mut String)
        ensures { text_of token.new ≡ from_first (in_class self.now) (text_of token.old) }
    {
        let kept = self.from_first(token.as_str()).len();
        let cut = token.len() - kept;
        if cut > 0 {
            token.replace_range(..cut, "").unwrap();
        }
    }

    /// The token loses what stands after its last character in the class.
    fn cut_end(&self, token: &mut String)
        ensures { text_of token.new ≡ up_to_last (in_class self.now) (text_of token.old) }
    {
        let kept = self.up_to_last(token.as_str()).len();
        token.truncate(kept);
    }

    /// The token from its first to its last character in the class, cut in its own buffer: no
    /// memory is requested. One pass from each end, up to the first character that stays.
    pub fn cut(&self, token: String) -> String
        ensures { text_of result ≡ trimmed (in_class self.now) (text_of token) }
    {
        let mut token = token;
        self.cut_beginning(&mut token);
        self.cut_end(&mut token);
        token
    }

    /// A class with the same characters.
    pub fn clone(&self, alloc: Global) -> Result<Self, AllocError>
        ensures { IfOk result (λ copy. (c : ℕ) → in_class copy c ≡ in_class self.now c) }
    {
        Ok(match self {
            Class::Ranges(ranges) => Class::Ranges(ranges.clone()?),
            Class::Scripts(scripts) => Class::Scripts(Vec::from_slice(alloc, scripts.as_slice())?),
            Class::Word => Class::Word,
        })
    }
}
