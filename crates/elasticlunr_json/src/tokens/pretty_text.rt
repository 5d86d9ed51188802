//! The printer of indented text.
ghost use Rattle.std.specs.Prelude.{◌≡◌, [], All, string_bytes};
ghost use Rattle.json.specs.Lex.{tokens};
ghost use Rattle.json.specs.Layout.{pretty};
ghost use Rattle.elasticlunr_json.specs.Tokens.{IsSmallToken};

use super::{Token, Tokens};
use json::Pretty;
use std::alloc::{AllocError, Global};
use std::marker::Model;

/// Prints tokens with a line for each item and each member.
///
/// A clause sees the tokens so far.
#[derive(Drop)]
pub struct PrettyText {
    writer: Pretty,
}

impl Model for PrettyText {
    ghost use Rattle.std.specs.Prelude.{List, All};
    ghost use Rattle.json.specs.Token.{Token as SpecToken, tokens_code};
    ghost use Rattle.elasticlunr_json.specs.Tokens.{IsSmallToken};

    ghost Value = { List SpecToken };

    ghost coded = { tokens_code };

    ghost view = { λ a. a.writer };

    ghost invariant = { λ a. All IsSmallToken a.writer };
}

impl PrettyText {
    /// An empty text. It does not allocate; later calls take it from this allocator.
    pub fn new(alloc: Global) -> Self
        ensures { result ≡ [] }
    {
        PrettyText {
            writer: Pretty::new(alloc),
        }
    }

    /// The text, in which a reader finds the same tokens.
    pub fn into_string(self) -> String
        ensures text { string_bytes result ≡ pretty self }
        ensures read { tokens (string_bytes result) ≡ self }
        ensures small { All IsSmallToken self }
    {
        let PrettyText { writer } = self;
        unsafe { String::from_utf8_unchecked(writer.into_inner()) }
    }
}

impl Tokens for PrettyText {
    ghost written = { λ ts. ts };

    #[inline(always)]
    fn token(&mut self, token: Token<'_>) -> Result<(), AllocError> {
        self.writer.token(token.to_json())
    }

    #[inline(always)]
    fn number(&mut self, n: u64) -> Result<(), AllocError> {
        let mut buffer = itoa::Buffer::new();
        self.writer.token(json::Token::Number(buffer.format(n)))
    }
}
