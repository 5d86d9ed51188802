//! The printer of compact text.
ghost use Rattle.std.specs.Prelude.{◌≡◌, [], All, IfOk, string_bytes};
ghost use Rattle.json.specs.Lex.{tokens};
ghost use Rattle.json.specs.Print.{print};
ghost use Rattle.elasticlunr_json.specs.Tokens.{IsSmallToken};

use super::{Token, Tokens};
use json::Writer;
use std::alloc::{AllocError, Global};
use std::marker::Model;

/// Prints tokens with no space between them.
///
/// A clause sees the tokens so far.
#[derive(Drop)]
pub struct CompactText {
    writer: Writer,
}

impl Model for CompactText {
    ghost use Rattle.std.specs.Prelude.{◌≡◌, List, [], All};
    ghost use Rattle.json.specs.Token.{Token as SpecToken, tokens_code};
    ghost use Rattle.elasticlunr_json.specs.Tokens.{IsSmallToken};

    ghost Value = { List SpecToken };

    ghost coded = { tokens_code };

    ghost view = { λ a. a.writer.tokens };

    ghost invariant = { λ a. (a.writer.before ≡ []) × All IsSmallToken a.writer.tokens };
}

impl CompactText {
    /// An empty text. It begins with room for 128 bytes.
    pub fn new(alloc: Global) -> Result<Self, AllocError>
        ensures { IfOk result (λ out. out ≡ []) }
    {
        Ok(CompactText {
            writer: Writer::new(Vec::with_capacity(alloc, 128)?),
        })
    }

    /// An empty text, with room for at least so many bytes. If memory for them is refused, it begins
    /// with room for 128.
    pub fn with_room(alloc: Global, bytes: usize) -> Result<Self, AllocError>
        ensures { IfOk result (λ out. out ≡ []) }
    {
        match Vec::with_capacity(alloc, bytes.max(128)) {
            Ok(room) => Ok(CompactText {
                writer: Writer::new(room),
            }),
            Err(_) => CompactText::new(alloc),
        }
    }

    /// The text, in which a reader finds the same tokens.
    pub fn into_string(self) -> String
        ensures text { string_bytes result ≡ print self }
        ensures read { tokens (string_bytes result) ≡ self }
        ensures small { All IsSmallToken self }
    {
        let CompactText { writer } = self;
        unsafe { String::from_utf8_unchecked(writer.into_inner()) }
    }
}

impl Tokens for CompactText {
    ghost written = { λ ts. ts };

    #[inline(always)]
    fn token(&mut self, token: Token<'_>) -> Result<(), AllocError> {
        self.writer.token(token.to_json())
    }

    #[inline(always)]
    fn number(&mut self, n: u64) -> Result<(), AllocError> {
        self.writer.u64(n)
    }
}
