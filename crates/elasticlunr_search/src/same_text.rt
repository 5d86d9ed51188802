//! Tokens that are compared with those of a text.
ghost use Rattle.std.specs.Prelude.{◌≡◌, ◌++◌, ◌∷◌, [], ⊤, true, false, Some, All, IfOk};
ghost use Rattle.std.specs.Prelude.{option_map, decimal};
ghost use Rattle.json.specs.Lex.{tokens};
ghost use Rattle.json.specs.Reads.{token_of as json_token_of};
ghost use Rattle.json.specs.Token.{number};
ghost use Rattle.elasticlunr_json.specs.Tokens.{token_of, IsSmallToken};
ghost use Rattle.elasticlunr_search.specs.SameText.{taken};

use elasticlunr_json::{Token, Tokens};
use json::{Reader, Scratch};
use std::alloc::AllocError;
use std::marker::Model;

/// Takes the tokens of a text, one after another, and stops at the first one that the text has not
/// next. The stop is reported as out of memory, the one error that a printer has.
///
/// A clause sees the text and the tokens that the pipeline makes of it.
#[derive(Drop)]
pub(crate) struct SameText<'a> {
    text: &'a str,
    reader: Reader<'a>,
    differs: bool,
}

impl<'a> Model for SameText<'a> {
    ghost use Rattle.std.specs.Prelude.{◌≡◌, ◌++◌, ℕ, List, All, false};
    ghost use Rattle.std.specs.Coded.{coded×, coded_list, coded_ℕ};
    ghost use Rattle.json.specs.Lex.{tokens};
    ghost use Rattle.json.specs.Token.{Token as SpecToken, tokens_code};
    ghost use Rattle.elasticlunr_json.specs.Tokens.{IsSmallToken};
    ghost use Rattle.elasticlunr_search.specs.SameText.{taken};

    ghost Value = { List ℕ × List SpecToken };

    ghost coded = { coded× (coded_list coded_ℕ) tokens_code };

    ghost view = { λ a. (a.text.now, a.reader) };

    ghost invariant = { λ a. (tokens a.text.now ≡ taken a.text.now a.reader ++ a.reader)
        × (a.differs ≡ false → All IsSmallToken (taken a.text.now a.reader)) };
}

impl<'a> SameText<'a> {
    /// No token is taken yet.
    pub(crate) fn new(text: &'a str, scratch: &'a mut Scratch) -> Result<Self, AllocError>
        ensures { IfOk result (λ s. s ≡ (text.now, tokens text.now)) }
    {
        Ok(SameText {
            text,
            reader: Reader::new(text, scratch)?,
            differs: false,
        })
    }

    /// Whether a token was refused.
    pub(crate) fn differs(&self) -> bool {
        self.differs
    }

    /// Whether the tokens that were taken are all of this text.
    pub(crate) fn is_all_of(self, text: &str) -> bool
        ensures { result ≡ true → (tokens text.now ≡ taken self.entry.0 self.entry.1)
            × All IsSmallToken (tokens text.now) }
    {
        let SameText {
            text: of,
            mut reader,
            differs,
        } = self;
        !differs && reader.next().is_none() && of == text
    }
}

impl<'a> Tokens for SameText<'a> {
    ghost written = { λ s. taken s.0 s.1 };

    fn token(&mut self, token: Token<'_>) -> Result<(), AllocError> {
        if is_token(self.reader.next(), token) {
            return Ok(());
        }
        self.differs = true;
        Err(AllocError)
    }

    fn number(&mut self, n: u64) -> Result<(), AllocError> {
        if is_number(self.reader.next(), n) {
            return Ok(());
        }
        self.differs = true;
        Err(AllocError)
    }
}

/// Whether this token was found.
fn is_token(found: Option<json::Token<'_>>, token: Token<'_>) -> bool
    ensures { result ≡ true → option_map json_token_of found.entry ≡ Some (token_of token.entry) }
{
    match (found, token) {
        (Some(json::Token::BeginObject), Token::BeginObject) => true,
        (Some(json::Token::EndObject), Token::EndObject) => true,
        (Some(json::Token::BeginArray), Token::BeginArray) => true,
        (Some(json::Token::EndArray), Token::EndArray) => true,
        (Some(json::Token::Key(found)), Token::Key(text)) => found == text,
        (Some(json::Token::String(found)), Token::String(text)) => found == text,
        (Some(json::Token::Bool(found)), Token::Bool(value)) => found == value,
        _ => false,
    }
}

/// Whether the text of this number was found.
fn is_number(found: Option<json::Token<'_>>, n: u64) -> bool
    ensures { result ≡ true → option_map json_token_of found.entry ≡ Some (number (decimal n)) }
{
    match found {
        Some(json::Token::Number(text)) => itoa::Buffer::new().format(n) == text,
        _ => false,
    }
}
