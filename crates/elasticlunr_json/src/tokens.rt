//! What takes the tokens of a JSON text, and the two that print it: as compact text, and as
//! indented text.
ghost use Rattle.std.specs.Prelude.{◌≡◌, List, [], ◌∷◌, ◌++◌, OnOk, decimal};
ghost use Rattle.json.specs.Token.{Token as SpecToken, number};
ghost use Rattle.json.specs.Reads.{token_of as json_token_of};
ghost use Rattle.elasticlunr_json.specs.Tokens.{token_of, IsPlainToken};

mod compact_text;
mod pretty_text;

pub use compact_text::CompactText;
pub use pretty_text::PrettyText;
use std::alloc::AllocError;

/// A token of a JSON text that is no number.
#[derive(Clone, Copy)]
pub enum Token<'a> {
    BeginObject,
    EndObject,
    BeginArray,
    EndArray,
    Key(&'a str),
    String(&'a str),
    Bool(bool),
}

impl<'a> Token<'a> {
    // The token as the writers of the JSON crate take it.
    #[inline(always)]
    fn to_json(self) -> json::Token<'a>
        ensures same { json_token_of result ≡ token_of self.entry }
        ensures plain { IsPlainToken (json_token_of result) }
    {
        match self {
            Token::BeginObject => json::Token::BeginObject,
            Token::EndObject => json::Token::EndObject,
            Token::BeginArray => json::Token::BeginArray,
            Token::EndArray => json::Token::EndArray,
            Token::Key(text) => json::Token::Key(text),
            Token::String(text) => json::Token::String(text),
            Token::Bool(value) => json::Token::Bool(value),
        }
    }
}

/// Takes the tokens of a JSON text one after another. Both printers of a whole value go through it,
/// so each has one body.
///
/// `written` are the tokens so far. Numbers go through `number` alone, so each has 64 bits, and a
/// reader of JSON finds it again.
pub trait Tokens {
    ghost written: { Self → List SpecToken };

    fn token(&mut self, token: Token<'_>) -> Result<(), AllocError>
        ensures { OnOk result (written self.new ≡ written self.old ++ token_of token.entry ∷ []) };

    fn number(&mut self, n: u64) -> Result<(), AllocError>
        ensures { OnOk result (written self.new ≡ written self.old ++ number (decimal n) ∷ []) };
}
