//! How deep the arrays and objects of a text nest.
ghost use Rattle.std.specs.Prelude.{◌≡◌, ◌<◌, ◌≤◌, ◌↔◌, IfOk, IsTrue};
ghost use Rattle.elasticlunr_search.specs.Levels.{levels, open_after};
ghost use Rattle.json.specs.Reads.{token_of};
ghost use Rattle.serde_json.specs.Read.{max_depth};

use json::{Reader, Scratch, Token};
use std::alloc::{AllocError, Global};

/// How deep `serde_json` reads.
pub(crate) const MAX_DEPTH: usize = 127;

/// Whether a text nests deeper than `serde_json` reads. It is read up to the place where it does.
pub(crate) fn nests_deeper(alloc: Global, text: &str) -> Result<bool, AllocError>
    ensures { IfOk result (λ deeper. IsTrue deeper ↔ (max_depth < levels text.now)) }
{
    let mut scratch = Scratch::new(alloc);
    let mut reader = Reader::new(text, &mut scratch)?;
    let mut depth = 0;
    'tokens: while let Some(token) = reader.next() {
        depth = depth_after(depth, token);
        if depth > MAX_DEPTH {
            return Ok(true);
        }
    }
    Ok(false)
}

/// How many arrays and objects are open after a token.
fn depth_after(depth: usize, token: Token<'_>) -> usize
    requires { depth ≤ max_depth }
    ensures { result ≡ open_after depth (token_of token.entry) }
{
    match token {
        Token::BeginObject | Token::BeginArray => depth + 1,
        Token::EndObject | Token::EndArray => depth.saturating_sub(1),
        _ => depth,
    }
}
