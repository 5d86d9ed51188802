//! The entries of the pieces of the tries: tokens with their postings in each field.
ghost use Rattle.std.specs.Prelude.{◌≡◌, ◌++◌, ◌<◌, IfOk, OnOk, string_bytes, length};
ghost use Rattle.std.specs.Prelude.{slice_index_or, []};
ghost use Rattle.json.specs.Tree.{items_tokens};
ghost use Rattle.serde_json.specs.Written.{items_outline};
ghost use Rattle.elasticlunr_json.specs.Tokens.{WritesValue};
ghost use Rattle.elasticlunr_pieces.specs.Entries.{field_value, number_of};
ghost use Rattle.elasticlunr_pieces.specs.EntryTexts.{posting_tokens, token_texts, token_text_of};
ghost use Rattle.elasticlunr_pieces.specs.Numbers.{told_texts};

use crate::cut::Entries;
use crate::numbers::Numbers;
use elasticlunr_json::{CompactText, Token, Tokens};
use elasticlunr_trie::inverted_index::InvertedIndex;
use std::alloc::{AllocError, Global};

/// The tokens of tries, with the numbers of the references.
#[derive(Drop)]
pub(crate) struct TokenEntries<'a, 'b> {
    pub(crate) alloc: Global,
    pub(crate) tokens: &'b [String],
    pub(crate) tries: &'a [InvertedIndex],
    pub(crate) numbers: &'b Numbers<'a>,
}

impl Entries for TokenEntries<'_, '_> {
    ghost use Rattle.elasticlunr_error.specs.Text.{bytes_of};
    ghost use Rattle.elasticlunr_pieces.specs.EntryTexts.{token_texts};
    ghost use Rattle.elasticlunr_pieces.specs.Numbers.{told_texts};

    ghost texts = { λ e. token_texts (told_texts e.numbers.now.references.items) e.tries.now
        (bytes_of e.tokens.now) };

    fn count(&self) -> usize {
        self.tokens.len()
    }

    fn text(&self, at: usize) -> Result<String, AllocError> {
        token_text(self.alloc, self.tries, self.numbers, &self.tokens[at])
    }
}

// A token with its postings in each field, as a member of an object.
fn token_text(
    alloc: Global,
    tries: &[InvertedIndex],
    numbers: &Numbers<'_>,
    token: &str,
) -> Result<String, AllocError>
    ensures { IfOk result (λ text. string_bytes text
        ≡ token_text_of (told_texts numbers.now.references.items) tries.now token.now) }
{
    let mut out = CompactText::new(alloc)?;
    out.token(Token::Key(token))?;
    out.token(Token::BeginArray)?;
    for trie in tries {
        write_postings(alloc, trie, numbers, token, &mut out)?;
    }
    out.token(Token::EndArray)?;
    Ok(out.into_string())
}

// Writes the postings of a token in a field.
fn write_postings(
    alloc: Global,
    trie: &InvertedIndex,
    numbers: &Numbers<'_>,
    token: &str,
    out: &mut CompactText,
) -> Result<(), AllocError>
    ensures { OnOk result (WritesValue out.old out.new
        (field_value (told_texts numbers.now.references.items) trie.now token.now)) }
{
    let postings = trie.postings(alloc, token)?;
    out.token(Token::BeginArray)?;
    for posting in &postings {
        write_posting(numbers.number(posting.0), posting.1, out)?;
    }
    out.token(Token::EndArray)
}

// Writes the number of a reference and its frequency; nothing where it has no number.
fn write_posting(
    number: Option<usize>,
    frequency: u64,
    out: &mut CompactText,
) -> Result<(), AllocError>
    ensures { OnOk result (out.new ≡ out.old ++ posting_tokens number frequency) }
{
    match number {
        Some(number) => {
            out.number(number as u64)?;
            out.number(frequency)
        }
        None => Ok(()),
    }
}
