//! Which words of a text a query finds.
ghost use Rattle.std.specs.Prelude.{◌≡◌, ℕ, IfOk, IfErr};
ghost use Rattle.elasticlunr_text.specs.Text.{texts_of};
ghost use Rattle.elasticlunr.specs.Reading.{LanguageReads};
ghost use Rattle.elasticlunr_search.specs.FoundWords.{has_asked, is_answer, is_asked};
ghost use Rattle.elasticlunr_search.specs.FoundWords.{IsFoundWord};
ghost use Rattle.elasticlunr_search.specs.Query.{AreTokensOf};
ghost use Rattle.elasticlunr_search.specs.declared.error.SearchError.TheVariants.{Memory};

use crate::error::SearchError;
use crate::searcher::Searcher;
use elasticlunr_lang::Language;

impl<L: Language> Searcher<L> {
    ghost use Rattle.elasticlunr_search.specs.Standing.{Speaks};

    /// The tokens of a query: what the language makes of it and its pipeline outputs, without empty
    /// ones. They are what a search looks up.
    pub fn query_tokens(&self, query: &str) -> Result<Vec<String>, SearchError>
        ensures tokens { IfOk result (λ tokens. (language : L) (i : ℕ)
            → Speaks L.leaves_of leaves self.now language
            → AreTokensOf (LanguageReads (L.tokens_of language) (L.leaves_of language)) i query.now
            (texts_of tokens.items)) }
        ensures errors { IfErr result (λ e. e ≡ Memory) }
    {
        let tokens = self.tokens(query)?;
        Ok(tokens)
    }

    /// Whether a word of a text has one of these tokens, or with `expand` a token that begins with
    /// one.
    pub fn is_found_word(
        &self,
        tokens: &[String],
        expand: bool,
        word: &str,
    ) -> Result<bool, SearchError>
        ensures found { IfOk result (λ is_found. (language : L) (i : ℕ)
            → Speaks L.leaves_of leaves self.now language
            → IsFoundWord (LanguageReads (L.tokens_of language) (L.leaves_of language)) i expand
            tokens.now word.now is_found) }
        ensures errors { IfErr result (λ e. e ≡ Memory) }
    {
        let own = self.query_tokens(word)?;
        Ok(has_asked(tokens, expand, &own))
    }
}

/// Whether one of a word's tokens is asked for.
fn has_asked(tokens: &[String], expand: bool, own: &[String]) -> bool
    ensures { result ≡ has_asked expand tokens.now own.now }
{
    own.iter()
        .any(|token| is_asked(tokens, expand, token.as_str()))
}

/// Whether a token is one of these, or with `expand` begins with one.
fn is_asked(tokens: &[String], expand: bool, token: &str) -> bool
    ensures { result ≡ is_asked expand tokens.now token.now }
{
    tokens
        .iter()
        .any(|asked| is_answer(asked.as_str(), expand, token))
}

/// Whether a token is this one, or with `expand` begins with it.
fn is_answer(asked: &str, expand: bool, token: &str) -> bool
    ensures { result ≡ is_answer expand asked.now token.now }
{
    if expand {
        token.as_bytes().starts_with(asked.as_bytes())
    } else {
        token == asked
    }
}
