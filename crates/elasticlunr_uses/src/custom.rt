//! A custom stage, language and tokenizer.

ghost use Rattle.std.specs.Prelude.{◌≡◌, ◌⊎◌, ◌∷◌, [], Err, IfErr, IfOk, IsTrue, codes};
ghost use Rattle.std.specs.Prelude.{string_bytes};
ghost use Rattle.elasticlunr.specs.AnyLanguage.TheVariants.{English as english};
ghost use Rattle.elasticlunr.specs.Builder.{chosen};
ghost use Rattle.elasticlunr.specs.Choices.{beginning, fields_plan};
ghost use Rattle.elasticlunr.specs.Documents.{IsDocument};
ghost use Rattle.elasticlunr.specs.Fields.{has_name};
ghost use Rattle.elasticlunr.specs.History.{Document, none, ◌▸◌, add};
ghost use Rattle.elasticlunr.specs.IndexError.TheVariants.{DuplicateField, Memory};
ghost use Rattle.elasticlunr.specs.Known.{language_name, language_stages};
ghost use Rattle.elasticlunr.specs.OneAnswer.{HasOneAnswer};
ghost use Rattle.elasticlunr.specs.Printed.{IsPrintOf};
ghost use Rattle.elasticlunr.specs.Text.{bytes_of};
ghost use Rattle.elasticlunr.specs.Tokenizers.{Answers};
ghost use Rattle.elasticlunr_uses.specs.Titles.{ReadsTitles};

use elasticlunr::lang::{English, tokenize_whitespace};
use elasticlunr::pipeline::{Pipeline, PipelineFn, Stage};
use elasticlunr::{IndexBuilder, IndexError, Language};
use std::alloc::{AllocError, Global};

/// A stage: drops what the trimmer has emptied.
#[derive(Drop)]
pub struct DropEmpty {}

impl PipelineFn for DropEmpty {
    ghost use Rattle.std.specs.Prelude.{codes};
    ghost use Rattle.elasticlunr.specs.Trimmed.{unless_empty};

    ghost name_text = { λ _. codes "dropEmpty" };

    ghost leaves = { λ _. unless_empty };

    fn name(&self, alloc: Global) -> Result<String, AllocError> {
        String::from_str(alloc, "dropEmpty")
    }

    fn filter(&self, _alloc: Global, token: String) -> Result<Option<String>, AllocError> {
        if token.is_empty() {
            return Ok(None);
        }
        Ok(Some(token))
    }
}

/// A language: words in lower case, of which all stay as they are.
#[derive(Drop)]
pub struct Plain {}

impl Language for Plain {
    ghost use Rattle.std.specs.Prelude.{◌≡◌, ◌∷◌, [], Some, codes};
    ghost use Rattle.elasticlunr.specs.Words.{words};

    ghost name_of = { λ _. codes "Plain" };

    ghost code_of = { λ _. codes "xx" };

    ghost tokens_of = { λ _. words };

    ghost stages_of = { λ _. codes "keep" ∷ [] };

    ghost leaves_of = { λ _ token left. left ≡ Some token };

    fn name(&self, alloc: Global) -> Result<String, AllocError> {
        String::from_str(alloc, "Plain")
    }

    fn code(&self, alloc: Global) -> Result<String, AllocError> {
        String::from_str(alloc, "xx")
    }

    fn tokenize(&self, alloc: Global, text: &str) -> Result<Vec<String>, AllocError> {
        tokenize_whitespace(alloc, text)
    }

    fn make_pipeline(&self, alloc: Global, empty: Pipeline) -> Result<Pipeline, AllocError> {
        let mut pipeline = empty;
        let keep = String::from_str(alloc, "keep")?;
        pipeline.queue = vec![in alloc; Stage::Keep(keep)]?;
        Ok(pipeline)
    }
}

/// What makes tokens of a field's text.
pub type Tokenize = Box<dyn Fn(Global, &str) -> Result<Vec<String>, AllocError>>;

/// A tokenizer: the text is one token.
pub fn whole(alloc: Global, text: &str) -> Result<Vec<String>, AllocError>
    ensures { IfOk result (λ tokens. bytes_of tokens.items ≡ text.now ∷ []) }
{
    let mut tokens = Vec::new(alloc);
    tokens.push(String::from_str(alloc, text)?)?;
    Ok(tokens)
}

/// The text of an index of titles, of which a tokenizer makes the tokens, and of bodies. Proved of
/// a builder to which nothing was given yet: the text is that of one document, whose title has what
/// English makes of the tokenizer's tokens, and whose body has what it makes of words.
pub fn index_with_tokenizer(
    builder: IndexBuilder<English>,
    tokenizer: Tokenize,
) -> Result<String, IndexError>
    requires callable { Tokenize.IsAlwaysCallable tokenizer }
    requires one_answer { HasOneAnswer (Tokenize.post tokenizer) }
    ensures duplicate { result ≡ Err DuplicateField
        → IsTrue (has_name (codes "title") (chosen builder).fields)
        ⊎ IsTrue (has_name (codes "body") (chosen builder).fields) }
    ensures errors { IfErr result (λ e. (e ≡ DuplicateField) ⊎ (e ≡ Memory)) }
    ensures text { (language : English) → chosen builder ≡ beginning language
        → IfOk result (λ text. (document : Document)
        × IsPrintOf (fields_plan (language_name english) (language_stages english)
        (codes "title" ∷ codes "body" ∷ []))
        (none ▸ add document) (string_bytes text)
        × IsDocument (codes "title" ∷ codes "body" ∷ []) (codes "id")
        (ReadsTitles (Answers (Tokenize.post tokenizer)))
        (codes "1") (codes "New York" ∷ codes "New York" ∷ []) document) }
{
    let mut index = builder
        .add_field_with_tokenizer("title", tokenizer)?
        .add_field("body")?
        .build()?;
    index.add_doc("1", &["New York", "New York"])?;
    index.to_json()
}
