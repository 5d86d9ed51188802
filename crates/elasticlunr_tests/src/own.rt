//! Custom functions, stages and tokenizers.
ghost use Rattle.std.specs.Prelude.{◌≡◌, ◌++◌, ◌∷◌, [], IfOk, None, Some, codes, option_map};
ghost use Rattle.std.specs.Prelude.{string_bytes, if◌then◌else◌};
ghost use Rattle.std.specs.Str.{bytes_eq, chars, encode_utf8_all};
ghost use Rattle.elasticlunr_text.specs.Text.{bytes_of, text_of};
ghost use Rattle.elasticlunr.specs.OneAnswer.{HasOneAnswer};

use crate::text_lists::repeated;
use elasticlunr::lang::{English, German};
use elasticlunr::pipeline::{FnWrapper, Pipeline, PipelineFn, Stage};
use elasticlunr::{ELASTICLUNR_VERSION, Index, IndexBuilder, IndexError};
use elasticlunr_site::{Page, search_index};
use elasticlunr_stem_languages::{german, hungarian};
use elasticlunr_stem_stage::{Language, Version, read_stemmer};
use elasticlunr_uses::custom::{Tokenize, index_with_tokenizer, whole};
use elasticlunr_uses::own::text_of_words;
use std::alloc::{AllocError, Global};
use std::process::Abort;
use std::test::Fail;

/// What the stage makes of a token: nothing of `x`, and else the token followed by `!`.
fn marked(_alloc: Global, mut token: String) -> Result<Option<String>, AllocError>
    ensures { IfOk result (λ left. option_map string_bytes left
        ≡ (if bytes_eq (string_bytes token) (codes "x") then None else Some
        (string_bytes token ++ codes "!"))) }
{
    if token.as_str() == "x" {
        return Ok(None);
    }
    token.push_str("!")?;
    Ok(Some(token))
}

/// The same, by its characters.
fn without_x(alloc: Global, token: String) -> Result<Option<String>, AllocError>
    ensures { IfOk result (λ left. option_map text_of left ≡ option_map chars
        (if bytes_eq (encode_utf8_all (text_of token)) (codes "x") then None
        else Some (encode_utf8_all (text_of token) ++ codes "!"))) }
{
    marked(alloc, token)
}

/// The same as an object.
#[derive(Drop)]
struct Mark {}

impl PipelineFn for Mark {
    ghost use Rattle.std.specs.Prelude.{◌++◌, None, Some, codes, option_map, if◌then◌else◌};
    ghost use Rattle.std.specs.Str.{bytes_eq, chars, encode_utf8_all};

    ghost name_text = { λ _. codes "dropx" };

    ghost leaves = { λ _ token. option_map chars
        (if bytes_eq (encode_utf8_all token) (codes "x") then None else Some (encode_utf8_all token ++ codes "!")) };

    fn name(&self, alloc: Global) -> Result<String, AllocError> {
        String::from_str(alloc, "dropx")
    }

    fn filter(&self, alloc: Global, token: String) -> Result<Option<String>, AllocError> {
        without_x(alloc, token)
    }
}

/// The text of an index with this pipeline and one document.
fn printed_with(alloc: Global, pipeline: Pipeline) -> Result<String, IndexError> {
    let mut index = IndexBuilder::<English>::new(alloc)?
        .with_pipeline(pipeline)
        .add_field("body")?
        .build()?;
    index.add_doc("1", &["x, y x y"])?;
    index.to_json()
}

const MARKED: &str =
    r#"{"documentStore":{"docInfo":{"1":{"body":2}},"docs":{"1":{"body":"x, y x y","id":"1"}},"length":1,"save":true},"fields":["body"],"index":{"body":{"root":{"df":0,"docs":{},"y":{"!":{"df":1,"docs":{"1":{"tf":1414213}}},"df":0,"docs":{}}}}},"lang":"English","pipeline":["trimmer","dropx"],"ref":"id","version":"0.9.5"}"#;

#[test]
fn a_function_is_a_stage(rt: HostRuntime) -> Result<(), Fail> {
    let alloc = rt.alloc();
    let wrapper = FnWrapper {
        name: String::from_str(alloc, "dropx")?,
        function: without_x,
    };
    let queue = vec![in alloc; Stage::EnglishTrimmer, Stage::Function(wrapper)]?;
    assert_eq!(rt; printed_with(alloc, Pipeline { queue })?.as_str(), MARKED);
    Ok(())
}

#[test]
fn an_object_is_a_stage(rt: HostRuntime) -> Result<(), Fail> {
    let alloc = rt.alloc();
    let own: Box<dyn PipelineFn> = Box::new(alloc, Mark {})?;
    let queue = vec![in alloc; Stage::EnglishTrimmer, Stage::Own(own)]?;
    assert_eq!(rt; printed_with(alloc, Pipeline { queue })?.as_str(), MARKED);
    Ok(())
}

/// The text of a German index of one document, with these stages.
fn printed_german(alloc: Global, pipeline: Pipeline) -> Result<String, IndexError> {
    let builder = IndexBuilder::with_language(alloc, German::new())?.with_pipeline(pipeline);
    let mut index = builder.add_field("body")?.build()?;
    index.add_doc("1", &["Häuser"])?;
    index.to_json()
}

// The language and the stages of German with stems.
const STEMMED_GERMAN: &str =
    r#""lang":"German","pipeline":["trimmer-de","stopWordFilter-de","stemmer-de"]"#;

// The trie of the word `haus` in document 1.
const HAUS: &str =
    r#""h":{"a":{"df":0,"docs":{},"u":{"df":0,"docs":{},"s":{"df":1,"docs":{"1":{"tf":1000000}}}}},"df":0,"docs":{}}"#;

#[test]
fn a_stage_stems_german_words(rt: HostRuntime) -> Result<(), Fail> {
    let alloc = rt.alloc();
    let stemmer = read_stemmer(alloc, Language::German, Version::Current)?;
    let queue = vec![in alloc; Stage::TableStemmer(stemmer)]?;
    let text = printed_german(alloc, Pipeline { queue })?;
    for part in [HAUS, r#""pipeline":["stemmer-de"]"#] {
        assert!(rt; text.as_str().contains(part), "{part}");
    }
    Ok(())
}

#[test]
fn a_language_stems_german_words(rt: HostRuntime) -> Result<(), Fail> {
    let alloc = rt.alloc();
    let mut index = Index::with_language(alloc, german(), &["body"])?;
    index.add_doc("1", &["Die Häuser"])?;
    let text = index.to_json()?;
    for part in [HAUS, STEMMED_GERMAN] {
        assert!(rt; text.as_str().contains(part), "{part}");
    }
    Ok(())
}

// The language and the stages of Hungarian with stems.
const STEMMED_HUNGARIAN: &str =
    r#""lang":"Hungarian","pipeline":["trimmer-hu","stopWordFilter-hu","stemmer-hu"]"#;

// The tries of an index in which document 1 has the word `ház` alone.
const HAZ: &str =
    r#""index":{"body":{"root":{"df":0,"docs":{},"h":{"df":0,"docs":{},"á":{"df":0,"docs":{},"z":{"df":1,"docs":{"1":{"tf":1414213}}}}}}}}"#;

#[test]
fn hungarian_has_stop_words_and_stems(rt: HostRuntime) -> Result<(), Fail> {
    let alloc = rt.alloc();
    let mut index = Index::with_language(alloc, hungarian(), &["body"])?;
    index.add_doc("1", &["A házak, azok a házak!"])?;
    let text = index.to_json()?;
    for part in [HAZ, STEMMED_HUNGARIAN] {
        assert!(rt; text.as_str().contains(part), "{part}");
    }
    Ok(())
}

#[test]
fn a_field_has_a_tokenizer(rt: HostRuntime) -> Result<(), Fail> {
    let alloc = rt.alloc();
    let tokenizer: Tokenize = Box::new(alloc, whole)?;
    let builder = IndexBuilder::new(alloc)?;
    let text = index_with_tokenizer(builder, tokenizer)?;
    for part in [
        r#""docInfo":{"1":{"body":2,"title":1}}"#,
        r#"" ":{"Y":{"df":0,"docs":{},"o":{"df":0,"docs":{},"r":{"df":0,"docs":{},"k":{"df":1,"docs":{"1":{"tf":1000000}}}}}},"df":0,"docs":{}}"#,
        r#""n":{"df":0,"docs":{},"e":{"df":0,"docs":{},"w":{"df":1,"docs":{"1":{"tf":1000000}}}}}"#,
    ] {
        assert!(rt; text.as_str().contains(part), "{part}");
    }
    Ok(())
}

/// Two tokens: the empty one and the whole text.
fn empty_and_whole(alloc: Global, text: &str) -> Result<Vec<String>, AllocError>
    ensures { IfOk result (λ tokens. bytes_of tokens.items ≡ [] ∷ text.now ∷ []) }
{
    let mut tokens = Vec::new(alloc);
    tokens.push(String::new(alloc))?;
    tokens.push(String::from_str(alloc, text)?)?;
    Ok(tokens)
}

/// The text of an index with no stages, this tokenizer and one document; whether the field knows
/// the value of the document, and whether it knows the longer text.
fn printed_bare(
    builder: IndexBuilder<English>,
    queue: Vec<Stage>,
    tokenizer: Tokenize,
    value: &str,
    longer: &str,
) -> Result<(String, bool, bool), IndexError>
    requires callable { Tokenize.IsAlwaysCallable tokenizer }
    requires one_answer { HasOneAnswer (Tokenize.post tokenizer) }
{
    let mut index = builder
        .with_pipeline(Pipeline { queue })
        .add_field_with_tokenizer("body", tokenizer)?
        .build()?;
    index.add_doc("1", &[value])?;
    let text = index.to_json()?;
    let (knows, knows_longer) = match index.inverted_index("body")? {
        Some(trie) => (trie.has_token(value), trie.has_token(longer)),
        None => (false, false),
    };
    Ok((text, knows, knows_longer))
}

#[test]
fn empty_tokens_count_and_have_no_posting(rt: HostRuntime) -> Result<(), Fail> {
    let alloc = rt.alloc();
    let tokenizer: Tokenize = Box::new(alloc, empty_and_whole)?;
    let builder = IndexBuilder::new(alloc)?;
    let (text, knows, knows_longer) = printed_bare(builder, Vec::new(alloc), tokenizer, "x", "xx")?;
    assert!(rt; knows && !knows_longer);
    for part in [
        r#""docInfo":{"1":{"body":2}}"#,
        r#""index":{"body":{"root":{"df":0,"docs":{},"x":{"df":1,"docs":{"1":{"tf":1000000}}}}}}"#,
        r#""pipeline":[]"#,
    ] {
        assert!(rt; text.as_str().contains(part), "{part}");
    }
    Ok(())
}

#[test]
fn a_tokenizer_gives_an_empty_token_and_a_long_one(rt: HostRuntime) -> Result<(), Fail> {
    let alloc = rt.alloc();
    let value = repeated(alloc, 'a', 1_000)?;
    let longer = repeated(alloc, 'a', 1_001)?;
    let tokenizer: Tokenize = Box::new(alloc, empty_and_whole)?;
    let builder = IndexBuilder::new(alloc)?;
    let (text, knows, knows_longer) = printed_bare(
        builder,
        Vec::new(alloc),
        tokenizer,
        &value,
        &longer,
    )?;
    assert!(rt; text.as_str().contains(r#""docInfo":{"1":{"body":2}}"#));
    assert!(rt; knows);
    assert!(rt; !knows_longer);
    Ok(())
}

#[test]
fn a_stage_and_a_language_work_together(rt: HostRuntime) -> Result<(), Fail> {
    let text = text_of_words(rt.alloc())?;
    for part in [
        r#""docInfo":{"1":{"about":3}}"#,
        r#""b":{"df":0,"docs":{},"i":{"df":0,"docs":{},"g":{"df":1,"docs":{"1":{"tf":1000000}}}}}"#,
        r#""lang":"Plain","pipeline":["trimmer","dropEmpty"]"#,
    ] {
        assert!(rt; text.as_str().contains(part), "{part}");
    }
    Ok(())
}

#[test]
fn a_version_stands_in_each_text(rt: HostRuntime) -> Result<(), Fail> {
    let page = Page {
        address: "page.html",
        texts: &["Titel", "Text"],
    };
    let text = search_index(rt.alloc(), &[page], &["draft.html"])?;
    assert_eq!(rt; ELASTICLUNR_VERSION, "0.9.5");
    assert!(rt; text.as_str().ends_with(r#","version":"0.9.5"}"#));
    Ok(())
}
