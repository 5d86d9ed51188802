//! Searches of what no index of the library's own languages prints: an index with a stage of the
//! user's own, one with a tokenizer, one with stems, and one that elasticlunr.js printed; and of an
//! index that nests deeper than a JSON value is read.
use crate::text_lists::repeated;
use elasticlunr::lang::{AnyLanguage, English};
use elasticlunr::pipeline::{Pipeline, PipelineFn, Stage};
use elasticlunr::{Index, IndexBuilder};
use elasticlunr_search::named::read_named;
use elasticlunr_search::{Join, SearchError, Searcher};
use elasticlunr_stem_stage::language_pipeline;
use elasticlunr_uses::custom::{DropEmpty, Plain, Tokenize, index_with_tokenizer, whole};
use elasticlunr_uses::own::text_of_words;
use std::test::Fail;

#[test]
fn an_index_is_searched_by_the_stages_that_it_was_built_with(rt: HostRuntime) -> Result<(), Fail> {
    let alloc = rt.alloc();
    let text = text_of_words(alloc)?;
    let own: Box<dyn PipelineFn> = Box::new(alloc, DropEmpty {})?;
    let queue = vec![in alloc; Stage::EnglishTrimmer, Stage::Own(own)]?;
    let searcher = Searcher::with_pipeline(alloc, Plain {}, Pipeline { queue }, text.as_str())?;
    assert_eq!(rt; searcher.find_all("about", "big? (APPLE) ...")?.len(), 1);
    assert_eq!(rt; searcher.find_all("about", "big pear")?.len(), 0);
    assert_eq!(rt;
        Searcher::read(alloc, Plain {}, text.as_str()).err(),
        Some(SearchError::OtherPipeline)
    );
    Ok(())
}

#[test]
fn tokens_of_the_callers_own_are_found(rt: HostRuntime) -> Result<(), Fail> {
    let alloc = rt.alloc();
    let tokenizer: Tokenize = Box::new(alloc, whole)?;
    let text = index_with_tokenizer(IndexBuilder::new(alloc)?, tokenizer)?;
    let searcher = Searcher::read(alloc, English::new(), text.as_str())?;
    let tokens = whole(alloc, "New York")?;
    assert_eq!(rt; searcher.find_tokens(Join::All, "title", &tokens)?.len(), 1);
    assert_eq!(rt; searcher.find_tokens(Join::Any, "body", &tokens)?.len(), 0);
    assert_eq!(rt; searcher.find_any("title", "New York")?.len(), 0);
    Ok(())
}

#[test]
fn an_index_with_stems_is_searched_by_what_it_names(rt: HostRuntime) -> Result<(), Fail> {
    let alloc = rt.alloc();
    let pipeline = language_pipeline(alloc, AnyLanguage::German, true)?;
    let builder = IndexBuilder::with_language(alloc, AnyLanguage::German)?;
    let mut index = builder.with_pipeline(pipeline).add_field("body")?.build()?;
    index.add_doc("1", &["Häuser in der Stadt"])?;
    let text = index.to_json()?;
    let found = match read_named(alloc, text.as_str()) {
        Ok(searcher) => searcher.find_any("body", "Haus")?.len(),
        Err(_) => 0,
    };
    assert_eq!(rt; found, 1);
    assert_eq!(rt;
        Searcher::read(alloc, AnyLanguage::German, text.as_str()).err(),
        Some(SearchError::OtherPipeline)
    );
    Ok(())
}

/// As elasticlunr.js prints it: with square roots as frequencies.
const FOREIGN: &str =
    r#"{"version":"0.9.5","fields":["title","body"],"ref":"id","documentStore":{"docs":{"7":{"id":"7","title":"go","body":"on on"}},"docInfo":{"7":{"title":1,"body":2}},"length":1,"save":true},"index":{"title":{"root":{"docs":{},"df":0,"g":{"docs":{},"df":0,"o":{"docs":{"7":{"tf":1}},"df":1}}}},"body":{"root":{"docs":{},"df":0,"o":{"docs":{},"df":0,"n":{"docs":{"7":{"tf":1.4142135623730951}},"df":1}}}}},"pipeline":["all"]}"#;

#[test]
fn fractions_are_frequencies(rt: HostRuntime) -> Result<(), Fail> {
    let alloc = rt.alloc();
    let stage = Stage::Keep(String::from_str(alloc, "all")?);
    let queue = vec![in alloc; stage]?;
    let searcher = Searcher::with_pipeline(alloc, Plain {}, Pipeline { queue }, FOREIGN)?;
    assert_eq!(rt; searcher.find_any("body", "on")?.len(), 1);
    assert_eq!(rt; searcher.find_across(&["title", "body"], "go on")?.len(), 1);
    assert_eq!(rt;
        searcher
            .find_in(Join::All, &["title", "body"], "go on")?
            .len(),
        0
    );
    Ok(())
}

#[test]
fn an_index_with_a_long_token_is_searched(rt: HostRuntime) -> Result<(), Fail> {
    let alloc = rt.alloc();
    let token = repeated(alloc, 'b', 1_000)?;
    let mut index = Index::new(alloc, &["body"])?;
    index.add_doc("1", &[token.as_str()])?;
    index.add_doc("2", &["a fox"])?;
    let text = index.to_json()?;
    let searcher = Searcher::read(alloc, English::new(), text.as_str())?;
    assert_eq!(rt; searcher.find_all("body", token.as_str())?.len(), 1);
    assert_eq!(rt; searcher.find_all("body", "fox")?.len(), 1);
    // The token stays in the trie, with no posting.
    index.remove_doc("1")?;
    let text = index.to_json()?;
    let searcher = Searcher::read(alloc, English::new(), text.as_str())?;
    assert_eq!(rt; searcher.find_all("body", token.as_str())?.len(), 0);
    assert_eq!(rt; searcher.find_all("body", "fox")?.len(), 1);
    Ok(())
}

#[test]
fn a_pretty_index_with_a_long_token_is_searched(rt: HostRuntime) -> Result<(), Fail> {
    let alloc = rt.alloc();
    let token = repeated(alloc, 'b', 150)?;
    let mut index = Index::new(alloc, &["body"])?;
    index.add_doc("1", &[token.as_str()])?;
    let text = index.to_json_pretty()?;
    let searcher = Searcher::read(alloc, English::new(), text.as_str())?;
    assert_eq!(rt; searcher.find_all("body", token.as_str())?.len(), 1);
    Ok(())
}

#[test]
fn a_text_that_no_index_printed_may_not_nest_as_deep(rt: HostRuntime) -> Result<(), Fail> {
    let alloc = rt.alloc();
    let text = repeated(alloc, '[', 127)?;
    let deeper = repeated(alloc, '[', 128)?;
    assert_eq!(rt;
        Searcher::read(alloc, English::new(), text.as_str()).err(),
        Some(SearchError::NotRead)
    );
    assert_eq!(rt;
        Searcher::read(alloc, English::new(), deeper.as_str()).err(),
        Some(SearchError::TooDeep)
    );
    Ok(())
}
