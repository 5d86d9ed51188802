//! What the uses of the library give.
use elasticlunr::lang::{AnyLanguage, English};
use elasticlunr::{IndexBuilder, IndexError};
use elasticlunr_uses::custom::{index_with_tokenizer, whole};
use elasticlunr_uses::error::UseError;
use elasticlunr_uses::first::first_index;
use elasticlunr_uses::found::built_printed_found;
use elasticlunr_uses::order::{in_either_order, in_order};
use elasticlunr_uses::own::text_of_words;
use elasticlunr_uses::page::Page;
use elasticlunr_uses::ranked::ranked_in_text;
use elasticlunr_uses::update::updated_and_new;
use std::alloc::{AllocError, Global};

/// What each gives, a line each.
const LINES: &str =
    r##"{"documentStore":{"docInfo":{"1":{"body":1}},"docs":{"1":{"body":"go","id":"1"}},"length":1,"save":true},"fields":["body"],"index":{"body":{"root":{"df":0,"docs":{},"g":{"df":0,"docs":{},"o":{"df":1,"docs":{"1":{"tf":1000000}}}}}}},"lang":"English","pipeline":["trimmer","stopWordFilter","stemmer"],"ref":"id","version":"0.9.5"}
search
{"documentStore":{"docInfo":{"guide":{"body":3},"search":{"body":4}},"docs":{"guide":{"body":"Copy the folder into your site.","id":"guide"},"search":{"body":"Readers find pages by their words.","id":"search"}},"length":2,"save":true},"fields":["body"],"index":{"body":{"root":{"c":{"df":0,"docs":{},"o":{"df":0,"docs":{},"p":{"df":0,"docs":{},"i":{"df":1,"docs":{"guide":{"tf":1000000}}}}}},"df":0,"docs":{},"f":{"df":0,"docs":{},"i":{"df":0,"docs":{},"n":{"d":{"df":1,"docs":{"search":{"tf":1000000}}},"df":0,"docs":{}}},"o":{"df":0,"docs":{},"l":{"d":{"df":0,"docs":{},"e":{"df":0,"docs":{},"r":{"df":1,"docs":{"guide":{"tf":1000000}}}}},"df":0,"docs":{}}}},"p":{"a":{"df":0,"docs":{},"g":{"df":0,"docs":{},"e":{"df":1,"docs":{"search":{"tf":1000000}}}}},"df":0,"docs":{}},"r":{"df":0,"docs":{},"e":{"a":{"d":{"df":0,"docs":{},"e":{"df":0,"docs":{},"r":{"df":1,"docs":{"search":{"tf":1000000}}}}},"df":0,"docs":{}},"df":0,"docs":{}}},"s":{"df":0,"docs":{},"i":{"df":0,"docs":{},"t":{"df":0,"docs":{},"e":{"df":1,"docs":{"guide":{"tf":1000000}}}}}},"w":{"df":0,"docs":{},"o":{"df":0,"docs":{},"r":{"d":{"df":1,"docs":{"search":{"tf":1000000}}},"df":0,"docs":{}}}}}}},"lang":"English","pipeline":["trimmer","stopWordFilter","stemmer"],"ref":"id","version":"0.9.5"}
{"documentStore":{"docInfo":{"guide":{"body":3},"search":{"body":4}},"docs":{"guide":{"body":"Copy the folder into your site.","id":"guide"},"search":{"body":"Readers find pages by their words.","id":"search"}},"length":2,"save":true},"fields":["body"],"index":{"body":{"root":{"c":{"df":0,"docs":{},"o":{"df":0,"docs":{},"p":{"df":0,"docs":{},"i":{"df":1,"docs":{"guide":{"tf":1000000}}}}}},"df":0,"docs":{},"f":{"df":0,"docs":{},"i":{"df":0,"docs":{},"n":{"d":{"df":1,"docs":{"search":{"tf":1000000}}},"df":0,"docs":{}}},"o":{"df":0,"docs":{},"l":{"d":{"df":0,"docs":{},"e":{"df":0,"docs":{},"r":{"df":1,"docs":{"guide":{"tf":1000000}}}}},"df":0,"docs":{}}}},"p":{"a":{"df":0,"docs":{},"g":{"df":0,"docs":{},"e":{"df":1,"docs":{"search":{"tf":1000000}}}}},"df":0,"docs":{}},"r":{"df":0,"docs":{},"e":{"a":{"d":{"df":0,"docs":{},"e":{"df":0,"docs":{},"r":{"df":1,"docs":{"search":{"tf":1000000}}}}},"df":0,"docs":{}},"df":0,"docs":{}}},"s":{"df":0,"docs":{},"i":{"df":0,"docs":{},"t":{"df":0,"docs":{},"e":{"df":1,"docs":{"guide":{"tf":1000000}}}}}},"w":{"df":0,"docs":{},"o":{"df":0,"docs":{},"r":{"d":{"df":1,"docs":{"search":{"tf":1000000}}},"df":0,"docs":{}}}}}}},"lang":"English","pipeline":["trimmer","stopWordFilter","stemmer"],"ref":"id","version":"0.9.5"}
{"documentStore":{"docInfo":{"guide":{"body":3},"search":{"body":3}},"docs":{"guide":{"body":"Copy the folder into your site.","id":"guide"},"search":{"body":"Words find pages.","id":"search"}},"length":2,"save":true},"fields":["body"],"index":{"body":{"root":{"c":{"df":0,"docs":{},"o":{"df":0,"docs":{},"p":{"df":0,"docs":{},"i":{"df":1,"docs":{"guide":{"tf":1000000}}}}}},"df":0,"docs":{},"f":{"df":0,"docs":{},"i":{"df":0,"docs":{},"n":{"d":{"df":1,"docs":{"search":{"tf":1000000}}},"df":0,"docs":{}}},"o":{"df":0,"docs":{},"l":{"d":{"df":0,"docs":{},"e":{"df":0,"docs":{},"r":{"df":1,"docs":{"guide":{"tf":1000000}}}}},"df":0,"docs":{}}}},"p":{"a":{"df":0,"docs":{},"g":{"df":0,"docs":{},"e":{"df":1,"docs":{"search":{"tf":1000000}}}}},"df":0,"docs":{}},"s":{"df":0,"docs":{},"i":{"df":0,"docs":{},"t":{"df":0,"docs":{},"e":{"df":1,"docs":{"guide":{"tf":1000000}}}}}},"w":{"df":0,"docs":{},"o":{"df":0,"docs":{},"r":{"d":{"df":1,"docs":{"search":{"tf":1000000}}},"df":0,"docs":{}}}}}}},"lang":"English","pipeline":["trimmer","stopWordFilter","stemmer"],"ref":"id","version":"0.9.5"}
{"documentStore":{"docInfo":{"guide":{"body":3},"search":{"body":3}},"docs":{"guide":{"body":"Copy the folder into your site.","id":"guide"},"search":{"body":"Words find pages.","id":"search"}},"length":2,"save":true},"fields":["body"],"index":{"body":{"root":{"c":{"df":0,"docs":{},"o":{"df":0,"docs":{},"p":{"df":0,"docs":{},"i":{"df":1,"docs":{"guide":{"tf":1000000}}}}}},"df":0,"docs":{},"f":{"df":0,"docs":{},"i":{"df":0,"docs":{},"n":{"d":{"df":1,"docs":{"search":{"tf":1000000}}},"df":0,"docs":{}}},"o":{"df":0,"docs":{},"l":{"d":{"df":0,"docs":{},"e":{"df":0,"docs":{},"r":{"df":1,"docs":{"guide":{"tf":1000000}}}}},"df":0,"docs":{}}}},"p":{"a":{"df":0,"docs":{},"g":{"df":0,"docs":{},"e":{"df":1,"docs":{"search":{"tf":1000000}}}}},"df":0,"docs":{}},"s":{"df":0,"docs":{},"i":{"df":0,"docs":{},"t":{"df":0,"docs":{},"e":{"df":1,"docs":{"guide":{"tf":1000000}}}}}},"w":{"df":0,"docs":{},"o":{"df":0,"docs":{},"r":{"d":{"df":1,"docs":{"search":{"tf":1000000}}},"df":0,"docs":{}}}}}}},"lang":"English","pipeline":["trimmer","stopWordFilter","stemmer"],"ref":"id","version":"0.9.5"}
{"documentStore":{"docInfo":{"1":{"about":3}},"docs":{"1":{"about":"The \"Big Apple\" ...","id":"1"}},"length":1,"save":true},"fields":["about"],"index":{"about":{"root":{"a":{"df":0,"docs":{},"p":{"df":0,"docs":{},"p":{"df":0,"docs":{},"l":{"df":0,"docs":{},"e":{"df":1,"docs":{"1":{"tf":1000000}}}}}}},"b":{"df":0,"docs":{},"i":{"df":0,"docs":{},"g":{"df":1,"docs":{"1":{"tf":1000000}}}}},"df":0,"docs":{},"t":{"df":0,"docs":{},"h":{"df":0,"docs":{},"e":{"df":1,"docs":{"1":{"tf":1000000}}}}}}}},"lang":"Plain","pipeline":["trimmer","dropEmpty"],"ref":"id","version":"0.9.5"}
{"documentStore":{"docInfo":{"1":{"body":2,"title":1}},"docs":{"1":{"body":"New York","id":"1","title":"New York"}},"length":1,"save":true},"fields":["title","body"],"index":{"body":{"root":{"df":0,"docs":{},"n":{"df":0,"docs":{},"e":{"df":0,"docs":{},"w":{"df":1,"docs":{"1":{"tf":1000000}}}}},"y":{"df":0,"docs":{},"o":{"df":0,"docs":{},"r":{"df":0,"docs":{},"k":{"df":1,"docs":{"1":{"tf":1000000}}}}}}}},"title":{"root":{"N":{"df":0,"docs":{},"e":{"df":0,"docs":{},"w":{" ":{"Y":{"df":0,"docs":{},"o":{"df":0,"docs":{},"r":{"df":0,"docs":{},"k":{"df":1,"docs":{"1":{"tf":1000000}}}}}},"df":0,"docs":{}},"df":0,"docs":{}}}},"df":0,"docs":{}}}},"lang":"English","pipeline":["trimmer","stopWordFilter","stemmer"],"ref":"id","version":"0.9.5"}
"##;

#[test]
fn each_use_gives_its_lines(rt: HostRuntime) {
    let text = match lines(rt.alloc()) {
        Ok(text) => text,
        Err(_) => String::new(rt.alloc()),
    };
    assert!(rt; text.as_str() == LINES);
}

#[test]
fn the_shorter_of_two_pages_comes_first(rt: HostRuntime) {
    let text = match ranked_lines(rt.alloc()) {
        Ok(text) => text,
        Err(_) => String::new(rt.alloc()),
    };
    assert!(rt; text.as_str() == "short\nlong\n");
}

/// Which pages have a word of a query, a line each, the best first.
fn ranked_lines(alloc: Global) -> Result<String, UseError> {
    let long = Page::new("long", "Words that readers find.");
    let printed = in_order(alloc, long, Page::new("short", "Words."))?;
    let hits = ranked_in_text(alloc, AnyLanguage::English, printed.as_str(), "a word")?;
    let mut text = String::new(alloc);
    for hit in &hits {
        add_line(&mut text, hit.reference.as_str())?;
    }
    Ok(text)
}

/// What the uses give, a line each.
fn lines(alloc: Global) -> Result<String, UseError> {
    let guide = Page::new("guide", "Copy the folder into your site.");
    let search = Page::new("search", "Readers find pages by their words.");
    let draft = Page::new("draft", "Nothing yet.");
    let mut text = String::new(alloc);
    add_line(&mut text, first_index(alloc)?.as_str())?;
    add_found(alloc, &mut text, guide, search)?;
    add_pair(&mut text, &in_either_order(alloc, guide, search)?)?;
    let update = updated_and_new(alloc, guide, search, draft, "Words find pages.")?;
    add_pair(&mut text, &update)?;
    add_line(&mut text, text_of_words(alloc)?.as_str())?;
    add_line(&mut text, text_of_whole_titles(alloc)?.as_str())?;
    Ok(text)
}

/// Which of two pages has a word of a query, a line each.
fn add_found(
    alloc: Global,
    text: &mut String,
    one: Page<'_>,
    other: Page<'_>,
) -> Result<(), UseError> {
    let found = built_printed_found(
        alloc,
        one.reference,
        one.text,
        other.reference,
        other.text,
        "a word",
    )?;
    for reference in &found {
        add_line(text, reference.as_str())?;
    }
    Ok(())
}

/// The text of an index of whole titles.
fn text_of_whole_titles(alloc: Global) -> Result<String, IndexError> {
    let builder = IndexBuilder::<English>::new(alloc)?;
    index_with_tokenizer(builder, Box::new(alloc, whole)?)
}

fn add_pair(text: &mut String, pair: &(String, String)) -> Result<(), AllocError> {
    add_line(text, pair.0.as_str())?;
    add_line(text, pair.1.as_str())
}

fn add_line(text: &mut String, line: &str) -> Result<(), AllocError> {
    text.push_str(line)?;
    text.push('\n')
}
