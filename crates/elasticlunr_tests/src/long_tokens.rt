//! Tokens of many characters.
use crate::text_lists::repeated;
use elasticlunr::inverted_index::InvertedIndex;
use std::test::Fail;

#[test]
fn a_trie_takes_a_long_token(rt: HostRuntime) -> Result<(), Fail> {
    let alloc = rt.alloc();
    let shorter = repeated(alloc, 'a', 19_999)?;
    let token = repeated(alloc, 'a', 20_000)?;
    let longer = repeated(alloc, 'a', 20_001)?;
    let mut trie = InvertedIndex::new(alloc);
    trie.add_token("1", &token, 1)?;
    assert!(rt; trie.has_token(&shorter));
    assert!(rt; !trie.has_token(&longer));
    let compact = trie.compacted()?;
    assert!(rt; compact == trie);
    Ok(())
}
