//! A custom language.
use elasticlunr::lang::Language;
use elasticlunr::pipeline::{Pipeline, Stage};
use elasticlunr::{Index, IndexError};
use std::alloc::{AllocError, Global};
use std::test::Fail;

/// Cuts at commas alone, and keeps every piece.
#[derive(Drop)]
struct Commas {}

impl Language for Commas {
    ghost use Rattle.std.specs.Prelude.{◌≡◌, ◌∷◌, [], Some, codes, map, nat_eq};
    ghost use Rattle.std.specs.List.{slice_split};
    ghost use Rattle.std.specs.Str.{chars, encode_utf8_all};

    ghost name_of = { λ _. codes "Commas" };

    ghost code_of = { λ _. codes "cm" };

    ghost tokens_of = { λ _ text. map chars
        (slice_split (λ b. nat_eq b 0x2C) (encode_utf8_all text)) };

    ghost stages_of = { λ _. codes "all" ∷ [] };

    ghost leaves_of = { λ _ token left. left ≡ Some token };

    fn name(&self, alloc: Global) -> Result<String, AllocError> {
        String::from_str(alloc, "Commas")
    }

    fn code(&self, alloc: Global) -> Result<String, AllocError> {
        String::from_str(alloc, "cm")
    }

    fn tokenize(&self, alloc: Global, text: &str) -> Result<Vec<String>, AllocError> {
        let mut tokens = Vec::new(alloc);
        for piece in text.split(',') {
            tokens.push(String::from_str(alloc, piece)?)?;
        }
        Ok(tokens)
    }

    fn make_pipeline(&self, alloc: Global, empty: Pipeline) -> Result<Pipeline, AllocError> {
        let mut pipeline = empty;
        let name = String::from_str(alloc, "all")?;
        pipeline.queue = vec![in alloc; Stage::Keep(name)]?;
        Ok(pipeline)
    }
}

#[test]
fn a_language_is_handed_in(rt: HostRuntime) -> Result<(), Fail> {
    let mut index = Index::with_language(rt.alloc(), Commas {}, &["body"])?;
    index.add_doc("1", &["A,,A"])?;
    assert_eq!(rt;
        index.to_json()?.as_str(),
        r#"{"documentStore":{"docInfo":{"1":{"body":3}},"docs":{"1":{"body":"A,,A","id":"1"}},"length":1,"save":true},"fields":["body"],"index":{"body":{"root":{"A":{"df":1,"docs":{"1":{"tf":1414213}}},"df":0,"docs":{}}}},"lang":"Commas","pipeline":["all"],"ref":"id","version":"0.9.5"}"#
    );
    assert_eq!(rt;
        Index::with_language(rt.alloc(), Commas {}, &["a", "a"]).err(),
        Some(IndexError::DuplicateField)
    );
    Ok(())
}
