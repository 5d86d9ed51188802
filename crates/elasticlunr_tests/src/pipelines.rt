//! Pipelines, with custom functions and objects too.
ghost use Rattle.std.specs.Prelude.{◌≡◌, IfOk, Some, option_map};
ghost use Rattle.elasticlunr_text.specs.Text.{text_of};
ghost use Rattle.elasticlunr_text.specs.Trimmed.{unless_empty};

use crate::text_lists::{joined, texts};
use elasticlunr::pipeline::{FnWrapper, Pipeline, PipelineFn, Stage};
use std::alloc::{AllocError, Global};
use std::test::Fail;

/// A function that drops tokens: the empty ones.
fn drop_empty(_alloc: Global, token: String) -> Result<Option<String>, AllocError>
    ensures { IfOk result (λ left. option_map text_of left ≡ unless_empty (text_of token)) }
{
    if token.is_empty() {
        Ok(None)
    } else {
        Ok(Some(token))
    }
}

/// An object that keeps every token.
#[derive(Drop)]
struct KeepAll {}

impl PipelineFn for KeepAll {
    ghost use Rattle.std.specs.Prelude.{codes};

    ghost name_text = { λ _. codes "all" };

    ghost leaves = { λ _ token. Some token };

    fn name(&self, alloc: Global) -> Result<String, AllocError> {
        String::from_str(alloc, "all")
    }

    fn filter(&self, _alloc: Global, token: String) -> Result<Option<String>, AllocError> {
        Ok(Some(token))
    }
}

#[test]
fn a_function_and_an_object(rt: HostRuntime) -> Result<(), Fail> {
    let alloc = rt.alloc();
    let wrapper = FnWrapper {
        name: String::from_str(alloc, "dropEmpty")?,
        function: drop_empty,
    };
    let own: Box<dyn PipelineFn> = Box::new(alloc, KeepAll {})?;
    let queue = vec![in alloc;
        Stage::EnglishTrimmer,
        Stage::Function(wrapper),
        Stage::Own(own),
    ]?;
    let pipeline = Pipeline { queue };
    let left = pipeline.run(alloc, texts(alloc, &["!!", "a!", "", "b"])?)?;
    assert_eq!(rt; joined(alloc, left.as_slice())?.as_str(), "a;b;");
    let names = pipeline.names(alloc)?;
    assert_eq!(rt;
        joined(alloc, names.as_slice())?.as_str(),
        "trimmer;dropEmpty;all;"
    );
    Ok(())
}

#[test]
fn a_wrapper_is_its_function(rt: HostRuntime) -> Result<(), Fail> {
    let alloc = rt.alloc();
    let wrapper = FnWrapper {
        name: String::from_str(alloc, "dropEmpty")?,
        function: drop_empty,
    };
    let copy = wrapper.clone(alloc)?;
    assert_eq!(rt; copy.name(alloc)?.as_str(), "dropEmpty");
    assert!(rt; copy.filter(alloc, String::new(alloc))?.is_none());
    let kept = copy.filter(alloc, String::from_str(alloc, "x")?)?;
    assert!(rt; kept.is_some());
    Ok(())
}
