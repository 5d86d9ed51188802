//! The first index.
//!
//! One document of one word goes into an English index. Proved: the printed text, byte for byte. A
//! caller has to know nothing more: the law that it calls says what one word becomes.
ghost use Rattle.std.specs.Prelude.{◌≡◌, ◌++◌, IfErr, IfOk, codes, string_bytes};
ghost use Rattle.elasticlunr.specs.IndexError.TheVariants.{Memory};

use elasticlunr::laws::word::one_word_is_a_path;
use elasticlunr::{Index, IndexError};
use std::alloc::Global;

/// The text of an index of one document.
pub fn first_index(alloc: Global) -> Result<String, IndexError>
    ensures text { IfOk result (λ text. string_bytes text ≡
        codes "{\"documentStore\":{\"docInfo\":{\"1\":{\"body\":1}},\"docs\":{\"1\":{\"body\":\"go\",\"id\":\"1\"}},"
        ++ codes "\"length\":1,\"save\":true},\"fields\":[\"body\"],\"index\":{\"body\":{\"root\":{\"df\":0,"
        ++ codes "\"docs\":{},\"g\":{\"df\":0,\"docs\":{},\"o\":{\"df\":1,\"docs\":{\"1\":{\"tf\":1000000}}}}}}},"
        ++ codes "\"lang\":\"English\",\"pipeline\":[\"trimmer\",\"stopWordFilter\",\"stemmer\"],"
        ++ codes "\"ref\":\"id\",\"version\":\"0.9.5\"}") }
    ensures errors { IfErr result (λ e. e ≡ Memory) }
{
    one_word_is_a_path();
    let mut index = Index::new(alloc, &["body"])?;
    index.add_doc("1", &["go"])?;
    index.to_json()
}
