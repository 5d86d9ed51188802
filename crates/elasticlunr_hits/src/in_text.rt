//! What is asked for, found in the text of an index.
ghost use Rattle.std.specs.Prelude.{◌≡◌, Err, IfErr, IfOk, string_bytes};
ghost use Rattle.elasticlunr_search.specs.Named.{IsTextOfOtherStages};
ghost use Rattle.elasticlunr_search.specs.declared.answer.Refusal.TheVariants.{OtherPipeline};
ghost use Rattle.elasticlunr_hits.specs.InText.{AreLinesOf, IsNotFoundIn};

use crate::asked::Asked;
use crate::lines::{LineForm, found_lines};
use elasticlunr_search::answer::Refusal;
use elasticlunr_search::named::read_named;
use std::alloc::Global;

/// The lines of the hits in the printed text of an index, by the language that it names, with stems
/// or without, as its stages are, the best first. A line ends with a line feed.
///
/// It costs what `read_named` and `found_lines` cost.
pub fn lines_in(
    alloc: Global,
    text: &str,
    asked: &Asked<'_>,
    form: LineForm,
) -> Result<String, Refusal>
    ensures lines { IfOk result (λ lines. AreLinesOf text.now asked.now form (string_bytes lines)) }
    ensures refused { IfErr result (IsNotFoundIn text.now asked.now) }
    ensures other_stages { result ≡ Err OtherPipeline → IsTextOfOtherStages text.now }
{
    let searcher = read_named(alloc, text)?;
    let lines = found_lines(alloc, &searcher, asked, form)?;
    Ok(lines)
}
