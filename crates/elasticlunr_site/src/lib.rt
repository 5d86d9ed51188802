//! The search index of a site.
#![tactic(auto)]

ghost use Rattle.std.specs.Prelude.{◌≡◌, IfErr, IfOk, string_bytes};
ghost use Rattle.elasticlunr.specs.IndexError.TheVariants.{Memory};
ghost use Rattle.elasticlunr_site.specs.Site.{IsNew, IsTextOf};

use elasticlunr::lang::German;
use elasticlunr::{Index, IndexError};
use std::alloc::Global;

/// A page: its address, and its texts in the order of the fields.
#[derive(Clone, Copy)]
pub struct Page<'a> {
    pub address: &'a str,
    pub texts: &'a [&'a str],
}

/// The index of these pages without the drafts. A page with more than two texts is left out.
pub fn search_index(alloc: Global, pages: &[Page], drafts: &[&str]) -> Result<String, IndexError>
    ensures text { IfOk result (λ text. IsTextOf pages.now drafts.now (string_bytes text)) }
    ensures errors { IfErr result (λ e. e ≡ Memory) }
{
    let index = Index::with_language(alloc, German::new(), &["title", "body"])?;
    filled(index, pages, drafts)
}

fn filled(mut index: Index<German>, pages: &[Page], drafts: &[&str]) -> Result<String, IndexError>
    requires { IsNew name_text leaves index }
    ensures text { IfOk result (λ text. IsTextOf pages.now drafts.now (string_bytes text)) }
    ensures errors { IfErr result (λ e. e ≡ Memory) }
{
    for page in pages {
        if page.texts.len() > 2 {
            continue;
        }
        index.add_doc(page.address, page.texts)?;
    }
    for draft in drafts {
        index.remove_doc(*draft)?;
    }
    index.compact()?;
    index.to_json()
}
