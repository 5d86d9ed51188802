//! The stemmers of the languages with a table, as a script holds them.
ghost use Rattle.std.specs.Prelude.{◌≡◌, option_map, IfOk};
ghost use Rattle.serde_json.specs.View.{view};
ghost use Rattle.elasticlunr_browser.specs.Stemmers as spec;
ghost use Rattle.elasticlunr_browser.specs.Stemmers.{table_data, stemmer_data};

use crate::language::ScriptLanguage;
use elasticlunr_stem_tables::{Language, Version};
use serde_json::{Value, json};
use std::alloc::{AllocError, Global};

/// What a script holds of a table.
fn table_value(alloc: Global, name: &str, table: &str) -> Result<Value, AllocError>
    ensures { IfOk result (λ value. view value ≡ table_data name.now table.now) }
{
    json!(in alloc; {"name": name, "table": table})
}

/// A stemmer: the name of its stage, and the text of its table.
fn stemmer(alloc: Global, language: Language) -> Result<Value, AllocError>
    ensures { IfOk result (λ value. view value ≡ stemmer_data language) }
{
    let code = language.code();
    let name = format!(in alloc; "stemmer-{code}")?;
    let table = language.table(Version::Current);
    let value = table_value(alloc, name.as_str(), table)?;
    Ok(value)
}

/// The stemmer of a language, if it has a table.
pub fn stemmer_of(alloc: Global, language: ScriptLanguage) -> Result<Option<Value>, AllocError>
    ensures { IfOk result (λ found. option_map view found ≡ spec.stemmer_of language) }
{
    match language.table() {
        Some(known) => Ok(Some(stemmer(alloc, known)?)),
        None => Ok(None),
    }
}
