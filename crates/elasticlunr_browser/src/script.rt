//! The script.
ghost use Rattle.std.specs.Prelude.{◌≡◌, ◌++◌, map, string_bytes, IfOk, IfSome, IsNone};
ghost use Rattle.std.specs.List.{AllZip, Any};
ghost use Rattle.std.specs.Str.Lines.{lines};
ghost use Rattle.serde_json.specs.View.{view};
ghost use Rattle.elasticlunr_browser.specs.Facts.{IsFacts, IsScriptOf, IsScriptFor, facts_data};
ghost use Rattle.elasticlunr_browser.specs.Facts.{has_table, stemmer_part};
ghost use Rattle.elasticlunr_browser.specs.Kinds.{HoldsLanguages};
ghost use Rattle.elasticlunr_browser.specs.Named.{IsNameOf, IsNoName, AreNamed};

use crate::classes::{Separators, marks_of};
use crate::language::ScriptLanguage;
use crate::pairs::{LowerCase, pairs_of};
use crate::stages::{numbers, push_stages, texts};
use crate::template::{HEAD, STAGES, STEMMER, TAIL};
use serde_json::{Value, json};
use std::alloc::{AllocError, Global};

/// The languages of these names, in order; `None` where a text is no name of a language.
fn of_names(alloc: Global, names: &[&str]) -> Result<Option<Vec<ScriptLanguage>>, AllocError>
    ensures some { IfOk result (λ found. IfSome found
        (λ chosen. AllZip IsNameOf (map (λ name. name.now) names.now) chosen.items)) }
    ensures none { IfOk result (λ found. IsNone found
        → Any IsNoName (map (λ name. name.now) names.now)) }
{
    let mut chosen = Vec::with_capacity(alloc, names.len())?;
    for name in names {
        let Some(language) = ScriptLanguage::from_name(name) else {
            return Ok(None);
        };
        chosen.push(language)?;
    }
    Ok(Some(chosen))
}

/// The languages that the lines name, all of them where there is no line; `None` where a line is no
/// name of a language.
fn named(alloc: Global, names: &str) -> Result<Option<Vec<ScriptLanguage>>, AllocError>
    ensures some { IfOk result (λ found. IfSome found
        (λ chosen. AreNamed (lines names.now) chosen.items)) }
    ensures none { IfOk result (λ found. IsNone found → Any IsNoName (lines names.now)) }
{
    let each: Vec<&str> = names.lines().collect(alloc)?;
    if each.is_empty() {
        return Ok(Some(ScriptLanguage::all(alloc)?));
    }
    of_names(alloc, &each)
}

/// The stages of the languages.
fn all_stages(alloc: Global, chosen: &[ScriptLanguage]) -> Result<Vec<Value>, AllocError>
    ensures { IfOk result (λ stages. HoldsLanguages chosen.now (map view stages.items)) }
{
    let mut stages = Vec::new(alloc);
    for language in chosen {
        push_stages(alloc, *language, &mut stages)?;
    }
    Ok(stages)
}

/// What a script knows, as a value.
fn facts_value(
    alloc: Global,
    between: &Value,
    lower: &Value,
    stages: &Value,
) -> Result<Value, AllocError>
    ensures { IfOk result (λ value. view value ≡ facts_data (view between.now) (view lower.now)
        (view stages.now)) }
{
    json!(in alloc; {"between": between, "lower": lower, "stages": stages})
}

/// What the script knows: the stages, the separators of words, and lower case.
fn facts(alloc: Global, stages: Vec<Value>) -> Result<Value, AllocError>
    ensures { IfOk result (λ value. IsFacts (map view stages.items) (view value)) }
{
    let listed = Value::Array(stages);
    let marks = marks_of(alloc, &Separators {})?;
    let between = numbers(alloc, &marks)?;
    let pairs = pairs_of(alloc, &LowerCase {})?;
    let lower = texts(alloc, &pairs)?;
    let value = facts_value(alloc, &between, &lower, &listed)?;
    Ok(value)
}

/// Whether one of the languages has a table of a stemmer.
fn has_table(chosen: &[ScriptLanguage]) -> bool
    ensures { result ≡ has_table chosen.now }
{
    chosen.iter().any(|language| language.table().is_some())
}

/// What makes stages of tables, where there are some.
fn stemmer_part(stems: bool) -> &'static str
    ensures { result.now ≡ stemmer_part stems }
{
    if stems { STEMMER } else { "" }
}

/// The text between the parts of the template, with the part that makes stages of tables or without.
fn framed(alloc: Global, printed: &str, part: &str) -> Result<String, AllocError>
    ensures { IfOk result (λ text. string_bytes text
        ≡ HEAD.now ++ printed.now ++ STAGES.now ++ part.now ++ TAIL.now) }
{
    let mut text = String::from_str(alloc, HEAD)?;
    text.push_str(printed)?;
    text.push_str(STAGES)?;
    text.push_str(part)?;
    text.push_str(TAIL)?;
    Ok(text)
}

/// The text of the script for the languages.
fn text_for(alloc: Global, chosen: &[ScriptLanguage]) -> Result<String, AllocError>
    ensures { IfOk result (λ text. IsScriptOf chosen.now (string_bytes text)) }
{
    let stages = all_stages(alloc, chosen)?;
    let known = facts(alloc, stages)?;
    let printed = known.to_string(alloc)?;
    let text = framed(alloc, printed.as_str(), stemmer_part(has_table(chosen)))?;
    Ok(text)
}

/// The script for the languages that the lines name, for all where there is no line; `None` where a
/// line is no name of a language.
pub fn script_for(alloc: Global, names: &str) -> Result<Option<String>, AllocError>
    ensures some { IfOk result (λ found. IfSome found
        (λ text. IsScriptFor (lines names.now) (string_bytes text))) }
    ensures none { IfOk result (λ found. IsNone found → Any IsNoName (lines names.now)) }
{
    let Some(chosen) = named(alloc, names)? else {
        return Ok(None);
    };
    let text = text_for(alloc, &chosen)?;
    Ok(Some(text))
}
