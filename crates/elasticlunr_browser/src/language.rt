//! The languages that a script may be for.
ghost use Rattle.std.specs.Prelude.{◌≡◌, ◌≢◌, true, false, IfOk, IfSome, IsNone};
ghost use Rattle.elasticlunr_text.specs.Stages.{HasKnownStages, LeavesBy, names_by};
ghost use Rattle.elasticlunr_browser.specs.Languages.{script_name, script_stages, script_leaves};
ghost use Rattle.elasticlunr_browser.specs.Languages.{script_table, script_languages};
ghost use Rattle.elasticlunr_browser.specs.Languages.{is_english};
ghost use Rattle.elasticlunr_browser.specs.declared.language.ScriptLanguage.TheVariants.{BuiltIn};
ghost use Rattle.elasticlunr_stem_languages.specs.Hungarian.{hungarian_name};
ghost use Rattle.elasticlunr_browser.specs.Named.{IsNameOf, IsNoName};

use elasticlunr_lang::{AnyLanguage, Language, from_name, languages};
use elasticlunr_stem_languages::Hungarian;
use elasticlunr_stem_stage::with_table;
use elasticlunr_stem_tables::Language as Table;
use elasticlunr_text::pipeline::Pipeline;
use std::alloc::{AllocError, Global};

/// A language that a script may be for: one that is built in, or Hungarian.
#[derive(Clone, Copy)]
pub enum ScriptLanguage {
    BuiltIn(AnyLanguage),
    Hungarian,
}

impl ScriptLanguage {
    /// The language with the name.
    pub fn from_name(name: &str) -> Option<Self>
        ensures found { IfSome result (IsNameOf name.now) }
        ensures none { IsNone result → IsNoName name.now }
    {
        if is_hungarian(name) {
            return Some(ScriptLanguage::Hungarian);
        }
        match from_name(name) {
            Some(language) => Some(ScriptLanguage::BuiltIn(language)),
            None => None,
        }
    }

    /// All of them: Hungarian is the last one.
    pub fn all(alloc: Global) -> Result<Vec<Self>, AllocError>
        ensures { IfOk result (λ all. all.items ≡ script_languages) }
    {
        let mut all = Vec::new(alloc);
        for language in languages() {
            all.push(ScriptLanguage::BuiltIn(language))?;
        }
        all.push(ScriptLanguage::Hungarian)?;
        Ok(all)
    }

    /// Whether elasticlunr.js has its stages itself.
    pub fn is_english(self) -> bool
        ensures { result ≡ is_english self }
    {
        match self {
            ScriptLanguage::BuiltIn(language) => is_built_in_english(language),
            ScriptLanguage::Hungarian => false,
        }
    }

    /// The table of its stemmer, if it has one.
    pub fn table(self) -> Option<Table>
        ensures { result ≡ script_table self }
    {
        match self {
            ScriptLanguage::BuiltIn(language) => with_table(language),
            ScriptLanguage::Hungarian => Some(Table::Hungarian),
        }
    }

    /// Its pipeline, without the stemmer of the table.
    pub fn make_pipeline(self, alloc: Global) -> Result<Pipeline, AllocError>
        ensures names { IfOk result (λ pipeline. names_by name_text pipeline
            ≡ script_stages self) }
        ensures leaves { IfOk result (λ pipeline. LeavesBy leaves pipeline
            (script_leaves self)) }
        ensures known { IfOk result (λ pipeline. HasKnownStages pipeline) }
    {
        let empty = Pipeline {
            queue: Vec::new(alloc),
        };
        match self {
            ScriptLanguage::BuiltIn(language) => language.make_pipeline(alloc, empty),
            ScriptLanguage::Hungarian => Hungarian::new().make_pipeline(alloc, empty),
        }
    }
}

fn is_hungarian(name: &str) -> bool
    ensures yes { result ≡ true → hungarian_name ≡ name.now }
    ensures no { result ≡ false → hungarian_name ≢ name.now }
{
    name == "Hungarian"
}

fn is_built_in_english(language: AnyLanguage) -> bool
    ensures { result ≡ is_english (BuiltIn language) }
{
    match language {
        AnyLanguage::English => true,
        _ => false,
    }
}
