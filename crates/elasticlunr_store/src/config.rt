//! Search options, and their JSON value.
ghost use Rattle.std.specs.Prelude.{◌≡◌, ◌<◌, ◌^◌, None, false, IfOk, IfErr, IsOkUnless};
ghost use Rattle.std.specs.Option.{ForSome};
ghost use Rattle.serde_json.specs.View.{view};
ghost use Rattle.serde_json.specs.Written.{has_float};
ghost use Rattle.elasticlunr_error.specs.declared.error.IndexError.TheVariants.{Memory};
ghost use Rattle.elasticlunr_json.specs.Refused.{IsRefused};

mod read;
mod same;
mod value;

use elasticlunr_error::IndexError;
use read::{read_bool, read_expand, read_fields};
use same::same_fields;
use serde_json::Value;
use std::alloc::Global;
use std::collections::BTreeMap;
use value::{fields_value, whole_value};

/// How the tokens of a query are joined.
#[derive(Clone, Copy, Debug)]
pub enum SearchBool {
    /// A document matches that has one of the tokens.
    Or,
    /// A document matches that has all of them.
    And,
}

/// What is used for one field instead of the options for all. `None` is what is used for all.
#[derive(Clone, Copy, Debug)]
pub struct SearchOptionsField {
    /// How much the field weighs.
    pub boost: Option<u8>,
    /// How its tokens are joined.
    pub bool: Option<SearchBool>,
    /// Whether tokens that go on count, too.
    pub expand: Option<bool>,
    pub ghost small: { ForSome boost (λ n. n < 2 ^ 8) },
}

/// The options of fields, by their names.
pub type FieldOptions = BTreeMap<String, SearchOptionsField>;

/// The options of a search, for all fields and for some.
#[derive(Debug, Drop)]
pub struct SearchOptions {
    /// How the tokens of a query are joined.
    pub bool: SearchBool,
    /// Whether tokens that go on count, too.
    pub expand: bool,
    /// What is used for some fields instead of these.
    pub fields: FieldOptions,
}

impl Default for SearchBool {
    ghost use Rattle.elasticlunr_store.specs.declared.config.SearchBool.TheVariants.{Or};

    fn default() -> Self
        ensures { result ≡ Or }
    {
        SearchBool::Or
    }
}

impl Default for SearchOptionsField {
    fn default() -> Self
        ensures boost { result.boost ≡ None }
        ensures bool { result.bool ≡ None }
        ensures expand { result.expand ≡ None }
    {
        SearchOptionsField {
            boost: None,
            bool: None,
            expand: None,
        }
    }
}

impl SearchOptions {
    ghost use Rattle.elasticlunr_store.specs.Options.{Options, HasSmallBoosts, options_of};
    ghost use Rattle.elasticlunr_store.specs.Options.{new_options, options_value, ReadsOptions};

    /// `Or`, no expansion, and no options of single fields. Does not allocate.
    pub fn new(alloc: Global) -> Self
        ensures { options_of result ≡ new_options }
    {
        SearchOptions {
            bool: SearchBool::Or,
            expand: false,
            fields: BTreeMap::new(alloc),
        }
    }

    /// Options with the same parts.
    pub fn clone(&self, _alloc: Global) -> Result<Self, IndexError>
        ensures ok { IfOk result (λ copy. options_of copy ≡ options_of self.now) }
        ensures small { HasSmallBoosts (options_of self.now) }
        ensures memory { IsOkUnless result Memory }
    {
        Ok(SearchOptions {
            bool: self.bool,
            expand: self.expand,
            fields: self.fields.clone()?,
        })
    }

    /// The JSON value of the options: an object with the keys `bool`, `expand` and `fields`. What
    /// is `None` is not written.
    pub fn to_value(&self, alloc: Global) -> Result<Value, IndexError>
        ensures value { IfOk result (λ v. view v ≡ options_value (options_of self.now)) }
        ensures small { HasSmallBoosts (options_of self.now) }
        ensures whole { IfOk result (λ v. has_float (view v) ≡ false) }
        ensures memory { IsOkUnless result Memory }
    {
        let fields = fields_value(alloc, &self.fields)?;
        Ok(whole_value(alloc, self.bool, self.expand, fields)?)
    }

    /// The options that a JSON value gives. `bool`, `expand` and `fields` must be there; options of
    /// a field may be absent or null. Other keys are skipped.
    pub fn from_value(alloc: Global, value: &Value) -> Result<Self, IndexError>
        ensures ok { IfOk result (λ options. ReadsOptions (view value.now) (options_of options)) }
        ensures err { IfErr result (IsRefused ((options : Options)
            → ¬ (ReadsOptions (view value.now) options))) }
    {
        let Some(bool) = read_bool(value) else {
            return Err(IndexError::ForeignValue);
        };
        let Some(expand) = read_expand(value) else {
            return Err(IndexError::ForeignValue);
        };
        let Some(fields) = value.get("fields") else {
            return Err(IndexError::ForeignValue);
        };
        let fields = read_fields(alloc, fields)?;
        Ok(SearchOptions {
            bool,
            expand,
            fields,
        })
    }
}

impl PartialEq for SearchBool {
    ghost use Rattle.std.specs.Cmp.{partial_equiv_from_equiv};
    ghost use Rattle.elasticlunr_store.specs.Options.{same_bool};
    ghost use Rattle.elasticlunr_store.specs.EqualOptions.{bool_equivalence};

    ghost eq = { same_bool };

    ghost laws = { partial_equiv_from_equiv bool_equivalence };

    fn eq(&self, other: &SearchBool) -> bool {
        match (self, other) {
            (SearchBool::Or, SearchBool::Or) => true,
            (SearchBool::And, SearchBool::And) => true,
            _ => false,
        }
    }
}

impl Eq for SearchBool {
    ghost use Rattle.elasticlunr_store.specs.EqualOptions.{bool_equivalence};

    ghost laws = { bool_equivalence };
}

impl PartialEq for SearchOptionsField {
    ghost use Rattle.std.specs.Cmp.{partial_equiv_from_equiv};
    ghost use Rattle.elasticlunr_store.specs.Options.{same_field};
    ghost use Rattle.elasticlunr_store.specs.EqualOptions.{field_equivalence};

    ghost eq = { same_field };

    ghost laws = { partial_equiv_from_equiv field_equivalence };

    fn eq(&self, other: &SearchOptionsField) -> bool {
        self.boost == other.boost && self.bool == other.bool && self.expand == other.expand
    }
}

impl Eq for SearchOptionsField {
    ghost use Rattle.elasticlunr_store.specs.EqualOptions.{field_equivalence};

    ghost laws = { field_equivalence };
}

impl PartialEq for SearchOptions {
    ghost use Rattle.std.specs.Cmp.{partial_equiv_from_equiv};
    ghost use Rattle.elasticlunr_store.specs.Options.{options_of, same_options};
    ghost use Rattle.elasticlunr_store.specs.EqualOptions.{options_equivalence};

    ghost eq = { λ a b. same_options (options_of a) (options_of b) };

    ghost laws = { partial_equiv_from_equiv options_equivalence };

    fn eq(&self, other: &SearchOptions) -> bool {
        self.bool == other.bool
            && self.expand == other.expand
            && same_fields(&self.fields, &other.fields)
    }
}

impl Eq for SearchOptions {
    ghost use Rattle.elasticlunr_store.specs.EqualOptions.{options_equivalence};

    ghost laws = { options_equivalence };
}
