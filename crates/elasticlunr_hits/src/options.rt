//! The options of a search.
ghost use Rattle.std.specs.Prelude.{◌≡◌, List, IfOk, IfSome, is_some};
ghost use Rattle.std.specs.FinMap.{get};
ghost use Rattle.elasticlunr_text.specs.Text.{Bytes};
ghost use Rattle.elasticlunr_store.specs.Options.{field_map, options_of};
ghost use Rattle.elasticlunr.specs.Fields.{borrowed, has_name};
ghost use Rattle.elasticlunr_hits.specs.Asked.{AreOptionsOf, HasBoost, join_of, last_boost};
ghost use Rattle.elasticlunr_hits.specs.Asked.{searched};

use crate::asked::{Asked, Needed};
use crate::fields::boost_of;
use elasticlunr_store::{FieldOptions, SearchBool, SearchOptions, SearchOptionsField};
use std::alloc::{AllocError, Global};
use std::collections::BTreeMap;

/// The options that are asked for, in which fields of these names are searched.
pub(crate) fn search_options(
    alloc: Global,
    asked: &Asked<'_>,
    names: &[&str],
) -> Result<SearchOptions, AllocError>
    ensures { IfOk result (λ options. (all : List Bytes) → borrowed names.now
        ≡ searched asked.now all
        → AreOptionsOf asked.now all (options_of options)) }
{
    Ok(SearchOptions {
        bool: joined(asked.needed),
        expand: asked.expand,
        fields: field_options(alloc, names, &asked.boosts)?,
    })
}

/// How the tokens are joined in a field.
fn joined(needed: Needed) -> SearchBool
    ensures { result ≡ join_of needed }
{
    match needed {
        Needed::EachInOneField => SearchBool::And,
        Needed::One | Needed::Each => SearchBool::Or,
    }
}

/// The options of the fields of these names.
fn field_options(
    alloc: Global,
    names: &[&str],
    boosts: &[(&str, u8)],
) -> Result<FieldOptions, AllocError>
    ensures names { IfOk result (λ fields. (name : Bytes)
        → is_some (get (field_map fields.entries) name) ≡ has_name name (borrowed names.now)) }
    ensures boosts { IfOk result (λ fields. (name : Bytes)
        → IfSome (get (field_map fields.entries) name) (HasBoost (last_boost boosts.now name))) }
{
    let mut fields = BTreeMap::new(alloc);
    for name in names {
        let key = String::from_str(alloc, name)?;
        fields.insert(key, boosted_field(boosts, name))?;
    }
    Ok(fields)
}

/// The options of a field: its boost.
fn boosted_field(boosts: &[(&str, u8)], name: &str) -> SearchOptionsField
    ensures { HasBoost (last_boost boosts.now name.now) result }
{
    SearchOptionsField {
        boost: boost_of(boosts, name),
        bool: None,
        expand: None,
    }
}
