//! Which fields are searched, and how.
ghost use Rattle.std.specs.Prelude.{◌≡◌, ◌++◌, map, option_map, length, IfOk, OnOk};
ghost use Rattle.std.specs.Option.{option_to_list};
ghost use Rattle.std.specs.List.{zip};
ghost use Rattle.elasticlunr_error.specs.Text.{bytes_of};
ghost use Rattle.elasticlunr_store.specs.Options.{options_of};
ghost use Rattle.elasticlunr_ranking.specs.Fields.{field_of};
ghost use Rattle.elasticlunr_ranking.specs.Choice.{fields_for, named_fields};
ghost use Rattle.elasticlunr_ranking.specs.Choice.{field_for as chosen};

use crate::field::SearchedField;
use elasticlunr_store::{DocumentStore, SearchOptions, SearchOptionsField};
use elasticlunr_trie::InvertedIndex;
use std::alloc::{AllocError, Global};

/// The fields that are searched, in the order of the names: those for which there are options, or
/// all where there are no options for a field. Each has the trie at the same place.
pub fn searched_fields<'a>(
    alloc: Global,
    names: &'a [String],
    tries: &'a [InvertedIndex],
    store: &'a DocumentStore,
    options: &SearchOptions,
) -> Result<Vec<SearchedField<'a>>, AllocError>
    requires { length tries.now ≡ length names.now }
    ensures { IfOk result (λ fields. map field_of fields.items ≡ fields_for
        (options_of options.now) store.now
        (zip (bytes_of names.now) tries.now)) }
{
    let mut fields = Vec::new(alloc);
    for (i, name) in names.iter().enumerate() {
        let field = field_for(name.as_str(), &tries[i], store, options);
        push_if(&mut fields, field)?;
    }
    Ok(fields)
}

// Adds the field, if it is there.
fn push_if<'a>(
    fields: &mut Vec<SearchedField<'a>>,
    field: Option<SearchedField<'a>>,
) -> Result<(), AllocError>
    ensures { OnOk result (map field_of fields.new.items
        ≡ map field_of fields.old.items ++ option_to_list (option_map field_of field.entry)) }
{
    match field {
        Some(field) => {
            fields.push(field)?;
            Ok(())
        }
        None => Ok(()),
    }
}

/// The names of the fields for which there are options, in the order of their bytes.
pub fn names_of_options(alloc: Global, options: &SearchOptions) -> Result<Vec<&str>, AllocError>
    ensures { IfOk result (λ names. map (λ name. name.now) names.items
        ≡ named_fields (options_of options.now)) }
{
    let mut names = Vec::new(alloc);
    for (name, _) in options.fields.iter() {
        names.push(name.as_str())?;
    }
    Ok(names)
}

// The field, if it is searched.
fn field_for<'a>(
    name: &'a str,
    trie: &'a InvertedIndex,
    store: &'a DocumentStore,
    options: &SearchOptions,
) -> Option<SearchedField<'a>>
    ensures { option_map field_of result ≡ chosen (options_of options.now) store.now name.now
        trie.now }
{
    let own = if options.fields.is_empty() {
        SearchOptionsField::default()
    } else {
        match options.fields.get(name) {
            Some(own) => *own,
            None => return None,
        }
    };
    Some(SearchedField {
        name,
        trie,
        store,
        join: own.bool.unwrap_or(options.bool),
        expand: own.expand.unwrap_or(options.expand),
        boost: own.boost.unwrap_or(1),
    })
}
