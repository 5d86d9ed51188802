//! Comparing the options of fields.
ghost use Rattle.std.specs.Prelude.{◌≡◌};
ghost use Rattle.elasticlunr_json.specs.Maps.{same_map};
ghost use Rattle.elasticlunr_store.specs.Options.{field_map, same_field};

use super::FieldOptions;

// Have the fields the same options?
pub(super) fn same_fields(a: &FieldOptions, b: &FieldOptions) -> bool
    ensures { result ≡ same_map same_field (field_map a.now.entries) (field_map b.now.entries) }
{
    if a.len() != b.len() {
        return false;
    }
    *a == *b
}
