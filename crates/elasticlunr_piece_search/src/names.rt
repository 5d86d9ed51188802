//! Names of fields.
ghost use Rattle.std.specs.Prelude.{◌≡◌};
ghost use Rattle.elasticlunr_error.specs.Text.{bytes_of};
ghost use Rattle.elasticlunr_commands.specs.Fields.{all_differ as differ, has_name};

/// Whether no two of the names are the same.
pub(crate) fn all_differ(names: &[String]) -> bool
    ensures { result ≡ differ (bytes_of names.now) }
{
    let mut rest = names;
    'names: while let Some((first, others)) = rest.split_first() {
        if is_among(others, first.as_str()) {
            return false;
        }
        rest = others;
    }
    true
}

/// Whether a name is one of these.
pub(crate) fn is_among(names: &[String], name: &str) -> bool
    ensures { result ≡ has_name name.now (bytes_of names.now) }
{
    for other in names {
        if other.as_str() == name {
            return true;
        }
    }
    false
}
