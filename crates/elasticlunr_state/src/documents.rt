//! The texts of a document that are stored.
ghost use Rattle.std.specs.Prelude.{◌≡◌, ◌≤◌, length, IfOk, IsOkUnless};
ghost use Rattle.elasticlunr_error.specs.Text.{bytes_of};
ghost use Rattle.elasticlunr_error.specs.declared.error.IndexError.TheVariants.{Memory};
ghost use Rattle.elasticlunr_store.specs.Contents.{text_map};
ghost use Rattle.elasticlunr_commands.specs.Fields.{borrowed};
ghost use Rattle.elasticlunr_state.specs.Texts.{reference_alone, with_texts};

use elasticlunr_error::IndexError;
use std::alloc::Global;
use std::collections::BTreeMap;

/// The reference under the reference field, and each value under its field, also where that is the
/// reference field.
pub fn document_of(
    alloc: Global,
    fields: &[String],
    ref_field: &str,
    doc_ref: &str,
    values: &[&str],
) -> Result<BTreeMap<String, String>, IndexError>
    requires { length values.now ≤ length fields.now }
    ensures memory { IsOkUnless result Memory }
    ensures texts { IfOk result (λ document. text_map document.entries
        ≡ with_texts (reference_alone ref_field.now doc_ref.now) (bytes_of fields.now)
        (borrowed values.now)) }
{
    let mut document = BTreeMap::new(alloc);
    document.insert(
        String::from_str(alloc, ref_field)?,
        String::from_str(alloc, doc_ref)?,
    )?;
    for (i, value) in values.iter().enumerate() {
        document.insert(
            String::from_str(alloc, fields[i].as_str())?,
            String::from_str(alloc, value)?,
        )?;
    }
    Ok(document)
}
