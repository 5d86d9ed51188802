//! The JSON text of an index.
ghost use Rattle.std.specs.Prelude.{string_bytes, IfOk, IsOkUnless};
ghost use Rattle.elasticlunr_error.specs.declared.error.IndexError.TheVariants.{Memory};
ghost use Rattle.elasticlunr_print.specs.Parts.{IsPrintedText};
ghost use Rattle.elasticlunr_print.specs.Printed.{pretty_text};
ghost use Rattle.serde_json.specs.Written.{compact_text};

use crate::parts::Parts;
use crate::write::write_index;
use elasticlunr_error::IndexError;
use elasticlunr_json::{CompactText, PrettyText};
use std::alloc::Global;

// What the names and the keys next to the tries and the store take, unless there are many fields.
const HEAD: usize = 1024;

// Room for about the whole compact text. It is a power of two, which is where a text that grows by
// doubling ends, too. No result depends on it.
fn text_room(parts: Parts<'_>) -> usize {
    let mut room = parts.store.text_room().saturating_add(HEAD);
    for trie in parts.tries {
        room = room.saturating_add(trie.text_room());
    }
    room.checked_next_power_of_two().unwrap_or(room)
}

/// The compact text of the value of an index with these parts.
pub fn index_json(alloc: Global, parts: Parts<'_>) -> Result<String, IndexError>
    ensures text { IfOk result (λ text. IsPrintedText compact_text parts.entry (string_bytes text)) }
    ensures memory { IsOkUnless result Memory }
{
    let mut out = CompactText::with_room(alloc, text_room(parts))?;
    write_index(alloc, parts, &mut out)?;
    Ok(out.into_string())
}

/// The indented text of the value of an index with these parts: a line for each item and each
/// member.
pub fn index_json_pretty(alloc: Global, parts: Parts<'_>) -> Result<String, IndexError>
    ensures text { IfOk result (λ text. IsPrintedText pretty_text parts.entry (string_bytes text)) }
    ensures memory { IsOkUnless result Memory }
{
    let mut out = PrettyText::new(alloc);
    write_index(alloc, parts, &mut out)?;
    Ok(out.into_string())
}
