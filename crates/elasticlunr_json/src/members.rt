//! The members of JSON objects.
ghost use Rattle.std.specs.Prelude.{◌≡◌, OnOk, OnErr, string_bytes, string_cmp};
ghost use Rattle.std.specs.BTreeMap.{IsOrdered, IsUnchanged};
ghost use Rattle.serde_json.specs.Data.{put};
ghost use Rattle.serde_json.specs.View.{view, members_view};

use serde_json::{Map, Value};
use std::alloc::{AllocError, Global};

/// Sets the member of an object under a key.
pub fn put_member(
    members: &mut Map<String, Value>,
    key: String,
    value: Value,
) -> Result<(), AllocError>
    ensures put { OnOk result (members_view members.new.entries
        ≡ put (string_bytes key) (view value) (members_view members.old.entries)) }
    ensures stays { OnErr result (IsUnchanged members.old members.new) }
    ensures ordered { IsOrdered string_cmp members.new }
{
    members.insert(key, value)?;
    Ok(())
}

/// Sets the member of an object under a copy of a key.
pub fn set_member(
    alloc: Global,
    members: &mut Map<String, Value>,
    key: &str,
    value: Value,
) -> Result<(), AllocError>
    ensures put { OnOk result (members_view members.new.entries
        ≡ put key.now (view value) (members_view members.old.entries)) }
    ensures stays { OnErr result (IsUnchanged members.old members.new) }
    ensures ordered { OnOk result (IsOrdered string_cmp members.new) }
{
    put_member(members, String::from_str(alloc, key)?, value)
}
