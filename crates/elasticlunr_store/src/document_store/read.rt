//! The parts of a document store's JSON value.
ghost use Rattle.std.specs.Prelude.{◌≡◌, IfSome, IfNone, ◌≢◌};
ghost use Rattle.elasticlunr_store.specs.Contents.{store_members};
ghost use Rattle.serde_json.specs.Data.{Data, Members, member};
ghost use Rattle.serde_json.specs.View.{view, members_view};

use serde_json::{Map, Value};
use std::collections::btree_map::Iter;

// The value of the next member, if that has the name.
fn next_member<'a>(rest: &mut Iter<'a, String, Value>, name: &str) -> Option<&'a Value>
    ensures some { IfSome result (λ v. members_view rest.old
        ≡ member name.now (view v.now) (members_view rest.new)) }
    ensures none { IfNone result ((d : Data) (ms : Members)
        → members_view rest.old ≢ member name.now d ms) }
{
    match rest.next() {
        Some((key, value)) => {
            if key.as_str() == name {
                Some(value)
            } else {
                None
            }
        }
        None => None,
    }
}

// The values of the lengths, the texts, the count and the mark of a store.
pub(super) fn store_parts(members: &Map<String, Value>) -> Option<(&Value, &Value, &Value, &Value)>
    ensures some { IfSome result (λ p. members_view members.now.entries
        ≡ store_members (view p.0.now) (view p.1.now) (view p.2.now) (view p.3.now)) }
    ensures none { IfNone result ((lengths texts count save : Data)
        → members_view members.now.entries ≢ store_members lengths texts count save) }
{
    let mut rest = members.iter();
    let doc_info = next_member(&mut rest, "docInfo")?;
    let docs = next_member(&mut rest, "docs")?;
    let length = next_member(&mut rest, "length")?;
    let save = next_member(&mut rest, "save")?;
    match rest.next() {
        Some(_) => None,
        None => Some((doc_info, docs, length, save)),
    }
}
