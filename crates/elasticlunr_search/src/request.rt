//! What the first line asks for.
ghost use Rattle.std.specs.Prelude.{IfSome, IsNone};
ghost use Rattle.elasticlunr_search.specs.Requests.{IsRequest, IsNoRequest};
ghost use Rattle.serde_json.specs.View.{view};

use crate::words::Join;
use serde_json::Value;

/// A query in a field, and how its tokens are joined. Its texts are those of the JSON value.
#[derive(Drop)]
pub struct Request<'a> {
    pub field: &'a str,
    pub query: &'a str,
    pub join: Join,
}

/// The request that an array of a field, a query and `any` or `all` is.
pub fn request_of(value: &Value) -> Option<Request<'_>>
    ensures some { IfSome result (λ request. IsRequest (view value.now) request.field.now
        request.query.now request.join) }
    ensures none { IsNone result → IsNoRequest (view value.now) }
{
    let items = value.as_array()?;
    if items.len() != 3 {
        return None;
    }
    let field = items[0].as_str()?;
    let query = items[1].as_str()?;
    let join = match items[2].as_str()? {
        "any" => Join::Any,
        "all" => Join::All,
        _ => return None,
    };
    Some(Request { field, query, join })
}
