//! The kinds of JSON values.

ghost use Rattle.std.specs.Prelude.{◌≡◌};
ghost use Rattle.serde_json.specs.View.{view};
ghost use Rattle.elasticlunr_job_format.specs.Kinds.{kind_of};

use serde_json::Value;

/// What a JSON value is.
#[derive(Clone, Copy)]
pub enum Kind {
    Null,
    Boolean,
    Number,
    Text,
    Array,
    Object,
}

/// The kind of a value.
pub fn kind_of(value: &Value) -> Kind
    ensures { result ≡ kind_of (view value.now) }
{
    match value {
        Value::Null => Kind::Null,
        Value::Bool(_) => Kind::Boolean,
        Value::Number(_) => Kind::Number,
        Value::String(_) => Kind::Text,
        Value::Array(_) => Kind::Array,
        Value::Object(_) => Kind::Object,
    }
}
