//! Fields of JSON objects.

ghost use Rattle.std.specs.Prelude.{◌≡◌, option_map};
ghost use Rattle.serde_json.specs.Find.{as_array, as_str};
ghost use Rattle.serde_json.specs.View.{items_view, view};
ghost use Rattle.tfpg_json.specs.GraphSaid.{number_from, number_under, text_under, unless_null};
ghost use Rattle.tfpg_json.specs.inside.ReadAs.{ReadAs};

use serde_json::Value;
use tfpg_graph::{GraphCause, GraphFault, GraphRefusal};

/// The text is not JSON, or has not the shape of a graph.
pub(crate) const NO_GRAPH: GraphRefusal = GraphRefusal::Fault(GraphFault {
    line: 0,
    cause: GraphCause::BadLine,
});

/// A name has not the form of one.
pub(crate) const BAD_NAME: GraphRefusal = GraphRefusal::Fault(GraphFault {
    line: 0,
    cause: GraphCause::BadName,
});

/// The items, where the value is a list.
pub(crate) fn list_in(value: &Value) -> Result<&[Value], GraphRefusal>
    ensures { ReadAs (λ items. items_view items.now) (as_array (view value.now)) result }
{
    let items = value.as_array().ok_or(NO_GRAPH)?;
    Ok(items.as_slice())
}

/// The bytes, where the value is a text.
pub(crate) fn text_in(value: &Value) -> Option<&[u8]>
    ensures { option_map (λ text. text.now) result ≡ as_str (view value.now) }
{
    let text = value.as_str()?;
    Some(text.as_bytes())
}

/// The text under a key.
pub(crate) fn text_under<'a>(key: &str, value: &'a Value) -> Option<&'a [u8]>
    ensures { option_map (λ text. text.now) result ≡ text_under key.now (view value.now) }
{
    text_in(value.get(key)?)
}

/// The number under a key.
pub(crate) fn number_under(key: &str, value: &Value) -> Option<u64>
    ensures { result ≡ number_under key.now (view value.now) }
{
    value.get(key).and_then(Value::as_u64)
}

/// A number, or none where the value is null. There is no result where it is neither.
pub(crate) fn number_or_null(value: &Value) -> Option<Option<u64>>
    ensures { result ≡ unless_null number_from (view value.now) }
{
    if value.is_null() {
        return Some(None);
    }
    Some(Some(value.as_u64()?))
}
