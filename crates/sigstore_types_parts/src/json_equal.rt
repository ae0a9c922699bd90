// Equality of JSON values, with any two floats alike.
ghost use Rattle.std.specs.Prelude.{◌≡◌};
ghost use Rattle.serde_json.specs.View.{view, number_view, items_view, members_view};
ghost use Rattle.sigstore_types_parts.specs.JsonEqual.{same_number, same_data, same_items, same_members};

use serde_json::{Map, Number, Value};

// Whether two values are the same.
#[cycle(same)]
pub(crate) fn same(left: &Value, right: &Value) -> bool
    ensures { result ≡ same_data (view left.now) (view right.now) }
{
    match left {
        Value::Null => right.is_null(),
        Value::Bool(a) => right.as_bool() == Some(*a),
        Value::Number(a) => match right {
            Value::Number(b) => same_numbers(a, b),
            _ => false,
        },
        Value::String(a) => match right {
            Value::String(b) => a.as_str() == b.as_str(),
            _ => false,
        },
        Value::Array(a) => match right {
            Value::Array(b) => same_lists(a, b),
            _ => false,
        },
        Value::Object(a) => match right {
            Value::Object(b) => same_objects(a, b),
            _ => false,
        },
    }
}

fn same_numbers(left: &Number, right: &Number) -> bool
    ensures { result ≡ same_number (number_view left.now) (number_view right.now) }
{
    match (left.as_u64(), right.as_u64()) {
        (Some(a), Some(b)) => a == b,
        (None, None) => left.as_i64() == right.as_i64(),
        _ => false,
    }
}

#[cycle(same)]
fn same_lists(left: &Vec<Value>, right: &Vec<Value>) -> bool
    ensures { result ≡ same_items (items_view left.now.items) (items_view right.now.items) }
{
    let mut others = right.iter();
    for item in left {
        let Some(other) = others.next() else {
            return false;
        };
        if !same(item, other) {
            return false;
        }
    }
    others.next().is_none()
}

#[cycle(same)]
fn same_objects(left: &Map<String, Value>, right: &Map<String, Value>) -> bool
    ensures { result
        ≡ same_members (members_view left.now.entries) (members_view right.now.entries) }
{
    let mut others = right.iter();
    for (name, member) in left.iter() {
        let Some((other_name, other)) = others.next() else {
            return false;
        };
        if name.as_str() != other_name.as_str() || !same(member, other) {
            return false;
        }
    }
    others.next().is_none()
}
