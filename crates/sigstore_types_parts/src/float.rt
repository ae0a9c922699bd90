// Floats inside a JSON value.
ghost use Rattle.std.specs.Prelude.{◌≡◌};
ghost use Rattle.serde_json.specs.View.{view, items_view, members_view};
ghost use Rattle.serde_json.specs.Written.{has_float, items_have_float, members_have_float};

use serde_json::{Map, Value};

/// Whether a float is inside; an integer outside -2^63 to 2^64-1 is one.
#[cycle(contains_float)]
pub fn contains_float(value: &Value) -> bool
    ensures { result ≡ has_float (view value.now) }
{
    match value {
        Value::Number(number) => number.is_f64(),
        Value::Array(items) => items_contain_float(items),
        Value::Object(members) => members_contain_float(members),
        _ => false,
    }
}

#[cycle(contains_float)]
fn items_contain_float(items: &Vec<Value>) -> bool
    ensures { result ≡ items_have_float (items_view items.now.items) }
{
    for item in items {
        if contains_float(item) {
            return true;
        }
    }
    false
}

#[cycle(contains_float)]
fn members_contain_float(members: &Map<String, Value>) -> bool
    ensures { result ≡ members_have_float (members_view members.now.entries) }
{
    for (_, member) in members.iter() {
        if contains_float(member) {
            return true;
        }
    }
    false
}
