// Octets that objects hold in base64.
ghost use Rattle.std.specs.Prelude.{◌≡◌, ◌≢◌, Ok, Err, IfOk, IfErr};
ghost use Rattle.serde_json.specs.View.{view, items_view};
ghost use Rattle.sigstore_types_parts.specs.Read.{items_of};
ghost use Rattle.sigstore_types.specs.Members.{held_of, each_held};

use foundation::Sequence;
use serde_json::Value;
use sigstore_types_parts::{ByteString, TypesError, TypesMember, required};
use std::alloc::Global;

#[tactic(auto, unfolding(crate::specs::Members::held_of))]
fn held<K: Drop>(
    alloc: Global,
    value: &Value,
    member: TypesMember,
) -> Result<ByteString<K>, TypesError>
    ensures ok { IfOk result (λ b. held_of member (view value.now) ≡ Ok b) }
    ensures err { IfErr result (λ e. e ≢ TypesError.NoMemory → held_of member (view value.now) ≡ Err e) }
{
    match required(alloc, value, member) {
        Ok(octets) => Ok(octets),
        Err(e) => Err(e),
    }
}

fn held_by_items<K: Drop>(
    alloc: Global,
    items: &Vec<Value>,
    member: TypesMember,
) -> Result<Sequence<ByteString<K>>, TypesError>
    ensures ok { IfOk result (λ s. items_of (held_of member) (items_view items.now.items) ≡ Ok s) }
    ensures err { IfErr result (λ e. e ≢ TypesError.NoMemory → items_of (held_of member) (items_view items.now.items) ≡ Err e) }
{
    let mut found = Sequence::new(alloc);
    for item in items {
        match held(alloc, item, member) {
            Err(e) => return Err(e),
            Ok(octets) => match found.push(octets) {
                Ok(()) => (),
                Err(_) => return Err(TypesError::NoMemory),
            },
        }
    }
    Ok(found)
}

/// What each object of a list holds under a member. Errors: `Json` where the value is no list, and those of its
/// items.
#[tactic(auto, unfolding(sigstore_types_parts::specs::Read::sequence_of))]
pub(crate) fn each_held<K: Drop>(
    alloc: Global,
    value: &Value,
    member: TypesMember,
) -> Result<Sequence<ByteString<K>>, TypesError>
    ensures ok { IfOk result (λ s. each_held member (view value.now) ≡ Ok s) }
    ensures err { IfErr result (λ e. e ≢ TypesError.NoMemory → each_held member (view value.now) ≡ Err e) }
{
    match value.as_array() {
        Some(items) => match held_by_items(alloc, items, member) {
            Ok(list) => Ok(list),
            Err(e) => Err(e),
        },
        None => Err(TypesError::Json),
    }
}
