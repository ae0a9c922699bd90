// Readers of the JSON text itself, and of members that may be absent.
ghost use Rattle.std.specs.Prelude.{◌≡◌, ◌≢◌, Ok, Err, IfOk, IfErr};
ghost use Rattle.serde_json.specs.View.{view};
ghost use Rattle.sigstore_entries.specs.Entry.{json, place, list};

use crate::log_index::{LogIndex, or_first};
use foundation::Sequence;
use serde_json::Value;
use sigstore_types_parts::{FromValue, TypesError, TypesMember, optional, parse_json};
use std::alloc::Global;

/// The JSON value of bytes. Errors: `Json`, then `Float`.
pub fn json(alloc: Global, bytes: &[u8]) -> Result<Value, TypesError>
    ensures ok { IfOk result (λ v. json bytes.now ≡ Ok (view v)) }
    ensures err { IfErr result (λ e. e ≢ TypesError.NoMemory → json bytes.now ≡ Err e) }
{
    Ok(parse_json(alloc, bytes)?)
}

/// A place that is there, or the first one.
pub(crate) fn place(
    alloc: Global,
    value: &Value,
    member: TypesMember,
) -> Result<LogIndex, TypesError>
    ensures ok { IfOk result (λ found. place member (view value.now) ≡ Ok found) }
    ensures err { IfErr result (λ e. e ≢ TypesError.NoMemory → place member (view value.now) ≡ Err e) }
{
    Ok(or_first(optional(alloc, value, member)?))
}

/// The list that a member is; absent or null, it is empty. Errors: `Field` where the member is no list, and
/// those of its items.
pub fn list<T: FromValue<TypesError>>(
    alloc: Global,
    value: &Value,
    member: TypesMember,
) -> Result<Sequence<T>, TypesError>
    ensures ok { IfOk result (λ items. list T.reads member (view value.now) ≡ Ok items) }
    ensures err { IfErr result (λ e. e ≢ TypesError.NoMemory → list T.reads member (view value.now) ≡ Err e) }
{
    let items: Option<Sequence<T>> = match optional(alloc, value, member) {
        Ok(items) => items,
        Err(e) => return Err(e),
    };
    match items {
        Some(items) => Ok(items),
        None => Ok(Sequence::new(alloc)),
    }
}
