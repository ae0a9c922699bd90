// Writers of JSON values. Each states what it writes as one definition.
ghost use Rattle.std.specs.Prelude.{◌≡◌, Some, map, option_map, IfOk, OnOk};
ghost use Rattle.serde_json.specs.Data.{string};
ghost use Rattle.serde_json.specs.View.{view, members_view};
ghost use Rattle.sigstore_entries.specs.Writing.{octets_data, unsigned_data, signed_data, list_data, some_list, some_text, with_member, holding};

use base64::engine::general_purpose::STANDARD;
use foundation::{NoMemory, Sequence};
use serde_json::{Map, Value};
use sigstore_types_parts::{ByteString, Hash, Member, Text, TypesMember};
use std::alloc::Global;

/// What is written as a JSON value.
pub trait ToValue: Sized + Drop {
    ghost use Rattle.serde_json.specs.Data.{Data};

    ghost writes: { Self → Data };

    /// The value that this is written as.
    fn to_value(&self, alloc: Global) -> Result<Value, NoMemory>
        ensures { IfOk result (λ v. view v ≡ writes self.now) };
}

/// Puts a value at a member, unless there is none.
pub fn put_value(
    alloc: Global,
    members: &mut Map<String, Value>,
    member: TypesMember,
    value: Option<Value>,
) -> Result<(), NoMemory>
    ensures { OnOk result
        (members_view members.new.entries ≡ with_member member (option_map view value) (members_view members.old.entries)) }
{
    if let Some(value) = value {
        serde_json::put(members, alloc, member.name(), value)?;
    }
    Ok(())
}

/// Puts an item at a member.
pub fn put<T: ToValue>(
    alloc: Global,
    members: &mut Map<String, Value>,
    member: TypesMember,
    item: &T,
) -> Result<(), NoMemory>
    ensures { OnOk result
        (members_view members.new.entries ≡ with_member member (Some (T.writes item.now)) (members_view members.old.entries)) }
{
    let value = item.to_value(alloc)?;
    put_value(alloc, members, member, Some(value))
}

/// Puts an item at a member, unless there is none.
pub fn put_some<T: ToValue>(
    alloc: Global,
    members: &mut Map<String, Value>,
    member: TypesMember,
    item: &Option<T>,
) -> Result<(), NoMemory>
    ensures { OnOk result
        (members_view members.new.entries ≡ with_member member (option_map T.writes item.now) (members_view members.old.entries)) }
{
    match item {
        Some(item) => put(alloc, members, member, item),
        None => Ok(()),
    }
}

/// Puts a list at a member, unless it is empty.
pub fn put_list<T: ToValue>(
    alloc: Global,
    members: &mut Map<String, Value>,
    member: TypesMember,
    items: &Sequence<T>,
) -> Result<(), NoMemory>
    ensures { OnOk result
        (members_view members.new.entries ≡ with_member member (some_list T.writes items.now) (members_view members.old.entries)) }
{
    if items.is_empty() {
        return Ok(());
    }
    put(alloc, members, member, items)
}

/// Puts a text at a member, unless it is empty.
pub fn put_text(
    alloc: Global,
    members: &mut Map<String, Value>,
    member: TypesMember,
    text: &str,
) -> Result<(), NoMemory>
    ensures { OnOk result
        (members_view members.new.entries ≡ with_member member (some_text text.now) (members_view members.old.entries)) }
{
    if text.is_empty() {
        return Ok(());
    }
    let value = Value::try_from_str(alloc, text)?;
    put_value(alloc, members, member, Some(value))
}

/// The object that holds an item at its only member.
pub fn held<T: ToValue>(alloc: Global, member: TypesMember, item: &T) -> Result<Value, NoMemory>
    ensures { IfOk result (λ v. view v ≡ holding member (T.writes item.now)) }
{
    let mut members = Map::new(alloc);
    put(alloc, &mut members, member, item)?;
    Ok(Value::Object(members))
}

impl ToValue for Text {
    ghost writes = { string };

    fn to_value(&self, alloc: Global) -> Result<Value, NoMemory> {
        Ok(Value::try_from_str(alloc, self.as_str())?)
    }
}

impl<K: Drop> ToValue for ByteString<K> {
    ghost writes = { octets_data };

    fn to_value(&self, alloc: Global) -> Result<Value, NoMemory> {
        Ok(Value::String(self.to_base64(alloc)?.into_string()))
    }
}

impl<const N: usize> ToValue for Hash<N> {
    ghost writes = { octets_data };

    fn to_value(&self, alloc: Global) -> Result<Value, NoMemory> {
        Ok(Value::String(STANDARD.encode(alloc, self.as_bytes())?))
    }
}

impl ToValue for u64 {
    ghost writes = { unsigned_data };

    fn to_value(&self, alloc: Global) -> Result<Value, NoMemory> {
        let number = *self;
        Ok(Value::String(format!(in alloc; "{number}")?))
    }
}

impl ToValue for i64 {
    ghost writes = { signed_data };

    fn to_value(&self, alloc: Global) -> Result<Value, NoMemory> {
        let signed = *self;
        Ok(Value::String(format!(in alloc; "{signed}")?))
    }
}

impl<T: ToValue> ToValue for Sequence<T> {
    ghost writes = { list_data T.writes };

    fn to_value(&self, alloc: Global) -> Result<Value, NoMemory> {
        Ok(Value::Array(values(alloc, self.as_slice())?))
    }
}

// The values of items, in order.
fn values<T: ToValue>(alloc: Global, items: &[T]) -> Result<Vec<Value>, NoMemory>
    ensures { IfOk result (λ v. map view v.items ≡ map T.writes items.now) }
{
    let mut values = Vec::new(alloc);
    for item in items {
        values.push(item.to_value(alloc)?)?;
    }
    Ok(values)
}
