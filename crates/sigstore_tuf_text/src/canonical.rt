// The canonical text of a JSON value, as TUF signs it.

ghost use Rattle.std.specs.Prelude.{◌≡◌, ◌≢◌, ◌++◌, [], ◌∷◌, true, false, decimal, Some, None, Ok, Err, IfOk, OnOk, IfErr};
ghost use Rattle.std.specs.Fmt.{signed_decimal};
ghost use Rattle.serde_json.specs.View.{view, number_view, items_view, members_view};
ghost use Rattle.serde_json.specs.Find.{is_float};
ghost use Rattle.serde_json.specs.Written.{has_float, items_have_float, members_have_float, number_text};
ghost use Rattle.sigstore_tuf_text.specs.Canon.{quoted, escaped_byte, canon, canon_items, canon_members, comma_if};
ghost use Rattle.sigstore_tuf_text.specs.Exact.{IsExact, AreExact, HasExact, IsExactNumber};
ghost use Rattle.sigstore_tuf_text.specs.Canonical.{canonical_of};
ghost use Rattle.sigstore_tuf_text.specs.declared.error.Error.TheVariants.{NonIntegerNumber};

use crate::error::Error;
use itoa::Buffer;
use serde_json::{Map, Number, Value};
use sigstore_types_parts::Bytes;
use std::alloc::{AllocError, Global};

/// The canonical text of a value, which documents sign: no blanks, members ascending by their names'
/// bytes, only quote and backslash escaped. Errors: `NonIntegerNumber` exactly where a float is inside.
pub fn to_canonical_bytes(alloc: Global, value: &Value) -> Result<Bytes, Error>
    ensures ok { IfOk result (λ b. canonical_of (view value.now) ≡ Ok b) }
    ensures err { IfErr result (λ e. e ≢ Error.NoMemory → canonical_of (view value.now) ≡ Err e) }
    ensures exact { OnOk result (IsExact (view value.now)) }
{
    let mut out = Vec::new(alloc);
    write(value, &mut out)?;
    Ok(Bytes::from_vec(out))
}

#[cycle(write)]
fn write(value: &Value, out: &mut Vec<u8>) -> Result<(), Error>
    ensures whole { OnOk result (has_float (view value.now) ≡ false) }
    ensures exact { OnOk result (IsExact (view value.now)) }
    ensures text { OnOk result (out.new.items ≡ out.old.items ++ canon (view value.now)) }
    ensures kind { IfErr result (λ e. e ≢ Error.NoMemory → e ≡ NonIntegerNumber) }
    ensures err { IfErr result (λ e. e ≢ Error.NoMemory → has_float (view value.now) ≡ true) }
{
    match value {
        Value::Null => {
            out.extend_from_slice(b"null")?;
            Ok(())
        }
        Value::Bool(true) => {
            out.extend_from_slice(b"true")?;
            Ok(())
        }
        Value::Bool(false) => {
            out.extend_from_slice(b"false")?;
            Ok(())
        }
        Value::Number(number) => write_number(number, out),
        Value::String(text) => {
            write_text(text.as_str(), out)?;
            Ok(())
        }
        Value::Array(items) => write_items(items, out),
        Value::Object(members) => write_members(members, out),
    }
}

#[cycle(write)]
fn write_items(items: &Vec<Value>, out: &mut Vec<u8>) -> Result<(), Error>
    ensures whole { OnOk result (items_have_float (items_view items.now.items) ≡ false) }
    ensures exact { OnOk result (AreExact (items_view items.now.items)) }
    ensures text { OnOk result
        (out.new.items ≡ out.old.items ++ 91 ∷ canon_items false (items_view items.now.items)) }
    ensures kind { IfErr result (λ e. e ≢ Error.NoMemory → e ≡ NonIntegerNumber) }
    ensures err { IfErr result
        (λ e. e ≢ Error.NoMemory → items_have_float (items_view items.now.items) ≡ true) }
{
    out.push(b'[')?;
    let mut later = false;
    for item in items {
        write_comma(later, out)?;
        write(item, out)?;
        later = true;
    }
    out.push(b']')?;
    Ok(())
}

#[cycle(write)]
fn write_members(members: &Map<String, Value>, out: &mut Vec<u8>) -> Result<(), Error>
    ensures whole { OnOk result (members_have_float (members_view members.now.entries) ≡ false) }
    ensures exact { OnOk result (HasExact (members_view members.now.entries)) }
    ensures text { OnOk result
        (out.new.items
        ≡ out.old.items ++ 123 ∷ canon_members false (members_view members.now.entries)) }
    ensures kind { IfErr result (λ e. e ≢ Error.NoMemory → e ≡ NonIntegerNumber) }
    ensures err { IfErr result
        (λ e. e ≢ Error.NoMemory → members_have_float (members_view members.now.entries) ≡ true) }
{
    out.push(b'{')?;
    let mut later = false;
    for (name, member) in members.iter() {
        write_comma(later, out)?;
        write_text(name.as_str(), out)?;
        out.push(b':')?;
        write(member, out)?;
        later = true;
    }
    out.push(b'}')?;
    Ok(())
}

fn write_number(number: &Number, out: &mut Vec<u8>) -> Result<(), Error>
    ensures whole { OnOk result (is_float (number_view number.now) ≡ false) }
    ensures exact { OnOk result (IsExactNumber (number_view number.now)) }
    ensures text { OnOk result
        (out.new.items ≡ out.old.items ++ number_text (number_view number.now)) }
    ensures kind { IfErr result (λ e. e ≢ Error.NoMemory → e ≡ NonIntegerNumber) }
    ensures err { IfErr result (λ e. e ≢ Error.NoMemory → is_float (number_view number.now) ≡ true) }
{
    let mut digits = Buffer::new();
    if let Some(n) = number.as_u64() {
        out.extend_from_slice(digits.format(n).as_bytes())?;
        return Ok(());
    }
    if let Some(n) = number.as_i64() {
        out.extend_from_slice(digits.format(n).as_bytes())?;
        return Ok(());
    }
    Err(Error::NonIntegerNumber)
}

fn write_comma(later: bool, out: &mut Vec<u8>) -> Result<(), AllocError>
    ensures { OnOk result (out.new.items ≡ out.old.items ++ comma_if later) }
{
    if later {
        out.push(b',')?;
    }
    Ok(())
}

fn write_byte(byte: u8, out: &mut Vec<u8>) -> Result<(), AllocError>
    ensures { OnOk result (out.new.items ≡ out.old.items ++ escaped_byte byte) }
{
    if byte == b'"' || byte == b'\\' {
        out.push(b'\\')?;
    }
    out.push(byte)?;
    Ok(())
}

/// Writes a member whose value is a text, behind a comma where another stands before.
pub fn write_member(
    later: bool,
    name: &str,
    text: &str,
    out: &mut Vec<u8>,
) -> Result<(), AllocError>
    ensures { OnOk result
        (out.new.items ≡ out.old.items ++ (comma_if later ++ (quoted name.now ++ 58 ∷ quoted text.now))) }
{
    write_comma(later, out)?;
    write_text(name, out)?;
    out.push(b':')?;
    write_text(text, out)?;
    Ok(())
}

fn write_text(text: &str, out: &mut Vec<u8>) -> Result<(), AllocError>
    ensures { OnOk result (out.new.items ≡ out.old.items ++ quoted text.now) }
{
    out.push(b'"')?;
    for byte in text.as_bytes() {
        write_byte(*byte, out)?;
    }
    out.push(b'"')?;
    Ok(())
}
