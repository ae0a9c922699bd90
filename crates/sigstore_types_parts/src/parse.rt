// From bytes to a JSON value in which every number is an integer.
ghost use Rattle.std.specs.Prelude.{◌≡◌, ◌≢◌, Ok, Err, IfOk, IfErr, ok_or, false};
ghost use Rattle.serde_json.specs.Read.{read};
ghost use Rattle.serde_json.specs.View.{view};
ghost use Rattle.serde_json.specs.Written.{has_float};
ghost use Rattle.sigstore_types_parts.specs.Parse.{json_of_bytes, parsed_of};
ghost use Rattle.sigstore_types_parts.specs.declared.parse.JsonFault.TheVariants.{NotJson, NoMemory};

use crate::float::contains_float;
use serde_json::{Category, Value};
use std::alloc::Global;

/// Why bytes aren't read as JSON: they aren't JSON (RFC 8259) in UTF-8, a float is inside, or memory
/// is wanting.
#[derive(Clone, Copy, Debug, PartialEq, Eq, Drop)]
pub enum JsonFault {
    NotJson,
    Float,
    NoMemory,
}

/// The JSON value that bytes spell; the last of equal members counts. Errors: `NotJson`, else `Float`
/// where a float is inside.
#[tactic(auto, unfolding(crate::specs::Parse::parsed_of))]
pub fn parse_json(alloc: Global, bytes: &[u8]) -> Result<Value, JsonFault>
    ensures ok { IfOk result (λ v. parsed_of bytes.now ≡ Ok (view v)) }
    ensures err { IfErr result (λ e. e ≢ NoMemory → parsed_of bytes.now ≡ Err e) }
    ensures whole { IfOk result (λ v. has_float (view v) ≡ false) }
{
    let value = json(alloc, bytes)?;
    if contains_float(&value) {
        return Err(JsonFault::Float);
    }
    Ok(value)
}

fn json(alloc: Global, bytes: &[u8]) -> Result<Value, JsonFault>
    ensures ok { IfOk result (λ v. ok_or (json_of_bytes bytes.now) NotJson ≡ Ok (view v)) }
    ensures err { IfErr result
        (λ e. e ≢ NoMemory → ok_or (json_of_bytes bytes.now) NotJson ≡ Err e) }
{
    match std::str::from_utf8(bytes) {
        Ok(text) => json_of_text(alloc, text),
        Err(_) => Err(JsonFault::NotJson),
    }
}

fn json_of_text(alloc: Global, text: &str) -> Result<Value, JsonFault>
    ensures ok { IfOk result (λ v. ok_or (read text.now) NotJson ≡ Ok (view v)) }
    ensures err { IfErr result (λ e. e ≢ NoMemory → ok_or (read text.now) NotJson ≡ Err e) }
{
    match Value::from_str(alloc, text) {
        Ok(value) => Ok(value),
        Err(e) => if e.classify() == Category::Memory {
            Err(JsonFault::NoMemory)
        } else {
            Err(JsonFault::NotJson)
        },
    }
}
