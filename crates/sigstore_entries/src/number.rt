// 64-bit numbers in JSON: integers, or decimal texts as `parse` reads them.
ghost use Rattle.std.specs.Prelude.{◌≡◌};
ghost use Rattle.serde_json.specs.View.{view};
ghost use Rattle.serde_json.specs.Find.{as_str};
ghost use Rattle.sigstore_entries.specs.Numbers.{unsigned_of, signed_of, unsigned_in, signed_in};

use serde_json::Value;

fn unsigned_text(text: &str) -> Option<u64>
    ensures { result ≡ unsigned_of text.now }
{
    text.parse::<u64>().ok()
}

fn signed_text(text: &str) -> Option<i64>
    ensures { result ≡ signed_of text.now }
{
    text.parse::<i64>().ok()
}

/// The number that a value is or writes, below 2^64.
pub(crate) fn unsigned(value: &Value) -> Option<u64>
    ensures { result ≡ unsigned_in (as_str (view value.now)) (view value.now) }
{
    match value.as_str() {
        Some(text) => unsigned_text(text),
        None => value.as_u64(),
    }
}

/// The number that a value is or writes, from -2^63 up to 2^63 - 1.
pub(crate) fn signed(value: &Value) -> Option<i64>
    ensures { result ≡ signed_in (as_str (view value.now)) (view value.now) }
{
    match value.as_str() {
        Some(text) => signed_text(text),
        None => value.as_i64(),
    }
}
