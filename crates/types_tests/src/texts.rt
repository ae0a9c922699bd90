// Display texts, encodings on outside values, and JSON, instants and lists in small.
use crate::tables::{
    copied, good, halves, hold, holds, number, numbered, place, printed, string, there,
};
use foundation::{Duplicate, Sequence};
use jiff::Timestamp;
use serde_json::Value;
use sigstore_types_parts::*;
use std::alloc::Global;
use std::process::Abort;

// Whether two JSON texts are of one value.
pub fn same<X: AllocGlobal + Abort>(rt: &X, row: &str) -> String {
    let (left, right) = halves(rt, row, " | ");
    let left = Json::new(good(rt, Value::from_str(rt.alloc(), left)));
    let right = Json::new(good(rt, Value::from_str(rt.alloc(), right)));
    let same = left == right;
    drop(left);
    drop(right);
    printed(rt, same)
}

const SAME: &str = r#"{"a":[1,-1,true,null,"b"]} | {"a":[1,-1,true,null,"b"]} => true
{"a":1,"b":2} | {"b":2,"a":1} => true
1.5 | 2.5 => true
1 | 1.5 => false
[1] | [1,2] => false
[1,2] | [1] => false
{"a":1} | {"b":1} => false
{"a":1} | {} => false
{} | {"a":1} => false
-1 | 1 => false
"1" | 1 => false"#;

// Whether a range from a moment to another, or to none, has begun by a third, and whether that lies in it.
pub fn range<X: AllocGlobal + Abort>(rt: &X, row: &str) -> String {
    let (start, others) = halves(rt, row, " ");
    let (end, moment) = halves(rt, others, " ");
    let range = TimeRange::new(there(rt, instant(start)), instant(end));
    let moment = there(rt, instant(moment));
    printed(rt, (range.has_started_by(moment), range.contains(moment)))
}

const RANGES: &str = "2025-01-02T00:00:00Z 2025-01-03T00:00:00Z 2025-01-02T00:00:00Z => (true, true)
2025-01-02T00:00:00Z 2025-01-03T00:00:00Z 2025-01-01T23:59:59.999999999Z => (false, false)
2025-01-02T00:00:00Z 2025-01-03T00:00:00Z 2025-01-03T00:00:00Z => (true, true)
2025-01-02T00:00:00Z 2025-01-03T00:00:00Z 2025-01-03T00:00:00.000000001Z => (true, false)
2025-01-02T00:00:00Z none 9999-01-01T00:00:00Z => (true, true)";

/// Whether the instant by a count of a unit since the start of 1970 is the one that a text names.
pub fn moment<X: AllocGlobal + Abort>(rt: &X, row: &str) -> String {
    let (unit, others) = halves(rt, row, " ");
    let (count, text) = halves(rt, others, " ");
    let moment = if unit == "seconds" {
        at_second(good(rt, count.parse::<i64>()))
    } else {
        at_millisecond(number(rt, count))
    };
    printed(rt, moment == there(rt, instant(text)))
}

// The earliest instant is 377,705,023,201 seconds before 1970, the latest 253,402,207,200.999999999 behind its start.
const MOMENTS: &str = "seconds 0 1970-01-01T00:00:00Z => true
seconds -1 1969-12-31T23:59:59Z => true
seconds 1735776000 2025-01-02T00:00:00Z => true
seconds -377705023201 -009999-01-02T01:59:59Z => true
seconds -377705023202 -009999-01-02T01:59:59Z => true
seconds -9223372036854775808 -009999-01-02T01:59:59Z => true
seconds 253402207200 9999-12-30T22:00:00Z => true
seconds 253402207201 9999-12-30T22:00:00.999999999Z => true
seconds 9223372036854775807 9999-12-30T22:00:00.999999999Z => true
milliseconds 1 1970-01-01T00:00:00.001Z => true
milliseconds 1735776000999 2025-01-02T00:00:00.999Z => true
milliseconds 1735776000 2025-01-02T00:00:00Z => false
milliseconds 253402207200999 9999-12-30T22:00:00.999Z => true
milliseconds 253402207201000 9999-12-30T22:00:00.999999999Z => true
milliseconds 18446744073709551615 9999-12-30T22:00:00.999999999Z => true";

/// The number and the display text of a refusal.
pub fn refusal<X: AllocGlobal + Abort>(rt: &X, name: &str) -> String {
    let error = error(name);
    numbered(rt, error.number(), error)
}

const NAMES: &str = "\
Json Float Field Base64 Hex Length MediaType Kind Checkpoint NoEntry NoProof NoMemory";

fn error(name: &str) -> TypesError {
    match place(name, NAMES) {
        0 => TypesError::Json,
        1 => TypesError::Float,
        2 => TypesError::Field {
            member: TypesMember::Hint,
        },
        3 => TypesError::Base64,
        4 => TypesError::Hex,
        5 => TypesError::Length {
            expected: 32,
            actual: 31,
        },
        6 => TypesError::MediaType,
        7 => TypesError::Kind,
        8 => TypesError::Checkpoint(CheckpointRule::Size),
        9 => TypesError::NoEntry,
        10 => TypesError::NoProof,
        _ => TypesError::NoMemory,
    }
}

const REFUSALS: &str = "Json => 1 Json
Float => 2 Float
Field => 3 Field
Base64 => 4 Base64
Hex => 5 Hex
Length => 6 Length
MediaType => 7 MediaType
Kind => 8 Kind
Checkpoint => 9 Checkpoint
NoEntry => 10 NoEntry
NoProof => 11 NoProof
NoMemory => 12 NoMemory";

/// The fault of a text that is no JSON that is read here.
pub fn fault<X: AllocGlobal + Abort>(rt: &X, text: &str) -> String {
    printed(rt, parse_json(rt.alloc(), text.as_bytes()).err())
}

// The length of an algorithm's digests, its name in log bodies, and the algorithm of that name.
pub fn algorithm<X: AllocGlobal + Abort>(rt: &X, name: &str) -> String {
    match HashAlgorithm::from_name(name) {
        Some(algorithm) => {
            let (length, rekor) = (algorithm.digest_len(), algorithm.as_rekor_str());
            let again = HashAlgorithm::from_name(rekor);
            printed(rt, (length, rekor, again))
        }
        None => string(rt, "None"),
    }
}

const ALGORITHMS: &str = r#"SHA2_256 => (32, "sha256", Some(Sha2256))
SHA2_384 => (48, "sha384", Some(Sha2384))
SHA2_512 => (64, "sha512", Some(Sha2512))
SHA3_256 => (32, "sha3-256", Some(Sha3256))
SHA3_384 => (48, "sha3-384", Some(Sha3384))
md5 => None"#;

// The bytes, their base64, and whether a copy equals them.
fn bytes_shown<X: AllocGlobal + Abort>(rt: &X, bytes: SignatureBytes) -> String {
    let base64 = good(rt, bytes.to_base64(rt.alloc()));
    printed(rt, (copied(rt, bytes), base64, true))
}

pub fn encoding<X: AllocGlobal + Abort>(rt: &X, text: &str) -> String {
    match SignatureBytes::from_base64(rt.alloc(), text) {
        Ok(bytes) => bytes_shown(rt, bytes),
        Err(refusal) => printed(rt, refusal),
    }
}

// RFC 4648, section 10: the bytes of nothing, f, foo and fooba.
const ENCODINGS: &str = r#" => ([], "", true)
Zg== => ([102], "Zg==", true)
Zm9v => ([102, 111, 111], "Zm9v", true)
Zm9vYmE= => ([102, 111, 111, 98, 97], "Zm9vYmE=", true)
Zg => Base64"#;

fn hint_of<X: AllocGlobal + Abort>(rt: &X, bytes: &[u8]) -> String {
    match KeyHint::try_from(bytes) {
        Ok(hint) => {
            let (hex, length) = (good(rt, hint.to_hex(rt.alloc())), hint.as_array().len());
            printed(rt, (hex, length))
        }
        Err(refusal) => printed(rt, refusal),
    }
}

// The first SHA-256 bytes of `hello` as a hint, in hexadecimal with its length; or a hint of one byte.
pub fn hint<X: AllocGlobal + Abort>(rt: &X, name: &str) -> String {
    if name == "hello" {
        hint_of(rt, &[0x2c, 0xf2, 0x4d, 0xba])
    } else {
        hint_of(rt, &[0])
    }
}

const HINTS: &str = r#"hello => ("2cf24dba", 4)
short => Length { expected: 4, actual: 1 }"#;

const FAULTS: &str = "{ => Some(NotJson)
[1.5] => Some(Float)";

// Which of the members `sig` and `start` stand in a copy of all members.
fn all<X: AllocGlobal + Abort>(rt: &X, value: &Value) -> String {
    let all: TextMap<Json> = good(rt, FromValue::<TypesError>::from_value(rt.alloc(), value));
    let copy = copied(rt, all);
    let (sig, start) = (copy.get("sig").is_some(), copy.get("start").is_some());
    drop(copy);
    printed(rt, (sig, start))
}

fn member_of<X: AllocGlobal + Abort>(rt: &X, value: &Value, name: &str) -> String {
    let alloc = rt.alloc();
    match place(name, "hint version sig start end subject") {
        0 => printed(
            rt,
            required::<TypesMember, Text>(alloc, value, TypesMember::Hint),
        ),
        1 => printed(
            rt,
            required::<TypesMember, u64>(alloc, value, TypesMember::Version),
        ),
        2 => printed(
            rt,
            optional::<TypesMember, SignatureBytes>(alloc, value, TypesMember::Sig),
        ),
        3 => printed(
            rt,
            optional::<TypesMember, Timestamp>(alloc, value, TypesMember::Start),
        ),
        4 => printed(
            rt,
            defaulted::<TypesMember, bool>(alloc, value, TypesMember::End, true),
        ),
        5 => printed(rt, subject_in(alloc, value).err()),
        _ => all(rt, value),
    }
}

fn subject_in(alloc: Global, value: &Value) -> Result<Sequence<Text>, TypesError> {
    required(alloc, value, TypesMember::Subject)
}

pub fn member<X: AllocGlobal + Abort>(rt: &X, name: &str) -> String {
    let text = b"{\"hint\":\"k\",\"version\":7,\"sig\":\"AQ==\"}";
    let value = good(rt, parse_json(rt.alloc(), text));
    let answer = member_of(rt, &value, name);
    drop(value);
    answer
}

const MEMBERS: &str = r#"hint => Ok("k")
version => Ok(7)
sig => Ok(Some([1]))
start => Ok(None)
end => Ok(true)
subject => Some(Field { member: Subject })
all => (true, false)"#;

// The answers of four calls, and the count of faults.
fn four_calls<X: AllocGlobal + Abort>(rt: &X, list: FailList) -> String {
    let mut calls = Calls::new(list);
    let first = calls.next_fails();
    let second = calls.next_fails();
    let third = calls.next_fails();
    let fourth = calls.next_fails();
    let faults = calls.faults;
    drop(calls);
    printed(rt, (first, second, third, fourth, faults))
}

fn numbers<X: AllocGlobal + Abort>(rt: &X, words: &str) -> Vec<u64> {
    let mut numbers = Vec::new(rt.alloc());
    for word in words.split_whitespace() {
        good(rt, numbers.push(number(rt, word)));
    }
    numbers
}

pub fn listed<X: AllocGlobal + Abort>(rt: &X, words: &str) -> String {
    match FailList::new(numbers(rt, words)) {
        Some(list) => { four_calls(rt, copied(rt, list)) }
        None => string(rt, "no list"),
    }
}

// A row: the listed calls, and whether each of four calls fails, with the count.
const LISTED: &str = "2 3 => (false, true, true, false, 2)
0 1 => no list
1 1 => no list
2 1 => no list";

#[test]
fn texts(rt: HostRuntime) {
    hold(&rt, "refusal", REFUSALS);
    hold(&rt, "algorithm", ALGORITHMS);
    hold(&rt, "encoding", ENCODINGS);
    hold(&rt, "hint", HINTS);
    hold(&rt, "parse_json", FAULTS);
    hold(&rt, "same", SAME);
    hold(&rt, "range", RANGES);
    hold(&rt, "moment", MOMENTS);
    hold(&rt, "member", MEMBERS);
    hold(&rt, "fail_list", LISTED);
}
