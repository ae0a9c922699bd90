// Names and numbers of refusals, canonical texts, names of files, and members that are kept.
use crate::thresholds;
use crate::words::{copied, good, halves, hold, number, printed, string, text, text_of};
use serde_json::Value;
use sigstore_tuf_parts::*;
use sigstore_types_parts::{FromValue, Json, Text, TextMap, parse_json};
use std::fmt::Debug;
use std::process::Abort;

/// The answer of a call that is given a text; for any other name that of a call that judges documents.
pub fn answer<X: AllocGlobal + Abort>(rt: &X, call: &str, given: &str) -> String {
    match call {
        "refusal of tuf" => shown(rt, sample(rt, given)),
        "canonical text" => canonical(rt, given),
        "file name" => file_name(rt, given),
        "other members" => kept(rt, given),
        _ => thresholds::answer(rt, call, given),
    }
}

// The refusals that hold no text.
fn plain(number: u8) -> Error {
    match number {
        1 => Error::Json,
        2 => Error::Malformed(Rule::Frame),
        3 => Error::NonIntegerNumber,
        11 => Error::BadRootVersion { trusted: 1, new: 3 },
        13 => Error::IntegrityMismatch(Mismatch::TooLong),
        14 => Error::Crypto,
        15 => Error::NotRefreshed,
        18 => Error::Transport(TransportFault::Rotations { max: 0 }),
        _ => Error::NoMemory,
    }
}

// The refusals that hold one text.
fn with_text(number: u8, text: Text) -> Error {
    match number {
        4 => Error::UnusableKey { key_id: text },
        6 => Error::UnknownRole { name: text },
        8 => Error::ThresholdNotMet {
            role: text,
            found: 0,
            threshold: 1,
        },
        9 => Error::Rollback {
            role: text,
            trusted: 2,
            new: 1,
        },
        10 => Error::EqualVersion {
            role: text,
            version: 1,
        },
        12 => Error::Expired {
            role: text,
            expires: jiff::Timestamp::UNIX_EPOCH,
        },
        _ => Error::TargetNotFound { path: text },
    }
}

// The refusals that hold two texts.
fn with_texts(number: u8, first: Text, second: Text) -> Error {
    match number {
        5 => Error::UnsupportedScheme {
            keytype: first,
            scheme: second,
        },
        _ => Error::DuplicateSignature {
            role: first,
            key_id: second,
        },
    }
}

// A refusal of each number.
fn sample<X: AllocGlobal + Abort>(rt: &X, given: &str) -> Error {
    let number = good(rt, given.parse::<u8>());
    match number {
        5 | 7 => with_texts(number, text(rt, "r"), text(rt, "k")),
        4 | 6 | 8 | 9 | 10 | 12 | 16 => with_text(number, text(rt, "r")),
        _ => plain(number),
    }
}

fn shown<X: AllocGlobal + Abort>(rt: &X, error: Error) -> String {
    let (number, name) = (error.number(), error.name());
    let shown = good(rt, format!(in rt.alloc(); "{number} {name} {error}"));
    drop(error);
    shown
}

// A row: which refusal, and its number, its name and its display text.
const REFUSALS: &str = "1 => 1 Json Json
2 => 2 Malformed Malformed
3 => 3 NonIntegerNumber NonIntegerNumber
4 => 4 UnusableKey UnusableKey
5 => 5 UnsupportedScheme UnsupportedScheme
6 => 6 UnknownRole UnknownRole
7 => 7 DuplicateSignature DuplicateSignature
8 => 8 ThresholdNotMet ThresholdNotMet
9 => 9 Rollback Rollback
10 => 10 EqualVersion EqualVersion
11 => 11 BadRootVersion BadRootVersion
12 => 12 Expired Expired
13 => 13 IntegrityMismatch IntegrityMismatch
14 => 14 Crypto Crypto
15 => 15 NotRefreshed NotRefreshed
16 => 16 TargetNotFound TargetNotFound
18 => 18 Transport Transport
19 => 19 NoMemory NoMemory";

fn canonical<X: AllocGlobal + Abort>(rt: &X, text: &str) -> String {
    let value = good(rt, Value::from_str(rt.alloc(), text));
    let answer = to_canonical_bytes(rt.alloc(), &value);
    drop(value);
    match answer {
        Ok(bytes) => text_of(rt, bytes.as_bytes()),
        Err(refusal) => printed(rt, refusal),
    }
}

const CANONICAL: &str =
    r#"{"z":[3,2,1],"a":{"n":-5,"b":true}} => {"a":{"b":true,"n":-5},"z":[3,2,1]}
"a\\b\"c" => "a\\b\"c"
1.5 => NonIntegerNumber"#;

// The name of a root of a version, of the file of a pinned role, or the name that is meant by a word.
fn file_name<X: AllocGlobal + Abort>(rt: &X, row: &str) -> String {
    let (call, given) = halves(rt, row, " ");
    match call {
        "root" => text_in(rt, root_name(rt.alloc(), number(rt, given))),
        "pin" => text_in(rt, pin_name(rt.alloc(), given)),
        _ => match given {
            "targets" => string(rt, TARGETS_NAME),
            "snapshot" => string(rt, SNAPSHOT_NAME),
            _ => string(rt, TIMESTAMP_NAME),
        },
    }
}

fn text_in<X: Abort, E: Debug>(rt: &X, text: Result<Text, E>) -> String {
    good(rt, text).into_string()
}

const FILES: &str = "root 12 => 12.root.json
pin targets => targets.json
pin snapshot => snapshot.json
pin timestamp => timestamp.json
name targets => targets.json
name snapshot => snapshot.json
name timestamp => timestamp.json";

// Which of the members `public` and `x-note` are there.
fn members<X: AllocGlobal + Abort>(rt: &X, extra: TextMap<Json>) -> String {
    let (public, note) = (extra.get("public").is_some(), extra.get("x-note").is_some());
    drop(extra);
    printed(rt, (public, note))
}

fn others_of<X: AllocGlobal + Abort>(rt: &X, value: &Value, call: &str) -> TextMap<Json> {
    match call {
        "others" => good(rt, others(rt.alloc(), value, &[DocumentMember::Public])),
        _ => copied(rt, good(rt, KeyVal::from_value(rt.alloc(), value))).extra,
    }
}

// The other members of a key's value, as they are read and as they stand in a copy of the value.
fn kept<X: AllocGlobal + Abort>(rt: &X, call: &str) -> String {
    let value = good(
        rt,
        parse_json(rt.alloc(), b"{\"public\":\"p\",\"x-note\":7}"),
    );
    let extra = others_of(rt, &value, call);
    drop(value);
    members(rt, extra)
}

const KEPT: &str = "others => (false, true)
copy => (false, true)";

#[test]
fn refusals(rt: HostRuntime) {
    hold(&rt, "refusal of tuf", REFUSALS);
    hold(&rt, "canonical text", CANONICAL);
    hold(&rt, "file name", FILES);
    hold(&rt, "other members", KEPT);
}
