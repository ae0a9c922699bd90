// Ids of logs and hashes in hexadecimal (RFC 4648, section 8), and the names of refusals and of key details.
use crate::words::{
    copied, displayed, expanded, good, halves, hold, holds, marked, place, printed, string,
};
use sigstore_rekor_parts::{
    Error, HexHash, HexLogId, RekorV2KeyDetails, ResponseRule, sha256_from_hex,
};
use sigstore_types_parts::{Sha256Hash, Text, TypesError};
use std::process::Abort;
use std::rt::HostRuntime;

// Octets as an id, and back; a text as an id.
const IDS: &str = "\
encode 01020304 => 01020304 01020304
encode  =>  
encode 00 => 00 00
encode FF0A => ff0a ff0a
decode 01020304 => Ok([1, 2, 3, 4]) Ok([1, 2, 3, 4])
decode Ff0a => Ok([255, 10]) Ok([255, 10])
decode  => Ok([]) Ok([])
decode 0 => Err(Hex) Err(Hex)
decode 012 => Err(Hex) Err(Hex)
decode 0g => Err(Hex) Err(Hex)
decode 0x01 => Err(Hex) Err(Hex)
decode  1 => Err(Hex) Err(Hex)
decode 01  => Err(Hex) Err(Hex)
decode é => Err(Hex) Err(Hex)";

// A text as a hash: its SHA-256 value in base64, by both calls.
const HASHES: &str = "\
<digest> => <digest>
<DIGEST> => <digest>
<digest.cut> => Length { expected: 32, actual: 31 }
<digest>00 => Length { expected: 32, actual: 33 }
<digest.sha384> => Length { expected: 32, actual: 48 }
 => Length { expected: 32, actual: 0 }
<digest.cut>0 => Hex
<digest>0 => Hex
<digest.cut>0g => Hex
<digest.cut>0x00 => Hex
<digest.bytes> => Hex
 <digest.cut>0 => Hex
no digits => Hex";

// Refusals: number, name and what they hold.
const REFUSALS: &str = "\
status => 1 Status Status { status: 404 }
json => 2 Json Json
response => 3 InvalidResponse InvalidResponse { rule: Shape }
memory => 4 NoMemory NoMemory
details => PKIX_ECDSA_P256_SHA_256";

fn text<X: AllocGlobal + Abort>(rt: &X, text: &str) -> Text {
    good(rt, Text::new(rt.alloc(), text))
}

fn encoded<X: AllocGlobal + Abort>(rt: &X, digits: &str) -> String {
    let octets = good(rt, hex::decode(rt.alloc(), digits));
    let id = good(rt, HexLogId::encode(rt.alloc(), octets.as_slice()));
    let id = copied(rt, id);
    let back = good(rt, id.decode(rt.alloc()));
    holds(rt, back.as_bytes() == octets.as_slice());
    drop(octets);
    let back = good(rt, hex::encode(rt.alloc(), back.as_bytes()));
    let id = displayed(rt, id);
    good(rt, format!(in rt.alloc(); "{id} {back}"))
}

fn decoded<X: AllocGlobal + Abort>(rt: &X, digits: &str) -> String {
    let id = HexLogId::new(text(rt, digits));
    let (octets, key_id) = (id.decode(rt.alloc()), id.to_log_key_id(rt.alloc()));
    drop(id);
    let (octets, key_id) = (printed(rt, octets), printed(rt, key_id));
    good(rt, format!(in rt.alloc(); "{octets} {key_id}"))
}

/// An id by one of its calls.
pub fn id<X: AllocGlobal + Abort>(rt: &X, given: &str) -> String {
    let (call, digits) = halves(rt, given, " ");
    match place(call, "encode decode") {
        0 => encoded(rt, digits),
        1 => decoded(rt, digits),
        _ => string(rt, "no call"),
    }
}

fn hash_told<X: AllocGlobal + Abort>(rt: &X, hash: Result<Sha256Hash, TypesError>) -> String {
    match hash {
        Ok(hash) => good(rt, hash.to_hex(rt.alloc())).into_string(),
        Err(refusal) => printed(rt, refusal),
    }
}

/// The SHA-256 value that a text spells, by both calls.
pub fn hash<X: AllocGlobal + Abort>(rt: &X, given: &str) -> String {
    let digits = expanded(rt, given, "p256");
    let own = sha256_from_hex(digits.as_str());
    let hash = HexHash::new(text(rt, digits.as_str()));
    let of_hash = hash.to_sha256();
    let is_kept = hash.as_str() == digits.as_str();
    let is_moved = hash.into_string().as_str() == digits.as_str();
    drop(digits);
    holds(rt, is_kept && is_moved);
    let (own, of_hash) = (hash_told(rt, own), hash_told(rt, of_hash));
    holds(rt, own.as_str() == of_hash.as_str());
    drop(of_hash);
    marked(rt, own)
}

fn told<X: AllocGlobal + Abort>(rt: &X, refusal: Error) -> String {
    let number = refusal.number();
    let shown = printed(rt, refusal);
    let name = displayed(rt, refusal);
    good(rt, format!(in rt.alloc(); "{number} {name} {shown}"))
}

/// A refusal, or the name of details of keys.
pub fn refusal<X: AllocGlobal + Abort>(rt: &X, given: &str) -> String {
    match place(given, "status json response memory details") {
        0 => told(rt, Error::Status { status: 404 }),
        1 => told(rt, Error::Json),
        2 => told(
            rt,
            Error::InvalidResponse {
                rule: ResponseRule::Shape,
            },
        ),
        3 => told(rt, Error::NoMemory),
        4 => string(rt, RekorV2KeyDetails::PkixEcdsaP256Sha256.as_str()),
        _ => string(rt, "no refusal"),
    }
}

#[test]
fn ids_and_hashes(rt: HostRuntime) {
    hold(&rt, &[("id", IDS), ("hash", HASHES), ("refusal", REFUSALS)]);
}
