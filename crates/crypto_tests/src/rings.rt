// Rings of keys: which key an id, a hint and a moment mean, and what is verified under them.
ghost use Rattle.std.specs.Prelude.{bytes_eq};

use crate::keys::scheme_of;
use crate::tables::{
    good, halves, hex_of, hold, holds, number, octets, place, printed, string, there, word,
};
use jiff::Timestamp;
use sigstore_keys::*;
use sigstore_types_parts::{Bytes, DerPublicKey, KeyHint, Sha256Hash, SignatureBytes, TimeRange};
use std::process::Abort;

// Accepts a signature that equals the raw key.
struct ByKey;

impl CryptoProvider for ByKey {
    ghost accepts = { λ _ scheme key subject signature. bytes_eq key signature };

    fn verify_raw(
        &self,
        _scheme: SigningScheme,
        key: &[u8],
        _message: &[u8],
        signature: &[u8],
    ) -> bool {
        key == signature
    }

    fn verify_prehashed(
        &self,
        _scheme: SigningScheme,
        key: &[u8],
        _digest: &[u8],
        signature: &[u8],
    ) -> bool {
        key == signature
    }
}

fn bytes<X: AllocGlobal + Abort>(rt: &X, text: &str) -> Bytes {
    good(rt, Bytes::new(rt.alloc(), text.as_bytes()))
}

fn key<X: AllocGlobal + Abort>(rt: &X, text: &str) -> VerificationKey {
    VerificationKey {
        scheme: SigningScheme::Ed25519,
        key: bytes(rt, text),
    }
}

fn moment<X: Abort>(rt: &X, second: i64) -> Timestamp {
    good(rt, Timestamp::from_second(second))
}

fn id(name: &str) -> Sha256Hash {
    sha256(name.as_bytes())
}

// Under `hello` first one key and then another, from second 10 to 20; under `world` a key at any time.
fn ring<X: AllocGlobal + Abort>(rt: &X) -> Keyring {
    let mut ring = Keyring::new(rt.alloc());
    let window = TimeRange::new(moment(rt, 10), Some(moment(rt, 20)));
    good(rt, ring.add_key(id("hello"), key(rt, "first")));
    good(rt, ring.add_key(id("world"), key(rt, "other")));
    good(
        rt,
        ring.add_key_with_validity(id("hello"), key(rt, "second"), Some(window)),
    );
    ring
}

fn text_or_none<X: AllocGlobal + Abort>(rt: &X, key: Option<&VerificationKey>) -> String {
    match key {
        Some(key) => string(rt, good(rt, str::from_utf8(key.as_bytes()))),
        None => string(rt, "none"),
    }
}

// The keys that the hint of a key of these octets means, each behind a blank.
fn hinted<X: AllocGlobal + Abort>(rt: &X, ring: &Keyring, given: &str, time: Timestamp) -> String {
    let owner = DerPublicKey::new(bytes(rt, given));
    let hint = compute_key_hint(&owner);
    drop(owner);
    let mut found = hex_of(rt, hint.as_bytes());
    for key in ring.keys_by_hint(&hint, time) {
        good(rt, found.push_str(" "));
        good(rt, found.push_str(good(rt, str::from_utf8(key.as_bytes()))));
    }
    found
}

// Whether a key of the ring is of the sort that signs under a scheme.
fn has<X: AllocGlobal + Abort>(rt: &X, ring: &Keyring, scheme: &str) -> String {
    printed(rt, ring.has_key_of(there(rt, scheme_of(scheme))))
}

fn any<X: AllocGlobal + Abort>(rt: &X, ring: &Keyring, signature: &SignatureBytes) -> String {
    match ring.verify_any(&ByKey, &[], signature) {
        Ok(id) => hex_of(rt, id.as_bytes()),
        Err(refusal) => printed(rt, refusal),
    }
}

// A call, a name of an id, a second and the text of a signature.
const ANSWERS: &str = "\
key hello 0 x => second
key world 0 x => other
key nobody 0 x => none
key_at hello 9 x => none
key_at hello 10 x => second
key_at hello 20 x => second
key_at hello 21 x => none
key_at world 0 x => other
started hello 9 x => none
started hello 10 x => second
started hello 21 x => second
hint hello 9 x => 2cf24dba
hint hello 10 x => 2cf24dba second
hint world 0 x => 486ea462 other
verify hello 0 second => Ok
verify hello 0 first => Verification(Refused)
verify nobody 0 second => Verification(NoKey)
verify_at hello 9 second => Verification(NoKey)
verify_at hello 10 second => Ok
verify_at hello 10 first => Verification(Refused)
any x 0 other => 486ea46224d1bb4fb680f34f7c9ad96a8f24ec88be73ea8e5a6c65260e9cb8a7
any x 0 first => Verification(NoKey)
has Ed25519 0 x => true
has EcdsaP256Sha256 0 x => false";

/// The answer of a call of the ring.
pub fn answer<X: AllocGlobal + Abort>(rt: &X, given: &str) -> String {
    let (call, rest) = halves(rt, given, " ");
    let (name, rest) = halves(rt, rest, " ");
    let (second, text) = halves(rt, rest, " ");
    let time = moment(rt, number(rt, second).min(1000) as i64);
    let (ring, signature) = (ring(rt), SignatureBytes::new(bytes(rt, text)));
    let answer = asked(rt, &ring, call, name, time, &signature);
    drop(signature);
    drop(ring);
    answer
}

fn asked<X: AllocGlobal + Abort>(
    rt: &X,
    ring: &Keyring,
    call: &str,
    name: &str,
    time: Timestamp,
    signature: &SignatureBytes,
) -> String {
    let id = id(name);
    match place(call, "key key_at started hint verify verify_at has") {
        0 => text_or_none(rt, ring.key(&id)),
        1 => text_or_none(rt, ring.key_at(&id, time)),
        2 => text_or_none(rt, ring.key_started_by(&id, time)),
        3 => hinted(rt, ring, name, time),
        4 => word(rt, ring.verify_with_key_id(&ByKey, &id, &[], signature)),
        5 => word(
            rt,
            ring.verify_with_key_id_at(&ByKey, &id, time, &[], signature),
        ),
        6 => has(rt, ring, name),
        _ => any(rt, ring, signature),
    }
}

// The keys of a ring, a hint, a second, the text of a signature, and the first five octets of the id whose key it is good
// by. A key is `OCTETS:KEY`, where its id is these octets and zeros, and behind it `@10` where it is used from second 10 to
// 20; the last key under an id counts.
const LEAST: &str = "\
0102030400:a 0102030401:a | 01020304 0 a => 0102030400
0102030401:a 0102030400:a | 01020304 0 a => 0102030400
0102030480:a 010203047f:a | 01020304 0 a => 010203047f
0102030400:b 0102030401:a | 01020304 0 a => 0102030401
0102030400:b 0102030401:c 0102030402:a | 01020304 0 a => 0102030402
0102030400:b 0102030401:c | 01020304 0 a => none
0102030400:a@10 0102030401:a | 01020304 9 a => 0102030401
0102030400:a@10 0102030401:a | 01020304 10 a => 0102030400
0102030400:a@10 0102030401:a | 01020304 21 a => 0102030400
0102030400:a@10 | 01020304 9 a => none
0102030300:a 0102030401:a | 01020304 0 a => 0102030401
0102030500:a | 01020304 0 a => none
0102030400:a 0102030400:b 0102030401:a | 01020304 0 a => 0102030401
 | 01020304 0 a => none";

// Twenty-seven octets of zeros.
const ZEROS: &str = "000000000000000000000000000000000000000000000000000000";

// Holds `OCTETS:KEY`, or `OCTETS:KEY@10`.
fn hold_under<X: AllocGlobal + Abort>(rt: &X, ring: &mut Keyring, named: &str) {
    let (id, text) = halves(rt, named, ":");
    let spelled = good(rt, format!(in rt.alloc(); "{id}{ZEROS}"));
    let whole = octets(rt, spelled.as_str());
    drop(spelled);
    let id = good(rt, Sha256Hash::try_from(whole.as_bytes()));
    drop(whole);
    match text.split_once('@') {
        Some((text, start)) => {
            let start = moment(rt, number(rt, start).min(1000) as i64);
            let window = TimeRange::new(start, Some(moment(rt, 20)));
            good(
                rt,
                ring.add_key_with_validity(id, key(rt, text), Some(window)),
            );
        }
        None => good(rt, ring.add_key(id, key(rt, text))),
    }
}

/// The first octets of the least id by whose key a signature is good.
pub fn least<X: AllocGlobal + Abort>(rt: &X, given: &str) -> String {
    let (keys, rest) = halves(rt, given, " | ");
    let (hint, rest) = halves(rt, rest, " ");
    let (second, text) = halves(rt, rest, " ");
    let mut ring = Keyring::new(rt.alloc());
    for named in keys.split_ascii_whitespace() {
        hold_under(rt, &mut ring, named);
    }
    let (hint, signature) = (octets(rt, hint), SignatureBytes::new(bytes(rt, text)));
    let meant = good(rt, KeyHint::try_from(hint.as_bytes()));
    drop(hint);
    let time = moment(rt, number(rt, second).min(1000) as i64);
    let found = ring.least_signer(&ByKey, &meant, time, &[], &signature);
    drop(signature);
    drop(ring);
    match found {
        Some(id) => begin(rt, &id),
        None => string(rt, "none"),
    }
}

fn begin<X: AllocGlobal + Abort>(rt: &X, id: &Sha256Hash) -> String {
    let whole = hex_of(rt, id.as_bytes());
    let begin = string(rt, there(rt, whole.as_str().get(..10)));
    drop(whole);
    begin
}

#[test]
fn rings_answer_by_their_last_keys(rt: HostRuntime) {
    hold(&rt, "ring", ANSWERS);
    hold(&rt, "least", LEAST);
    let (ring, empty) = (ring(&rt), Keyring::new(rt.alloc()));
    holds(&rt, ring.len() == 2 && !ring.is_empty() && empty.is_empty());
}
