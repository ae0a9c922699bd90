// Thresholds and declared keys, judged by a provider and an armour of a few texts.
ghost use Rattle.std.specs.Prelude.{◌||◌, Some, bytes_eq, if◌then◌else◌};

use crate::documents;
use crate::provider::{Echo, One, p256};
use crate::words::{
    filled, good, halves, hold, is_good, key_bytes, number, printed, text, there, word,
};
use foundation::{Duplicate, NoMemory};
use serde_json::Value;
use sigstore_keys::{VerificationKey, sha256};
use sigstore_tuf_parts::*;
use sigstore_types_parts::{Armor, Bytes, FromValue, SignatureBytes, Text};
use std::alloc::Global;
use std::mem;
use std::process::Abort;

/// The answer of a call that is given a text; for any other name that of a document.
pub fn answer<X: AllocGlobal + Abort>(rt: &X, call: &str, given: &str) -> String {
    match call {
        "signatures" => judged(rt, given),
        "role" => by_role(rt, given),
        "declared key" => declared(rt, given),
        "armoured key" => armored(rt, given),
        "key's id" => named(rt, given),
        "signature under a key" => signed(rt, given),
        _ => documents::answer(rt, call, given),
    }
}

// Three texts are armoured, each with bytes of its own.
#[derive(Drop)]
struct Three {
    known: Text,
    other: Text,
    broken: Text,
    key: Bytes,
    other_key: Bytes,
    no_key: Bytes,
}

impl Armor for Three {
    ghost armored = { λ a text. bytes_eq text a.known || bytes_eq text a.other || bytes_eq text a.broken };

    ghost key_in = { λ a text. if bytes_eq text a.known then Some a.key else if bytes_eq text a.other then Some a.other_key else Some a.no_key };

    ghost certificate_in = { λ _ text. Some text };

    fn is_armored(&self, text: &[u8]) -> bool {
        text == self.known.as_str().as_bytes()
            || text == self.other.as_str().as_bytes()
            || text == self.broken.as_str().as_bytes()
    }

    fn read_key(&self, alloc: Global, text: &[u8]) -> Result<Option<Bytes>, NoMemory> {
        if text == self.known.as_str().as_bytes() {
            Ok(Some(self.key.duplicate(alloc)?))
        } else if text == self.other.as_str().as_bytes() {
            Ok(Some(self.other_key.duplicate(alloc)?))
        } else {
            Ok(Some(self.no_key.duplicate(alloc)?))
        }
    }

    fn read_certificate(&self, alloc: Global, text: &[u8]) -> Result<Option<Bytes>, NoMemory> {
        Ok(Some(Bytes::new(alloc, text)?))
    }

    fn write_certificate(&self, alloc: Global, der: &[u8]) -> Result<Bytes, NoMemory> {
        Bytes::new(alloc, der)
    }
}

// The text p holds a P-256 key, q an Ed25519 key of 32 zero bytes (RFC 8410), and b one byte that is no
// key.
fn armor<X: AllocGlobal + Abort>(rt: &X) -> Three {
    Three {
        known: text(rt, "p"),
        other: text(rt, "q"),
        broken: text(rt, "b"),
        key: key_bytes(rt, p256()),
        other_key: key_bytes(
            rt,
            "MCowBQYDK2VwAyEAAAAAAAAAAAAAAAAAAAAAAAAAAAAAAAAAAAAAAAAAAAA=",
        ),
        no_key: key_bytes(rt, "AA=="),
    }
}

// A root with the keys k and l, whose timestamp role names k, l and n. Its stars are the threshold and
// the public texts.
const ROOT: &str =
    r#"{"signatures":[],"signed":{"_type":"root","spec_version":"1.0","version":1,"expires":"2030-01-01T00:00:00Z","roles":{"timestamp":{"keyids":["k","l","n"],"threshold":*}},"keys":{"k":{"keytype":"t","scheme":"ecdsa-sha2-nistp256","keyval":{"public":"*"}},"l":{"keytype":"t","scheme":"ecdsa-sha2-nistp256","keyval":{"public":"*"}}}}}"#;

// A timestamp, whose star is its signatures.
const TIMESTAMP: &str =
    r#"{"signatures":[{"keyid":"*"}],"signed":{"_type":"timestamp","spec_version":"1.0","version":1,"expires":"2030-01-01T00:00:00Z","meta":{}}}"#;

fn read<X: AllocGlobal + Abort, T: Role>(rt: &X, text: &str, cells: &str) -> Metadata<T> {
    let text = filled(rt, text, cells);
    let document = good(rt, Metadata::from_slice(rt.alloc(), text.as_bytes()));
    drop(text);
    document
}

// A root, from its threshold and the public text of its keys.
fn root<X: AllocGlobal + Abort>(rt: &X, cells: &str) -> Root {
    let (_, public) = halves(rt, cells, " | ");
    let cells = good(rt, format!(in rt.alloc(); "{cells} | {public}"));
    let root = read::<X, Root>(rt, ROOT, cells.as_str());
    drop(cells);
    root.into_signed()
}

// The signatures of a document, behind its first `"keyid":"`, of words of an id, `=` and a signature.
pub fn signatures<X: AllocGlobal + Abort>(rt: &X, words: &str) -> String {
    let signatures = good(rt, words.replace(rt.alloc(), '=', "\",\"sig\":\""));
    let more = signatures
        .as_str()
        .replace(rt.alloc(), ' ', "\"},{\"keyid\":\"");
    good(rt, more)
}

// A timestamp signed by words of an id, `=` and a signature.
fn signed_by<X: AllocGlobal + Abort>(rt: &X, words: &str) -> Metadata<Timestamp> {
    read(rt, TIMESTAMP, signatures(rt, words).as_str())
}

// Whether the document meets the role as it stands in the root.
fn is_met(alloc: Global, document: &Metadata<Timestamp>, armor: &Three, root: &Root) -> bool {
    match root.role("timestamp") {
        Some(role) => is_good(document.verify_threshold(
            alloc,
            &One,
            armor,
            &root.keys,
            role,
            "timestamp",
        )),
        None => false,
    }
}

// The word for the document by the role's name, which the role itself has to tell of it too.
fn told<X: AllocGlobal + Abort>(rt: &X, document: &Metadata<Timestamp>, root: &Root) -> String {
    let armor = armor(rt);
    let is_met = is_met(rt.alloc(), document, &armor, root);
    let answer = document.verify_role(rt.alloc(), &One, &armor, root, "timestamp");
    drop(armor);
    assert!(rt; answer.is_ok() == is_met);
    word(rt, answer)
}

fn judged<X: AllocGlobal + Abort>(rt: &X, row: &str) -> String {
    let (cells, words) = there(rt, row.rsplit_once(" | "));
    let root = root(rt, cells);
    let document = signed_by(rt, words);
    let answer = told(rt, &document, &root);
    drop(root);
    drop(document);
    answer
}

// A row: a threshold, the public text of the keys, the signatures, and the word for them.
const SIGNATURES: &str = r#"2 | p | k=01 l=01 => Ok
2 | p | k=01 k=01 l=01 => DuplicateSignature { role: "timestamp", key_id: "k" }
1 | p | k= k=01 => Ok
1 | p | k=01 k=zz => DuplicateSignature { role: "timestamp", key_id: "k" }
0 | p | k=01 k=01 => Malformed(Threshold)
1 |  p\n | k=01 => Ok
2 | p | l=01 => ThresholdNotMet { role: "timestamp", found: 1, threshold: 2 }
1 | p | k=02 => ThresholdNotMet { role: "timestamp", found: 0, threshold: 1 }
1 | p | m=01 => ThresholdNotMet { role: "timestamp", found: 0, threshold: 1 }
1 | p | n=01 => ThresholdNotMet { role: "timestamp", found: 0, threshold: 1 }
1 | x | k=01 => ThresholdNotMet { role: "timestamp", found: 0, threshold: 1 }
1 | b | k=01 => ThresholdNotMet { role: "timestamp", found: 0, threshold: 1 }
1 | q | k=01 => ThresholdNotMet { role: "timestamp", found: 0, threshold: 1 }
1 | q | k=zz => ThresholdNotMet { role: "timestamp", found: 0, threshold: 1 }"#;

// The word for an unsigned root by a role's name.
fn by_role<X: AllocGlobal + Abort>(rt: &X, name: &str) -> String {
    meets_exactly::<Root>();
    let (root, armor) = (read::<X, Root>(rt, ROOT, "1 | p | p"), armor(rt));
    let answer = root.verify_role(rt.alloc(), &One, &armor, root.signed(), name);
    drop(root);
    drop(armor);
    word(rt, answer)
}

const ROLES: &str = r#"targets => UnknownRole { name: "targets" }"#;

// A declared key, whose stars are its scheme and its public text.
const KEY: &str = r#"{"keytype":"t","scheme":"*","keyval":{"public":"*"}}"#;

fn declared_key<X: AllocGlobal + Abort>(rt: &X, cells: &str) -> Key {
    let text = filled(rt, KEY, cells);
    let value = good(rt, Value::from_str(rt.alloc(), text.as_str()));
    let key = good(rt, Key::from_value(rt.alloc(), &value));
    drop(text);
    drop(value);
    key
}

// The scheme that a key names, and its id by its contents.
fn named<X: AllocGlobal + Abort>(rt: &X, cells: &str) -> String {
    let key = declared_key(rt, cells);
    let scheme = key.signing_scheme(rt.alloc());
    let id = good(rt, key.key_id(rt.alloc())).into_string();
    drop(key);
    let shown = good(rt, format!(in rt.alloc(); "{scheme:?} {id}"));
    drop(scheme);
    drop(id);
    shown
}

// The digests were worked out by a script, from the objects without blanks.
const IDS: &str =
    r#"ecdsa-sha2-nistp256 | r => Ok(EcdsaP256Sha256) dcef7fe20860adb08fc510723af06a292dfd3db111a4d9a8b8886c6224f8cc4e
ed25519 | é\"\\\n => Ok(Ed25519) f604d23bf42b43622bfc7e369b0aa1f4df7012d6546ef05241d8dd7a7d3a2cfd
rsa | p => Err(UnsupportedScheme { keytype: "t", scheme: "rsa" }) ac520f1bab3aff3694d9c09e079dbfa73cfef38ca45e7b59b362a1544bbdc867"#;

// The octets that words spell: in hexadecimal, or as an octet, `*` and how often it stands there.
fn octets<X: AllocGlobal + Abort>(rt: &X, words: &str) -> Bytes {
    let mut all = Vec::new(rt.alloc());
    for word in words.split(' ') {
        let (octets, count) = match word.split_once('*') {
            Some((octet, count)) => (octet, number(rt, count)),
            None => (word, 1),
        };
        let octets = good(rt, hex::decode(rt.alloc(), octets));
        for _ in 0..count {
            good(rt, all.extend_from_slice(octets.as_slice()));
        }
        drop(octets);
    }
    Bytes::from_vec(all)
}

fn shown<X: AllocGlobal + Abort>(rt: &X, key: VerificationKey) -> String {
    let (scheme, length) = (key.scheme(), key.as_bytes().len());
    let digest = good(rt, sha256(key.as_bytes()).to_hex(rt.alloc())).into_string();
    drop(key);
    let shown = good(rt, format!(in rt.alloc(); "{scheme:?} {length} {digest}"));
    drop(digest);
    shown
}

// What a declared key gives by an armour: the scheme, the length and the SHA-256 value of its raw key.
fn given<X: AllocGlobal + Abort>(rt: &X, key: Key, armor: Three) -> String {
    let answer = key.verification_key(rt.alloc(), &armor);
    drop(key);
    drop(armor);
    match answer {
        Ok(key) => shown(rt, key),
        Err(refusal) => printed(rt, refusal),
    }
}

fn declared<X: AllocGlobal + Abort>(rt: &X, cells: &str) -> String {
    given(rt, declared_key(rt, cells), armor(rt))
}

// A row: a scheme, a public text, and the key or why there is none.
const KEYS: &str =
    r#"ecdsa-sha2-nistp256 | p => EcdsaP256Sha256 65 59ef1a5a00f35b1a722da56ca70b52a721f33998634d4fa4259301f170f7b6bd
ecdsa-sha2-nistp256 |  p\n => EcdsaP256Sha256 65 59ef1a5a00f35b1a722da56ca70b52a721f33998634d4fa4259301f170f7b6bd
ecdsa-sha2-nistp256 | b => Crypto
ecdsa-sha2-nistp256 | q => Crypto
ecdsa-sha2-nistp256 | r => UnusableKey { key_id: "dcef7fe20860adb08fc510723af06a292dfd3db111a4d9a8b8886c6224f8cc4e" }
ecdsa-sha2-nistp256 | e3b0c44298fc1c149afbf4c8996fb92427ae41e4649b934ca495991b7852B855 => UnusableKey { key_id: "241c7030b45763a56812fe61803daa9c4cd2d8d5c4571f27538c8027f656583b" }
ecdsa-sha2-nistp384 | p => Crypto
ed25519 | b => Crypto
ed25519 | q => Ed25519 32 66687aadf862bd776c8fc18b8e9f8e20089714856ee233b3902a591d0d5f2925
ed25519 | e3b0c44298fc1c149afbf4c8996fb92427ae41e4649b934ca495991b7852B855 => Ed25519 32 5df6e0e2761359d30a8275058e299fcc0381534545f55cf43e41983f5d4c9456
ed25519 | 0 => UnusableKey { key_id: "26b0db8f1987d96d535ca9cebf62eddd6148ebf43194532965c040dc94de3cfd" }
ed25519 | e3b0c44298fc1c149afbf4c8996fb92427ae41e4649b934ca495991b7852B85500 => UnusableKey { key_id: "4d073e29b944bbac9383c46292260cfd7426e60f637f875cce86d5c4254a06a4" }
ed25519 | e3b0c44298fc1c149afbf4c8996fb92427ae41e4649b934ca495991b7852B85g => UnusableKey { key_id: "265cf718b460dff9c02fb10ebe83cb9149a17321940fa457d83c23d47848b026" }
rsa | p => UnsupportedScheme { keytype: "t", scheme: "rsa" }"#;

// An armour in which the text q holds a key whose octets are spelled.
fn armor_with<X: AllocGlobal + Abort>(rt: &X, words: &str) -> Three {
    let mut armor = armor(rt);
    let key = mem::replace(&mut armor.other_key, octets(rt, words));
    drop(key);
    armor
}

// A row: a scheme, and the octets of a key in the text q.
fn armored<X: AllocGlobal + Abort>(rt: &X, row: &str) -> String {
    let (scheme, words) = halves(rt, row, " ");
    let cells = good(rt, format!(in rt.alloc(); "{scheme} | q"));
    let key = declared_key(rt, cells.as_str());
    drop(cells);
    given(rt, key, armor_with(rt, words))
}

const ARMORED: &str =
    r#"ecdsa-sha2-nistp384 3076301006072a8648ce3d020106052b810400220362000480d23e44806d53b87333a0337eb1ef7d5622ee9c9403e290ea6ec993e11782acd5f86cc710ee9243198f8fc563819ed2b5e6f009f782e2c9351414921ac3d5558d8fa5d911c696a5b95ec7fb3bc66986d93e1c08f52aa46223b0b7fdc8d5ff48 => EcdsaP384Sha384 97 8b42c5f86fcc09defe34bd6f536d2d460547b9720702956eff449d2466d9fe90
rsassa-pss-sha256 30820122300d06092a864886f70d01010105000382010f003082010a02820101008909de1e2464e3b1896700462fab69b6d6ea9e84293953718c89d1e234c6dd91eb0709282b42ced26df26a8a55562cfd9dc096e75de985560c951e0656e2e68f7f52f80dd34e78cfa1dae6aa07c2b2f4c603fe0c5391e3088f8aa56ff00fc62702e0b22cff9794ba1476bf807f3cfda8875a90cec1afc2b730f0f612e64409ba814b520054da92dc6f53cba69e1316d28bfdb4489260f4312fd279ef2fc0a1898786a3026791b0d6affbbe717d5a0b7d35952649dafb6dafe0ed79946997298efc9c8838ca024fe78c126621085a6facf82c5097947a96e7c56f27e8987409519aafccd114d7b26fca84814a5f67bc59a9ba0defbed1fa358c0f9b4f2c4e72f30203010001 => RsaPssSha256 270 04c27ff880955f6f4b4259611826010d80ebf0822eec53a2407c96ad9e00f6c2
rsassa-pss-sha384 30820122300d06092a864886f70d01010105000382010f003082010a02820101008909de1e2464e3b1896700462fab69b6d6ea9e84293953718c89d1e234c6dd91eb0709282b42ced26df26a8a55562cfd9dc096e75de985560c951e0656e2e68f7f52f80dd34e78cfa1dae6aa07c2b2f4c603fe0c5391e3088f8aa56ff00fc62702e0b22cff9794ba1476bf807f3cfda8875a90cec1afc2b730f0f612e64409ba814b520054da92dc6f53cba69e1316d28bfdb4489260f4312fd279ef2fc0a1898786a3026791b0d6affbbe717d5a0b7d35952649dafb6dafe0ed79946997298efc9c8838ca024fe78c126621085a6facf82c5097947a96e7c56f27e8987409519aafccd114d7b26fca84814a5f67bc59a9ba0defbed1fa358c0f9b4f2c4e72f30203010001 => RsaPssSha384 270 04c27ff880955f6f4b4259611826010d80ebf0822eec53a2407c96ad9e00f6c2
rsassa-pss-sha512 30820122300d06092a864886f70d01010105000382010f003082010a02820101008909de1e2464e3b1896700462fab69b6d6ea9e84293953718c89d1e234c6dd91eb0709282b42ced26df26a8a55562cfd9dc096e75de985560c951e0656e2e68f7f52f80dd34e78cfa1dae6aa07c2b2f4c603fe0c5391e3088f8aa56ff00fc62702e0b22cff9794ba1476bf807f3cfda8875a90cec1afc2b730f0f612e64409ba814b520054da92dc6f53cba69e1316d28bfdb4489260f4312fd279ef2fc0a1898786a3026791b0d6affbbe717d5a0b7d35952649dafb6dafe0ed79946997298efc9c8838ca024fe78c126621085a6facf82c5097947a96e7c56f27e8987409519aafccd114d7b26fca84814a5f67bc59a9ba0defbed1fa358c0f9b4f2c4e72f30203010001 => RsaPssSha512 270 04c27ff880955f6f4b4259611826010d80ebf0822eec53a2407c96ad9e00f6c2
rsassa-pss-sha512 3082010a02820101008909de1e2464e3b1896700462fab69b6d6ea9e84293953718c89d1e234c6dd91eb0709282b42ced26df26a8a55562cfd9dc096e75de985560c951e0656e2e68f7f52f80dd34e78cfa1dae6aa07c2b2f4c603fe0c5391e3088f8aa56ff00fc62702e0b22cff9794ba1476bf807f3cfda8875a90cec1afc2b730f0f612e64409ba814b520054da92dc6f53cba69e1316d28bfdb4489260f4312fd279ef2fc0a1898786a3026791b0d6affbbe717d5a0b7d35952649dafb6dafe0ed79946997298efc9c8838ca024fe78c126621085a6facf82c5097947a96e7c56f27e8987409519aafccd114d7b26fca84814a5f67bc59a9ba0defbed1fa358c0f9b4f2c4e72f30203010001 => Crypto
ml-dsa-44/1 30820532300b06096086480165030403110382052100 05*1312 => MlDsa44 1312 f5f3d7bcd261af1fab354d33acc1d34c929f348c5e25cfa38a6ad0e0fca2dfed
ml-dsa-65/1 308207b2300b0609608648016503040312038207a100 05*1952 => MlDsa65 1952 a58d7a9a173c18a18f1f7dcdfa68074aec05418c31a8733a4e7c6c767cce349a
ml-dsa-87/1 30820a32300b060960864801650304031303820a2100 05*2592 => MlDsa87 2592 b82a443c23d2a1dacdee677be077dff6fffce4c04291497feb3f80d2aa2aacce
ml-dsa-87/1 308207b2300b0609608648016503040312038207a100 05*1952 => Crypto
ed25519 3076301006072a8648ce3d020106052b810400220362000480d23e44806d53b87333a0337eb1ef7d5622ee9c9403e290ea6ec993e11782acd5f86cc710ee9243198f8fc563819ed2b5e6f009f782e2c9351414921ac3d5558d8fa5d911c696a5b95ec7fb3bc66986d93e1c08f52aa46223b0b7fdc8d5ff48 => Crypto"#;

// A row: a scheme, a public text, and a signature of `hello` in hexadecimal, which has to equal what is
// signed. The text m holds a key of ML-DSA-44.
fn signed<X: AllocGlobal + Abort>(rt: &X, row: &str) -> String {
    let (cells, words) = there(rt, row.rsplit_once(" "));
    let key = declared_key(rt, cells);
    let signature = SignatureBytes::new(octets(rt, words));
    let mut armor = armor(rt);
    if key.keyval.public.as_str() == "m" {
        let broken = mem::replace(&mut armor.broken, text(rt, "m"));
        let no_key = mem::replace(&mut armor.no_key, octets(rt, ML_DSA));
        drop(broken);
        drop(no_key);
    }
    let answer = key.verify(rt.alloc(), &Echo, &armor, b"hello", &signature);
    drop(key);
    drop(armor);
    drop(signature);
    word(rt, answer)
}

const ML_DSA: &str = "30820532300b06096086480165030403110382052100 05*1312";

// By a script: SHA-256 of `hello`; `tuf`, 01 and SHA-512 of `hello`.
const SIGNED: &str =
    r#"ecdsa-sha2-nistp256 | p 2cf24dba5fb0a30e26e83b2ac5b9e29e1b161e5c1fa7425e73043362938b9824 => Ok
ecdsa-sha2-nistp256 | p 2cf24dba5fb0a30e26e83b2ac5b9e29e1b161e5c1fa7425e73043362938b98 => Crypto
ed25519 | q 68656c6c6f => Ok
ml-dsa-44/1 | m 747566019b71d224bd62f3785d96d46ad3ea3d73319bfbc2890caadae2dff72519673ca72323c3d99ba5c11d7c7acc6e14b8c5da0c4663475c2e5c3adef46f73bcdec043 => Ok
ml-dsa-44/1 | m 68656c6c6f => Crypto
rsa | p 01 => UnsupportedScheme { keytype: "t", scheme: "rsa" }
ed25519 | r 01 => UnusableKey { key_id: "574c114b26a52025ee771177d10ed2b1860a1167fe44ff921883a810b25208bf" }"#;

#[test]
fn thresholds(rt: HostRuntime) {
    hold(&rt, "signatures", SIGNATURES);
    hold(&rt, "role", ROLES);
    hold(&rt, "declared key", KEYS);
    hold(&rt, "armoured key", ARMORED);
    hold(&rt, "key's id", IDS);
    hold(&rt, "signature under a key", SIGNED);
}
