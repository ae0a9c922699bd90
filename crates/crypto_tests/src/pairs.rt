// Pairs of keys that sign, and their public keys in DER.
ghost use Rattle.std.specs.Prelude.{◌≡◌, ◌≢◌, ◌∷◌, Some, None, Ok, Err, IfOk, IfErr, if◌then◌else◌, length, ◌==◌};
ghost use Rattle.sigstore_keys.specs.KeyPair.{signed_or};

use crate::keys::algorithm_of;
use crate::tables::{check, good, halves, hex_of, hold, holds, octets, there};
use foundation::NoMemory;
use sigstore_keys::*;
use sigstore_types_parts::{Bytes, DerPublicKey, SignatureBytes};
use std::alloc::Global;
use std::process::Abort;

// Signs what isn't empty: a message by 01 and the message, a digest by 02 and the digest.
#[derive(Drop)]
struct Mirror {
    sort: KeyAlgorithm,
    key: Bytes,
}

// A mark, and octets.
fn behind(alloc: Global, mark: u8, octets: &[u8]) -> Result<Bytes, NoMemory>
    ensures { IfOk result (λ all. all ≡ mark ∷ octets.now) }
{
    let mut all = Vec::new(alloc);
    all.push(mark)?;
    all.extend_from_slice(octets)?;
    Ok(Bytes::from_vec(all))
}

// What isn't empty, behind a mark.
fn marked(alloc: Global, mark: u8, octets: &[u8]) -> Result<SignatureBytes, Error>
    ensures ok { IfOk result (λ signature. signed_or (if length octets.now == 0 then None else Some (mark ∷ octets.now)) ≡ Ok signature) }
    ensures err { IfErr result (λ e. e ≢ Error.NoMemory → signed_or (if length octets.now == 0 then None else Some (mark ∷ octets.now)) ≡ Err e) }
{
    if octets.is_empty() {
        return Err(Error::Signing);
    }
    Ok(SignatureBytes::new(behind(alloc, mark, octets)?))
}

impl SigningKeyPair for Mirror {
    ghost sort_of_key = { λ m. m.sort };

    ghost public_octets = { λ m. m.key };

    ghost signs = { λ _ message. if length message == 0 then None else Some (1 ∷ message) };

    ghost signs_digest = { λ _ digest. if length digest == 0 then None else Some (2 ∷ digest) };

    fn algorithm(&self) -> KeyAlgorithm {
        self.sort
    }

    fn public_key_bytes(&self) -> &[u8] {
        self.key.as_bytes()
    }

    fn sign_raw(&self, alloc: Global, message: &[u8]) -> Result<SignatureBytes, Error> {
        marked(alloc, 1, message)
    }

    fn sign_prehashed(&self, alloc: Global, digest: &[u8]) -> Result<SignatureBytes, Error> {
        marked(alloc, 2, digest)
    }
}

fn boxed_mirror<X: AllocGlobal + Abort>(rt: &X, sort: KeyAlgorithm, key: &str) -> Box<Mirror> {
    let mirror = Mirror {
        sort,
        key: octets(rt, key),
    };
    good(rt, Box::new(rt.alloc(), mirror))
}

// Sorts and raw public keys with their DER: by OpenSSL, and for ML-DSA by hand (RFC 9881, section 4).
const PUBLIC_KEYS: &str = "\
EcdsaP256 0409b81c548c43071d847682e5404b2074eebe26694a148c7e17cdd627cb31ff67be55ec1659e0f38278c916c349e5bb0724dee68ae9859715a1b56de9252b9ee7 => 3059301306072a8648ce3d020106082a8648ce3d0301070342000409b81c548c43071d847682e5404b2074eebe26694a148c7e17cdd627cb31ff67be55ec1659e0f38278c916c349e5bb0724dee68ae9859715a1b56de9252b9ee7
EcdsaP384 04939e8dc636452c7611874cc013b2074ef32f8ea926d6ea71edeadf168a863c78b9aefe1f5a1ad14c58f993c20cc8669a7ca6a3bc1185f43dafc902526d97d1b1ccb244341dbaf1edbb8ddea8b447d5ae06553812ece789d0a2bbe8d8ac716715 => 3076301006072a8648ce3d020106052b8104002203620004939e8dc636452c7611874cc013b2074ef32f8ea926d6ea71edeadf168a863c78b9aefe1f5a1ad14c58f993c20cc8669a7ca6a3bc1185f43dafc902526d97d1b1ccb244341dbaf1edbb8ddea8b447d5ae06553812ece789d0a2bbe8d8ac716715
Ed25519 2b8301beb2b3f43f2e1da31a003c7ce1583fcecda3cbfa28741905e55f8faab0 => 302a300506032b65700321002b8301beb2b3f43f2e1da31a003c7ce1583fcecda3cbfa28741905e55f8faab0
Rsa 30818902818100b2ce7e3a9bad44e0a44d890a8a860397b031b42d9ca99b4302c4dc9c012a791d3aa51e09d96dea51f8b6a29aa01df33c7c5cc4ea7d2c0f1294b9c1d519297bde517bc6ee770abfbf6771efc0371f014ad92ca05265568d67baebe4cbae07c8e2e0da5f9e92999c556298622c39c521cc3b564adec028265eff89d63b86c01ed90203010001 => 30819f300d06092a864886f70d010101050003818d0030818902818100b2ce7e3a9bad44e0a44d890a8a860397b031b42d9ca99b4302c4dc9c012a791d3aa51e09d96dea51f8b6a29aa01df33c7c5cc4ea7d2c0f1294b9c1d519297bde517bc6ee770abfbf6771efc0371f014ad92ca05265568d67baebe4cbae07c8e2e0da5f9e92999c556298622c39c521cc3b564adec028265eff89d63b86c01ed90203010001
MlDsa44 010203 => 3013300b0609608648016503040311030400010203
MlDsa65 010203 => 3013300b0609608648016503040312030400010203
MlDsa87 010203 => 3013300b0609608648016503040313030400010203";

pub fn public_key<X: AllocGlobal + Abort>(rt: &X, given: &str) -> String {
    let (name, raw) = halves(rt, given, " ");
    let sort = there(rt, algorithm_of(name));
    let pair = KeyPair::new(boxed_mirror(rt, sort, raw));
    let is_of_sort = pair.algorithm() == sort;
    let has_default = pair.default_scheme() == sort.default_signing_scheme();
    let der = pair.public_key_der(rt.alloc());
    drop(pair);
    holds(rt, is_of_sort && has_default);
    der_shown(rt, good(rt, der), sort)
}

fn der_shown<X: AllocGlobal + Abort>(rt: &X, der: DerPublicKey, sort: KeyAlgorithm) -> String {
    let is_of_sort = KeyAlgorithm::from_spki(&der) == Ok(sort);
    let shown = hex_of(rt, der.as_bytes());
    drop(der);
    holds(rt, is_of_sort);
    shown
}

#[test]
fn public_keys_are_written_as_openssl_writes_them(rt: HostRuntime) {
    hold(&rt, "public_key", PUBLIC_KEYS);
}

// 02, and SHA-256 of `hello` by Python's hashlib.
const OF_HELLO: &str = "022cf24dba5fb0a30e26e83b2ac5b9e29e1b161e5c1fa7425e73043362938b9824";

// The pair of the raw key 01, 02 and 03.
fn pair<X: AllocGlobal + Abort>(rt: &X) -> KeyPair {
    KeyPair::new(boxed_mirror(rt, KeyAlgorithm::Ed25519, "010203"))
}

#[test]
fn pairs_sign(rt: HostRuntime) {
    let pair = pair(&rt);
    holds(&rt, pair.public_key_bytes() == [1, 2, 3].as_slice());
    let signature = good(&rt, pair.sign(rt.alloc(), &[4, 5]));
    holds(&rt, signature.as_bytes() == [1, 4, 5].as_slice());
    holds(&rt, pair.sign(rt.alloc(), &[]) == Err(Error::Signing));
}

#[test]
fn pairs_sign_digests(rt: HostRuntime) {
    let pair = pair(&rt);
    let hello = sha256(b"hello");
    let by_digest = good(&rt, pair.sign_digest(rt.alloc(), &hello));
    let mut hasher = Sha256Hasher::new();
    hasher.update("hello".as_bytes());
    let (digest, signature) = good(&rt, pair.sign_prehashed(rt.alloc(), hasher));
    holds(&rt, digest == hello && signature == by_digest);
    let found = hex_of(&rt, signature.as_bytes());
    check(&rt, "the signature of a digest", OF_HELLO, found);
}
