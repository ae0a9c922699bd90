// Schemes, sorts of keys, digests on outside values, and keys and signatures that are judged.
ghost use Rattle.std.specs.Prelude.{bytes_eq};
ghost use Rattle.sigstore_keys.specs.Good.{subject_of};

use crate::tables::{
    copied, displayed, good, halves, hold, holds, key_in, numbered, place, printed, there,
};
use sigstore_keys::*;
use sigstore_types_parts::{Bytes, HashAlgorithm, SignatureBytes, Text};
use std::fmt::Debug;
use std::process::Abort;

/// Accepts a signature that equals its subject.
pub struct Echo;

impl CryptoProvider for Echo {
    ghost accepts = { λ _ scheme key subject signature. bytes_eq subject signature };

    fn verify_raw(
        &self,
        scheme: SigningScheme,
        _key: &[u8],
        message: &[u8],
        signature: &[u8],
    ) -> bool {
        match scheme.hash_algorithm() {
            Some(HashAlgorithm::Sha2256) => sha256(message).as_bytes() == signature,
            Some(HashAlgorithm::Sha2384) => sha384(message).as_bytes() == signature,
            Some(HashAlgorithm::Sha2512) => sha512(message).as_bytes() == signature,
            _ => message == signature,
        }
    }

    fn verify_prehashed(
        &self,
        _scheme: SigningScheme,
        _key: &[u8],
        digest: &[u8],
        signature: &[u8],
    ) -> bool {
        digest == signature
    }
}

/// The number and the display text of a refusal, or the display text of one of a reading.
pub fn refusal<X: AllocGlobal + Abort>(rt: &X, name: &str) -> String {
    match place(name, "Failed TooLong ReadFault") {
        0 => displayed(rt, ReadError::Failed),
        1 => displayed(rt, ReadError::TooLong { max: 1 }),
        2 => displayed(rt, ReadFault::Failed),
        _ => numbered_error(rt, error(name)),
    }
}

fn numbered_error<X: AllocGlobal + Abort>(rt: &X, error: Error) -> String {
    numbered(rt, error.number(), error)
}

const ERRORS: &str = "\
Signing Verification InvalidKeyFormat UnsupportedAlgorithm Checkpoint InvalidCertificate InvalidKey";

fn error(name: &str) -> Error {
    match place(name, ERRORS) {
        0 => Error::Signing,
        1 => Error::Verification(VerificationFault::Refused),
        2 => Error::InvalidKeyFormat,
        3 => Error::UnsupportedAlgorithm,
        4 => Error::Checkpoint(CheckpointFault::NoHint),
        5 => Error::InvalidCertificate(CertificateFault::San),
        6 => Error::InvalidKey(KeyRule::RawKey),
        _ => Error::NoMemory,
    }
}

const REFUSALS: &str = "Signing => 1 Signing
Verification => 2 Verification
InvalidKeyFormat => 3 InvalidKeyFormat
UnsupportedAlgorithm => 4 UnsupportedAlgorithm
Checkpoint => 5 Checkpoint
InvalidCertificate => 6 InvalidCertificate
InvalidKey => 7 InvalidKey
NoMemory => 8 NoMemory
Failed => Failed
TooLong => TooLong
ReadFault => Failed";

const SCHEME_NAMES: &str = "\
EcdsaP256Sha256 EcdsaP256Sha384 EcdsaP384Sha256 EcdsaP384Sha384 Ed25519 RsaPssSha256 RsaPssSha384 \
RsaPssSha512 RsaPkcs1Sha256 RsaPkcs1Sha384 RsaPkcs1Sha512 MlDsa44 MlDsa65 MlDsa87";

pub fn scheme_of(name: &str) -> Option<SigningScheme> {
    match place(name, SCHEME_NAMES) {
        0 => Some(SigningScheme::EcdsaP256Sha256),
        1 => Some(SigningScheme::EcdsaP256Sha384),
        2 => Some(SigningScheme::EcdsaP384Sha256),
        3 => Some(SigningScheme::EcdsaP384Sha384),
        4 => Some(SigningScheme::Ed25519),
        5 => Some(SigningScheme::RsaPssSha256),
        6 => Some(SigningScheme::RsaPssSha384),
        7 => Some(SigningScheme::RsaPssSha512),
        8 => Some(SigningScheme::RsaPkcs1Sha256),
        9 => Some(SigningScheme::RsaPkcs1Sha384),
        10 => Some(SigningScheme::RsaPkcs1Sha512),
        11 => Some(SigningScheme::MlDsa44),
        12 => Some(SigningScheme::MlDsa65),
        13 => Some(SigningScheme::MlDsa87),
        _ => None,
    }
}

// The name of a scheme, its keys, its digest, and whether it signs digests.
pub fn scheme<X: AllocGlobal + Abort>(rt: &X, name: &str) -> String {
    let scheme = there(rt, scheme_of(name));
    let (name, key) = (scheme.name(), scheme.key_algorithm());
    holds(rt, SigningScheme::from_name(name) == Some(scheme));
    let (digest, prehashed) = (scheme.hash_algorithm(), scheme.supports_prehashed());
    printed(rt, (name, key, digest, prehashed))
}

const SCHEMES: &str = r#"EcdsaP256Sha256 => ("ECDSA_P256_SHA256", EcdsaP256, Some(Sha2256), true)
EcdsaP256Sha384 => ("ECDSA_P256_SHA384", EcdsaP256, Some(Sha2384), true)
EcdsaP384Sha256 => ("ECDSA_P384_SHA256", EcdsaP384, Some(Sha2256), true)
EcdsaP384Sha384 => ("ECDSA_P384_SHA384", EcdsaP384, Some(Sha2384), true)
Ed25519 => ("ED25519", Ed25519, None, false)
RsaPssSha256 => ("RSA_PSS_SHA256", Rsa, Some(Sha2256), true)
RsaPssSha384 => ("RSA_PSS_SHA384", Rsa, Some(Sha2384), true)
RsaPssSha512 => ("RSA_PSS_SHA512", Rsa, Some(Sha2512), true)
RsaPkcs1Sha256 => ("RSA_PKCS1_SHA256", Rsa, Some(Sha2256), true)
RsaPkcs1Sha384 => ("RSA_PKCS1_SHA384", Rsa, Some(Sha2384), true)
RsaPkcs1Sha512 => ("RSA_PKCS1_SHA512", Rsa, Some(Sha2512), true)
MlDsa44 => ("ML_DSA_44", MlDsa44, None, false)
MlDsa65 => ("ML_DSA_65", MlDsa65, None, false)
MlDsa87 => ("ML_DSA_87", MlDsa87, None, false)"#;

const ALGORITHM_NAMES: &str = "\
EcdsaP256 EcdsaP384 Rsa Ed25519 MlDsa44 MlDsa65 MlDsa87";

pub fn algorithm_of(name: &str) -> Option<KeyAlgorithm> {
    match place(name, ALGORITHM_NAMES) {
        0 => Some(KeyAlgorithm::EcdsaP256),
        1 => Some(KeyAlgorithm::EcdsaP384),
        2 => Some(KeyAlgorithm::Rsa),
        3 => Some(KeyAlgorithm::Ed25519),
        4 => Some(KeyAlgorithm::MlDsa44),
        5 => Some(KeyAlgorithm::MlDsa65),
        6 => Some(KeyAlgorithm::MlDsa87),
        _ => None,
    }
}

// The scheme of an algorithm by default, or with a digest.
pub fn resolved<X: AllocGlobal + Abort>(rt: &X, row: &str) -> String {
    let (name, digest) = halves(rt, row, " ");
    let key = there(rt, algorithm_of(name));
    match HashAlgorithm::from_name(digest) {
        Some(digest) => printed(rt, key.resolve_signing_scheme(digest)),
        None => printed(rt, key.default_signing_scheme()),
    }
}

const RESOLVED: &str = "EcdsaP256 default => EcdsaP256Sha256
EcdsaP256 SHA2_256 => Ok(EcdsaP256Sha256)
EcdsaP256 SHA2_384 => Ok(EcdsaP256Sha384)
EcdsaP256 SHA2_512 => Err(UnsupportedAlgorithm)
EcdsaP256 SHA3_256 => Err(UnsupportedAlgorithm)
EcdsaP384 default => EcdsaP384Sha384
EcdsaP384 SHA2_256 => Ok(EcdsaP384Sha256)
EcdsaP384 SHA2_384 => Ok(EcdsaP384Sha384)
EcdsaP384 SHA2_512 => Err(UnsupportedAlgorithm)
EcdsaP384 SHA3_256 => Err(UnsupportedAlgorithm)
Rsa default => RsaPkcs1Sha256
Rsa SHA2_256 => Ok(RsaPkcs1Sha256)
Rsa SHA2_384 => Ok(RsaPkcs1Sha384)
Rsa SHA2_512 => Ok(RsaPkcs1Sha512)
Rsa SHA3_256 => Err(UnsupportedAlgorithm)
Ed25519 default => Ed25519
Ed25519 SHA3_384 => Ok(Ed25519)
MlDsa44 default => MlDsa44
MlDsa44 SHA3_384 => Ok(MlDsa44)
MlDsa65 default => MlDsa65
MlDsa65 SHA3_384 => Ok(MlDsa65)
MlDsa87 default => MlDsa87
MlDsa87 SHA3_384 => Ok(MlDsa87)";

/// The text that a digest is written as.
pub fn hexadecimal<X: Abort, E: Debug>(rt: &X, text: Result<Text, E>) -> String {
    good(rt, text).into_string()
}

pub fn by_sha256<X: AllocGlobal + Abort>(rt: &X, text: &str) -> String {
    hexadecimal(rt, sha256(text.as_bytes()).to_hex(rt.alloc()))
}

pub fn by_sha384<X: AllocGlobal + Abort>(rt: &X, text: &str) -> String {
    hexadecimal(rt, sha384(text.as_bytes()).to_hex(rt.alloc()))
}

pub fn by_sha512<X: AllocGlobal + Abort>(rt: &X, text: &str) -> String {
    hexadecimal(rt, sha512(text.as_bytes()).to_hex(rt.alloc()))
}

const SHA256: &str = "hello => 2cf24dba5fb0a30e26e83b2ac5b9e29e1b161e5c1fa7425e73043362938b9824
 => e3b0c44298fc1c149afbf4c8996fb92427ae41e4649b934ca495991b7852b855";

const SHA384: &str =
    "abc => cb00753f45a35e8bb5a03d699ac65007272c32ab0eded1631a8b605a43ff5bed8086072ba1e7cc2358baeca134c825a7";

const SHA512: &str =
    "abc => ddaf35a193617abacc417349ae20413112e6fa4e89a97ea20a9eeee64b55d39a2192992a274fc1a836ba3c23a3feebbd454d4423643ce80e2a9ac94fa54ca49f";

// The length and the first byte of a raw key, its scheme, whether it passes its test, and whether a copy
// equals it.
fn key_shown<X: AllocGlobal + Abort>(rt: &X, key: VerificationKey) -> String {
    let (length, first) = (key.as_bytes().len(), key.as_bytes().first().copied());
    let scheme = key.scheme();
    let test = validate_raw_public_key(scheme, key.as_bytes());
    drop(copied(rt, key));
    printed(rt, (length, first, scheme, test, true))
}

pub fn key<X: AllocGlobal + Abort>(rt: &X, base64: &str) -> String {
    let der = key_in(rt, base64);
    let key = VerificationKey::from_spki(rt.alloc(), &der);
    drop(der);
    match key {
        Ok(key) => key_shown(rt, key),
        Err(refusal) => printed(rt, refusal),
    }
}

// Keys in base64: P-256 with 65, with one and with no key bytes, with an unused bit, and with a byte
// behind it; on the curve P-384; Ed25519; no bytes, and a byte.
const KEYS: &str =
    "MFkwEwYHKoZIzj0CAQYIKoZIzj0DAQcDQgAEAAAAAAAAAAAAAAAAAAAAAAAAAAAAAAAAAAAAAAAAAAAAAAAAAAAAAAAAAAAAAAAAAAAAAAAAAAAAAAAAAAAAAA== => (65, Some(4), EcdsaP256Sha256, Ok(()), true)
MBkwEwYHKoZIzj0CAQYIKoZIzj0DAQcDAgAF => (1, Some(5), EcdsaP256Sha256, Err(InvalidKey(RawKey)), true)
MBgwEwYHKoZIzj0CAQYIKoZIzj0DAQcDAQA= => (0, None, EcdsaP256Sha256, Err(InvalidKey(RawKey)), true)
MBkwEwYHKoZIzj0CAQYIKoZIzj0DAQcDAgEE => InvalidKey(UnusedBits)
MBkwEwYHKoZIzj0CAQYIKoZIzj0DAQcDAgAFAA== => InvalidKey(Encoding)
MBYwEAYHKoZIzj0CAQYFK4EEACIDAgAE => (1, Some(4), EcdsaP384Sha384, Ok(()), true)
MCowBQYDK2VwAyEAAAAAAAAAAAAAAAAAAAAAAAAAAAAAAAAAAAAAAAAAAAA= => (32, Some(0), Ed25519, Ok(()), true)
 => InvalidKey(Encoding)
AA== => InvalidKey(Encoding)";

// What a key answers to a signature over `hello`, or over its digest.
fn verified(key: &VerificationKey, signature: &SignatureBytes, call: &str) -> Result<(), Error> {
    let digest = sha256(b"hello");
    match call {
        "verify" => key.verify(&Echo, b"hello", signature),
        "verify the digest" => key.verify(&Echo, digest.as_bytes(), signature),
        "verify_prehashed" => key.verify_prehashed(&Echo, digest.as_bytes(), signature),
        "verify_prehashed a byte" => key.verify_prehashed(&Echo, b"s", signature),
        _ => validate_raw_public_key(key.scheme, key.as_bytes()),
    }
}

fn raw_key<X: AllocGlobal + Abort>(rt: &X, name: &str, raw: &str) -> VerificationKey {
    VerificationKey {
        scheme: there(rt, scheme_of(name)),
        key: good(rt, Bytes::new(rt.alloc(), raw.as_bytes())),
    }
}

// A row: a scheme, a raw key, a call, and the answer. The signature equals the SHA-256 value of `hello`.
pub fn judged<X: AllocGlobal + Abort>(rt: &X, row: &str) -> String {
    let (name, asked) = halves(rt, row, " ");
    let (raw, call) = halves(rt, asked, " ");
    let (key, digest) = (raw_key(rt, name, raw), sha256(b"hello"));
    let signature = good(
        rt,
        SignatureBytes::from_bytes(rt.alloc(), digest.as_bytes()),
    );
    let answer = verified(&key, &signature, call);
    drop(signature);
    drop(key);
    printed(rt, answer)
}

const JUDGED: &str = "EcdsaP256Sha256 \u{4} verify => Ok(())
EcdsaP256Sha256 \u{4} verify_prehashed => Ok(())
EcdsaP256Sha256 \u{4} verify the digest => Err(Verification(Refused))
EcdsaP384Sha384 raw validate => Err(InvalidKey(RawKey))
MlDsa65 raw validate => Ok(())
RsaPssSha256 raw validate => Err(InvalidKey(RawKey))
EcdsaP256Sha256 raw verify => Err(Verification(RawKey))
EcdsaP256Sha256 raw verify_prehashed a byte => Err(Verification(DigestLength))
Ed25519 raw verify_prehashed a byte => Err(UnsupportedAlgorithm)";

// Whether a message is answered as its digest.
pub fn alike<X: AllocGlobal + Abort>(rt: &X, message: &[u8]) -> String {
    let digest = sha256(message);
    let (scheme, digest) = (SigningScheme::EcdsaP256Sha256, digest.as_bytes());
    printed(
        rt,
        answers_alike(&Echo, scheme, &[4], message, digest, digest),
    )
}

#[test]
fn keys(rt: HostRuntime) {
    hold(&rt, "refusal", REFUSALS);
    hold(&rt, "scheme", SCHEMES);
    hold(&rt, "algorithm", RESOLVED);
    hold(&rt, "sha256", SHA256);
    hold(&rt, "sha384", SHA384);
    hold(&rt, "sha512", SHA512);
    hold(&rt, "from_spki", KEYS);
    hold(&rt, "judgement", JUDGED);
    hold(&rt, "answers_alike", "hello => true");
}
