// Digests that a token tells.
ghost use Rattle.std.specs.Prelude.{◌≡◌, ◌≢◌, Ok, Err, IfOk, IfErr};
ghost use Rattle.sigstore_keys.specs.Digest.{digest_by};
ghost use Rattle.sigstore_tsa_parts.specs.declared.error.Error.TheVariants.{HashMismatch};
ghost use Rattle.sigstore_tsa.specs.Stamp.{known, same_digest};

use der_core::ObjectIdentifier;
use foundation::NoMemory;
use sigstore_keys::{sha256, sha384, sha512};
use sigstore_tsa_parts::{Error, ParseRule, digest_named};
use sigstore_types_parts::{Bytes, HashAlgorithm};
use std::alloc::Global;

/// The digest that an identifier names. Errors: `Parse` with the rule.
pub(crate) fn known(rule: ParseRule, algorithm: &ObjectIdentifier) -> Result<HashAlgorithm, Error>
    ensures { result ≡ known rule algorithm.now }
{
    match digest_named(algorithm) {
        Some(algorithm) => Ok(algorithm),
        None => Err(Error::Parse(rule)),
    }
}

fn digest_by(alloc: Global, algorithm: HashAlgorithm, octets: &[u8]) -> Result<Bytes, NoMemory>
    ensures { IfOk result (λ digest. digest ≡ digest_by algorithm octets.now) }
{
    match algorithm {
        HashAlgorithm::Sha2256 => Bytes::new(alloc, sha256(octets).as_array()),
        HashAlgorithm::Sha2384 => Bytes::new(alloc, sha384(octets).as_array()),
        HashAlgorithm::Sha2512 => Bytes::new(alloc, sha512(octets).as_array()),
        HashAlgorithm::Sha3256 => Bytes::new(alloc, &[]),
        HashAlgorithm::Sha3384 => Bytes::new(alloc, &[]),
    }
}

fn mismatch(alloc: Global, told: &[u8], actual: Bytes) -> Error
    ensures { result ≢ Error.NoMemory → result ≡ HashMismatch told.now actual }
{
    match Bytes::new(alloc, told) {
        Ok(expected) => Error::HashMismatch { expected, actual },
        Err(_) => {
            drop(actual);
            Error::NoMemory
        }
    }
}

/// Whether a digest that is told is the one of octets. Errors: `HashMismatch` with both.
pub(crate) fn check_digest(
    alloc: Global,
    told: &[u8],
    algorithm: HashAlgorithm,
    octets: &[u8],
) -> Result<(), Error>
    ensures ok { IfOk result (λ x. same_digest told.now (digest_by algorithm octets.now) ≡ Ok tt) }
    ensures err { IfErr result (λ e. e ≢ Error.NoMemory → same_digest told.now (digest_by algorithm octets.now) ≡ Err e) }
{
    let actual = match digest_by(alloc, algorithm, octets) {
        Ok(actual) => actual,
        Err(_) => return Err(Error::NoMemory),
    };
    if told == actual.as_bytes() {
        drop(actual);
        Ok(())
    } else {
        Err(mismatch(alloc, told, actual))
    }
}
