// Providers that accept the signature 01 of everything, or what equals its subject; a key, and an armour that
// holds it.
ghost use Rattle.std.specs.Prelude.{[], ◌∷◌, Some, bytes_eq, true};
ghost use Rattle.sigstore_keys.specs.Good.{subject_of};

use crate::words::key_bytes;
use foundation::{Duplicate, NoMemory};
use sigstore_keys::{CryptoProvider, SigningScheme, sha256, sha384, sha512};
use sigstore_types_parts::{Armor, Bytes, HashAlgorithm};
use std::alloc::Global;
use std::process::Abort;

// A P-256 key whose raw key is 04 and 64 zero bytes.
pub fn p256() -> &'static str {
    "MFkwEwYHKoZIzj0CAQYIKoZIzj0DAQcDQgAEAAAAAAAAAAAAAAAAAAAAAAAAAAAAAAAAAAAAAAAAAAAAAAAAAAAAAAAAAAAAAAAAAAAAAAAAAAAAAAAAAAAAAA=="
}

// Accepts the signature 01 of everything.
pub struct One;

impl CryptoProvider for One {
    ghost accepts = { λ _ scheme key subject signature. bytes_eq signature (1 ∷ []) };

    fn verify_raw(
        &self,
        _scheme: SigningScheme,
        _key: &[u8],
        _message: &[u8],
        signature: &[u8],
    ) -> bool {
        signature == [1].as_slice()
    }

    fn verify_prehashed(
        &self,
        _scheme: SigningScheme,
        _key: &[u8],
        _digest: &[u8],
        signature: &[u8],
    ) -> bool {
        signature == [1].as_slice()
    }
}

// Accepts a signature that equals its subject.
pub struct Echo;

impl CryptoProvider for Echo {
    ghost accepts = { λ _ scheme key subject signature. bytes_eq subject signature };

    fn verify_raw(
        &self,
        scheme: SigningScheme,
        _key: &[u8],
        message: &[u8],
        signature: &[u8],
    ) -> bool {
        match scheme.hash_algorithm() {
            Some(HashAlgorithm::Sha2256) => sha256(message).as_bytes() == signature,
            Some(HashAlgorithm::Sha2384) => sha384(message).as_bytes() == signature,
            Some(HashAlgorithm::Sha2512) => sha512(message).as_bytes() == signature,
            _ => message == signature,
        }
    }

    fn verify_prehashed(
        &self,
        _scheme: SigningScheme,
        _key: &[u8],
        digest: &[u8],
        signature: &[u8],
    ) -> bool {
        digest == signature
    }
}

// Every text holds the same key.
#[derive(Drop)]
pub struct OneKey {
    key: Bytes,
}

impl Armor for OneKey {
    ghost armored = { λ _ _. true };

    ghost key_in = { λ a _. Some a.key };

    ghost certificate_in = { λ _ text. Some text };

    fn is_armored(&self, _text: &[u8]) -> bool {
        true
    }

    fn read_key(&self, alloc: Global, _text: &[u8]) -> Result<Option<Bytes>, NoMemory> {
        Ok(Some(self.key.duplicate(alloc)?))
    }

    fn read_certificate(&self, alloc: Global, text: &[u8]) -> Result<Option<Bytes>, NoMemory> {
        Ok(Some(Bytes::new(alloc, text)?))
    }

    fn write_certificate(&self, alloc: Global, der: &[u8]) -> Result<Bytes, NoMemory> {
        Bytes::new(alloc, der)
    }
}

pub fn armor<X: AllocGlobal + Abort>(rt: &X) -> OneKey {
    OneKey {
        key: key_bytes(rt, p256()),
    }
}
