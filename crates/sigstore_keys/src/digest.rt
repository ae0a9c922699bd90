// Digests of bytes (FIPS 180-4).
ghost use Rattle.std.specs.Prelude.{◌≡◌, take};
ghost use Rattle.sha2.specs.Sha256.{sha256};
ghost use Rattle.sha2.specs.Sha512.{sha384, sha512};

use sha2::{Digest, Sha256, Sha384, Sha512};
use sigstore_types_parts::{DerPublicKey, Hash, KeyHint, Sha256Hash, Sha384Hash, Sha512Hash};

/// The SHA-256 value of bytes.
pub fn sha256(bytes: &[u8]) -> Sha256Hash
    ensures { result ≡ sha256 bytes.now }
{
    Hash::new(Sha256::digest(bytes))
}

/// The SHA-384 value of bytes.
pub fn sha384(bytes: &[u8]) -> Sha384Hash
    ensures { result ≡ sha384 bytes.now }
{
    Hash::new(Sha384::digest(bytes))
}

/// The SHA-512 value of bytes.
pub fn sha512(bytes: &[u8]) -> Sha512Hash
    ensures { result ≡ sha512 bytes.now }
{
    Hash::new(Sha512::digest(bytes))
}

/// The first four bytes of a key's SHA-256 value, which name the key on a checkpoint.
pub fn compute_key_hint(key: &DerPublicKey) -> KeyHint
    ensures { result ≡ take 4 (sha256 key.now) }
{
    let digest = Sha256::digest(key.as_bytes());
    let (front, _) = digest.split_at(4);
    let mut hint = [0u8; 4];
    hint.copy_from_slice(front);
    Hash::new(hint)
}
