// Hashers that take an artifact piece by piece (FIPS 180-4).
ghost use Rattle.std.specs.Prelude.{◌≡◌, ◌++◌, [], ℕ, List, length, true, false, Ok, Err, IfOk, IfErr};
ghost use Rattle.sha2.specs.Hashers.{Holds256};
ghost use Rattle.sha2.specs.Sha256.{sha256};
ghost use Rattle.sigstore_types_parts.specs.HashAlgorithm.{digest_len_of};
ghost use Rattle.sigstore_keys.specs.declared.error.Error.TheVariants.{NoMemory, UnsupportedAlgorithm};
ghost use Rattle.sigstore_keys.specs.Digest.{is_hashed, digest_by};
ghost use Rattle.sigstore_keys.specs.Hasher.{Holds, algorithm_in, Grows, grows-none, grows-more, Grows256, grows256-none, grows256-more};

use crate::error::Error;
use sha2::{Digest, Sha256, Sha384, Sha512};
use sigstore_types_parts::{ArtifactDigest, Bytes, Hash, HashAlgorithm, Sha256Hash};
use std::alloc::Global;

/// Takes bytes in turn; contracts see what it is after bytes that it took.
pub trait HashUpdate: Drop {
    ghost grows: { Self → List ℕ → Self → Type 0 };

    /// Takes these bytes, behind those that it has seen.
    fn update(&mut self, bytes: &[u8])
        ensures { grows self.old bytes.now self.new };

    ghost none: { (h : Self) → grows h [] h };

    ghost more: { (h k l : Self) (a b : List ℕ) → grows h a k → grows k b l → grows h (a ++ b) l };
}

#[derive(Drop)]
enum Inner {
    Sha256(Sha256),
    Sha384(Sha384),
    Sha512(Sha512),
}

/// A hasher of one of the SHA-2 algorithms.
#[derive(Drop)]
pub struct ArtifactHasher {
    inner: Inner,
}

impl ArtifactHasher {
    /// Whether there is a hasher of an algorithm: of SHA-2 and not of SHA-3.
    pub fn is_known(algorithm: HashAlgorithm) -> bool
        ensures { result ≡ is_hashed algorithm }
    {
        match algorithm {
            HashAlgorithm::Sha2256 | HashAlgorithm::Sha2384 | HashAlgorithm::Sha2512 => true,
            HashAlgorithm::Sha3256 | HashAlgorithm::Sha3384 => false,
        }
    }

    /// A hasher that has seen nothing. Errors: `UnsupportedAlgorithm` for the algorithms of SHA-3.
    pub fn new(algorithm: HashAlgorithm) -> Result<ArtifactHasher, Error>
        ensures ok { IfOk result (λ hasher. Holds hasher [] × (algorithm_in hasher ≡ algorithm) × (is_hashed algorithm ≡ true)) }
        ensures err { IfErr result (λ e. (e ≡ UnsupportedAlgorithm) × (is_hashed algorithm ≡ false)) }
    {
        let inner = match algorithm {
            HashAlgorithm::Sha2256 => Inner::Sha256(Sha256::new()),
            HashAlgorithm::Sha2384 => Inner::Sha384(Sha384::new()),
            HashAlgorithm::Sha2512 => Inner::Sha512(Sha512::new()),
            HashAlgorithm::Sha3256 => return Err(Error::UnsupportedAlgorithm),
            HashAlgorithm::Sha3384 => return Err(Error::UnsupportedAlgorithm),
        };
        Ok(ArtifactHasher { inner })
    }

    /// The digest of the bytes that it has seen.
    pub fn finalize(self, alloc: Global) -> Result<ArtifactDigest, Error>
        ensures ok { IfOk result (λ digest. (seen : List ℕ) → Holds self seen
            → digest ≡ (algorithm_in self, digest_by (algorithm_in self) seen)) }
        ensures err { IfErr result (λ e. e ≡ NoMemory) }
    {
        match self.inner {
            Inner::Sha256(hasher) => digest_in(alloc, HashAlgorithm::Sha2256, &hasher.finalize()),
            Inner::Sha384(hasher) => digest_in(alloc, HashAlgorithm::Sha2384, &hasher.finalize()),
            Inner::Sha512(hasher) => digest_in(alloc, HashAlgorithm::Sha2512, &hasher.finalize()),
        }
    }
}

// The digest of an algorithm, which these octets are.
fn digest_in(
    alloc: Global,
    algorithm: HashAlgorithm,
    octets: &[u8],
) -> Result<ArtifactDigest, Error>
    requires { length octets.now ≡ digest_len_of algorithm }
    ensures ok { IfOk result (λ digest. digest ≡ (algorithm, octets.now)) }
    ensures err { IfErr result (λ e. e ≡ NoMemory) }
{
    let bytes = Bytes::new(alloc, octets)?;
    Ok(ArtifactDigest::new(algorithm, bytes).unwrap())
}

impl HashUpdate for ArtifactHasher {
    ghost grows = { Grows };

    ghost none = { grows-none };

    ghost more = { grows-more };

    fn update(&mut self, bytes: &[u8]) {
        match &mut self.inner {
            Inner::Sha256(hasher) => hasher.update(bytes),
            Inner::Sha384(hasher) => hasher.update(bytes),
            Inner::Sha512(hasher) => hasher.update(bytes),
        }
    }
}

/// A hasher of SHA-256.
#[derive(Drop)]
pub struct Sha256Hasher {
    inner: Sha256,
}

impl Sha256Hasher {
    /// A hasher that has seen nothing.
    pub fn new() -> Sha256Hasher
        ensures { Holds256 result.inner [] }
    {
        Sha256Hasher {
            inner: Sha256::new(),
        }
    }

    /// The SHA-256 value of the bytes that it has seen.
    pub fn finalize(self) -> Sha256Hash
        ensures { (seen : List ℕ) → Holds256 self.inner seen → result ≡ sha256 seen }
    {
        Hash::new(self.inner.finalize())
    }
}

impl Default for Sha256Hasher {
    ghost is_default = { λ hasher. Holds256 hasher.inner [] };

    fn default() -> Sha256Hasher {
        Sha256Hasher::new()
    }
}

impl HashUpdate for Sha256Hasher {
    ghost grows = { Grows256 };

    ghost none = { grows256-none };

    ghost more = { grows256-more };

    fn update(&mut self, bytes: &[u8]) {
        self.inner.update(bytes);
    }
}
