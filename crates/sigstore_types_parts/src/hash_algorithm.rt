// Digest algorithms, and digests of an artifact.
ghost use Rattle.std.specs.Prelude.{◌≡◌, length};
ghost use Rattle.sigstore_types_parts.specs.Error.{types_of};
ghost use Rattle.sigstore_types_parts.specs.HashAlgorithm.{same_algorithm, digest_len_of, rekor_name_of, algorithm_named, artifact_digest_of};

use crate::bytes::Bytes;
use crate::error::TypesError;
use foundation::{Duplicate, NoMemory};
use std::alloc::Global;
use std::marker::Model;

/// A digest algorithm (FIPS 180-4, FIPS 202).
#[derive(Clone, Copy, Debug, PartialEq, Eq, Drop)]
pub enum HashAlgorithm {
    Sha2256,
    Sha2384,
    Sha2512,
    Sha3256,
    Sha3384,
}

impl HashAlgorithm {
    /// Whether this is that algorithm.
    pub fn is_same(self, other: HashAlgorithm) -> bool
        ensures { result ≡ same_algorithm self other }
    {
        match (self, other) {
            (HashAlgorithm::Sha2256, HashAlgorithm::Sha2256) => true,
            (HashAlgorithm::Sha2384, HashAlgorithm::Sha2384) => true,
            (HashAlgorithm::Sha2512, HashAlgorithm::Sha2512) => true,
            (HashAlgorithm::Sha3256, HashAlgorithm::Sha3256) => true,
            (HashAlgorithm::Sha3384, HashAlgorithm::Sha3384) => true,
            _ => false,
        }
    }

    /// The length of a digest in bytes.
    pub fn digest_len(self) -> usize
        ensures { result ≡ digest_len_of self }
    {
        match self {
            HashAlgorithm::Sha2256 => 32,
            HashAlgorithm::Sha2384 => 48,
            HashAlgorithm::Sha2512 => 64,
            HashAlgorithm::Sha3256 => 32,
            HashAlgorithm::Sha3384 => 48,
        }
    }

    /// The name that Rekor's entries use.
    pub fn as_rekor_str(self) -> &'static str
        ensures { result.now ≡ rekor_name_of self }
    {
        match self {
            HashAlgorithm::Sha2256 => "sha256",
            HashAlgorithm::Sha2384 => "sha384",
            HashAlgorithm::Sha2512 => "sha512",
            HashAlgorithm::Sha3256 => "sha3-256",
            HashAlgorithm::Sha3384 => "sha3-384",
        }
    }

    /// The algorithm of a name, as bundles or as Rekor's entries write it.
    pub fn from_name(name: &str) -> Option<HashAlgorithm>
        ensures { result ≡ algorithm_named name.now }
    {
        match name {
            "SHA2_256" | "sha256" => Some(HashAlgorithm::Sha2256),
            "SHA2_384" | "sha384" => Some(HashAlgorithm::Sha2384),
            "SHA2_512" | "sha512" => Some(HashAlgorithm::Sha2512),
            "SHA3_256" | "sha3-256" => Some(HashAlgorithm::Sha3256),
            "SHA3_384" | "sha3-384" => Some(HashAlgorithm::Sha3384),
            _ => None,
        }
    }
}

/// A digest of an artifact, of its algorithm's length; contracts see the algorithm and the bytes.
#[derive(Debug, PartialEq, Eq, Drop)]
pub struct ArtifactDigest {
    algorithm: HashAlgorithm,
    bytes: Bytes,
}

impl Model for ArtifactDigest {
    ghost use Rattle.std.specs.Prelude.{ℕ, List};
    ghost use Rattle.sigstore_types_parts.specs.declared.hash_algorithm.HashAlgorithm.{HashAlgorithm};

    ghost Value = { HashAlgorithm × List ℕ };

    ghost view = { λ d. (d.algorithm, d.bytes) };

    ghost inverse = { λ v. record { algorithm = v.0; bytes = v.1 } };

    ghost use Rattle.std.specs.Prelude.{◌≡◌, length};
    ghost use Rattle.sigstore_types_parts.specs.HashAlgorithm.{digest_len_of};

    ghost invariant = { λ d. length d.bytes ≡ digest_len_of d.algorithm };
}

impl Duplicate for ArtifactDigest {
    fn duplicate(&self, alloc: Global) -> Result<ArtifactDigest, NoMemory> {
        Ok(ArtifactDigest {
            algorithm: self.algorithm,
            bytes: self.bytes.duplicate(alloc)?,
        })
    }
}

impl ArtifactDigest {
    /// A digest of that algorithm. Errors: `Length` where the bytes have another length.
    pub fn new(algorithm: HashAlgorithm, bytes: Bytes) -> Result<ArtifactDigest, TypesError>
        ensures { result ≡ artifact_digest_of algorithm bytes }
    {
        let actual = bytes.as_bytes().len();
        if actual != algorithm.digest_len() {
            return Err(TypesError::Length {
                expected: algorithm.digest_len() as u64,
                actual: actual as u64,
            });
        }
        Ok(ArtifactDigest { algorithm, bytes })
    }

    /// The algorithm.
    pub fn algorithm(&self) -> HashAlgorithm
        ensures { result ≡ self.now.0 }
    {
        self.algorithm
    }

    /// The digest.
    pub fn as_bytes(&self) -> &[u8]
        ensures bytes { result.now ≡ self.now.1 }
        ensures size { length result.now ≡ digest_len_of self.now.0 }
    {
        self.bytes.as_bytes()
    }
}

/// An artifact that is handed in: its bytes, or a digest of it alone.
#[derive(Drop)]
pub enum Artifact<'a> {
    Blob(&'a [u8]),
    Digest(ArtifactDigest),
}
