//! Signature schemes and keys, digests, who judges signatures, and where an artifact is read from.
#![tactic(auto)]

mod digest;
mod distinct;
mod error;
mod file_source;
mod hashed;
mod hasher;
mod key;
mod key_algorithm;
mod key_pair;
mod keyring;
mod memory_source;
mod pairs;
mod provider;
mod providers;
mod raw_key;
mod reader;
mod scheme;
mod signature;
mod source;

pub use digest::{compute_key_hint, sha256, sha384, sha512};
pub use distinct::{DistinctIds, Threshold};
pub use error::{CertificateFault, CheckpointFault, Error, KeyRule, VerificationFault};
pub use file_source::FileSource;
pub use hashed::HashedMessage;
pub use hasher::{ArtifactHasher, HashUpdate, Sha256Hasher};
pub use key::VerificationKey;
pub use key_pair::{KeyPair, SigningKeyPair, public_key_is_read};
pub use keyring::{Keyring, KeysByHint};
pub use memory_source::MemorySource;
pub use pairs::{SignatureAlgorithm, webpki_verification_algs};
pub use provider::{CryptoProvider, answers_alike};
pub use providers::Providers;
pub use raw_key::validate_raw_public_key;
pub use reader::{ReadError, hash_reader, sha256_reader};
pub use scheme::{KeyAlgorithm, SigningScheme};
pub use signature::{verify_signature, verify_signature_prehashed};
pub use source::{ArtifactSource, ReadFault};
