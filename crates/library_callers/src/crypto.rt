//! A caller of `certificate_claims`.
use sigstore_keys::{
    ArtifactSource, CryptoProvider, Error, ReadError, VerificationKey, sha256_reader,
};
use sigstore_types_parts::{DerPublicKey, SignatureBytes};
use std::alloc::Global;

/// Why a file isn't taken: it isn't read to its end, or its signature isn't good.
#[derive(Debug, PartialEq, Drop)]
pub enum FileError {
    Read(ReadError),
    Signature(Error),
}

/// The key that a SubjectPublicKeyInfo in DER tells.
pub fn key_of(alloc: Global, spki: &[u8]) -> Result<VerificationKey, Error> {
    let spki = DerPublicKey::from_bytes(alloc, spki)?;
    VerificationKey::from_spki(alloc, &spki)
}

/// Reads a file of at most `max` bytes, and judges the signature of its SHA-256 value; a key whose scheme has
/// another digest is refused.
pub fn check_file<C: CryptoProvider, A: ArtifactSource>(
    provider: &C,
    key: &VerificationKey,
    file: &mut A,
    max: u64,
    signature: &SignatureBytes,
) -> Result<(), FileError> {
    let digest = match sha256_reader(file, max) {
        Ok(digest) => digest,
        Err(fault) => return Err(FileError::Read(fault)),
    };
    match key.verify_prehashed(provider, digest.as_bytes(), signature) {
        Ok(()) => Ok(()),
        Err(fault) => Err(FileError::Signature(fault)),
    }
}
