// What is compared of an entry.
ghost use Rattle.std.specs.Prelude.{◌≡◌, ◌≢◌, Some, Ok, Err, IfOk, IfErr, option_copied};
ghost use Rattle.sigstore_types_parts.specs.HashAlgorithm.{same_algorithm};
ghost use Rattle.sigstore_types_parts.specs.declared.hash_algorithm.HashAlgorithm.TheVariants.{Sha2256};
ghost use Rattle.sigstore_binding.specs.Checks.{is_own, holds_or, check_of};
ghost use Rattle.sigstore_binding.specs.Rows.{hex_sha256_of, sha256_in, hex_bytes_of, twice_of, by_sha256, signature_check, sole};
ghost use Rattle.sigstore_binding.specs.Verifier.{or_malformed};

use crate::error::BindingError;
use base64::DecodeAllocError;
use base64::engine::general_purpose::STANDARD;
use foundation::Sequence;
use sigstore_rekor_parts::HexHash;
use sigstore_types_parts::{
    Bytes, DigestBytes, HashAlgorithm, Sha256Hash, SignatureBytes, TypesError,
};
use std::alloc::Global;

/// A fact that an entry has to meet.
pub(crate) fn holds(fact: bool, otherwise: BindingError) -> Result<(), BindingError>
    ensures { result ≡ holds_or otherwise fact }
{
    if fact { Ok(()) } else { Err(otherwise) }
}

/// What an entry logged is what the signature has.
pub(crate) fn same(
    logged: &[u8],
    own: Option<&[u8]>,
    otherwise: BindingError,
) -> Result<(), BindingError>
    ensures { result ≡ holds_or otherwise (is_own logged.now (option_copied own.entry)) }
{
    match own {
        Some(own) => holds(logged == own, otherwise),
        None => Err(otherwise),
    }
}

/// The digest is by SHA-256.
pub(crate) fn check_algorithm(algorithm: HashAlgorithm) -> Result<(), BindingError>
    ensures { result ≡ check_of (by_sha256 algorithm) }
{
    holds(
        algorithm.is_same(HashAlgorithm::Sha2256),
        BindingError::Unsupported,
    )
}

/// The signature is this one.
pub(crate) fn check_signature(
    logged: &SignatureBytes,
    signature: &SignatureBytes,
) -> Result<(), BindingError>
    ensures { result ≡ check_of (signature_check logged.now signature.now) }
{
    same(
        logged.as_bytes(),
        Some(signature.as_bytes()),
        BindingError::EntryMismatch,
    )
}

/// A SHA-256 value in hexadecimal.
pub(crate) fn hex_sha256(text: &HexHash) -> Result<Sha256Hash, BindingError>
    ensures { result ≡ hex_sha256_of text.now }
{
    match text.to_sha256() {
        Ok(digest) => Ok(digest),
        Err(_) => Err(BindingError::MalformedEntry),
    }
}

/// A SHA-256 value in octets.
pub(crate) fn sha256_value(digest: &DigestBytes) -> Result<Sha256Hash, BindingError>
    ensures { result ≡ sha256_in digest.now }
{
    match Sha256Hash::try_from(digest.as_bytes()) {
        Ok(digest) => Ok(digest),
        Err(_) => Err(BindingError::MalformedEntry),
    }
}

/// Octets in hexadecimal.
pub(crate) fn hex_bytes(alloc: Global, text: &HexHash) -> Result<Bytes, BindingError>
    ensures ok { IfOk result (λ bytes. hex_bytes_of text.now ≡ Ok bytes) }
    ensures err { IfErr result (λ e. e ≢ BindingError.NoMemory → hex_bytes_of text.now ≡ Err e) }
{
    match text.decode(alloc) {
        Ok(bytes) => Ok(bytes),
        Err(TypesError::NoMemory) => Err(BindingError::NoMemory),
        Err(_) => Err(BindingError::MalformedEntry),
    }
}

/// Octets that were written in base64 once more.
pub(crate) fn twice(alloc: Global, text: &SignatureBytes) -> Result<Bytes, BindingError>
    ensures ok { IfOk result (λ bytes. twice_of text.now ≡ Ok bytes) }
    ensures err { IfErr result (λ e. e ≢ BindingError.NoMemory → twice_of text.now ≡ Err e) }
{
    match STANDARD.decode(alloc, text.as_bytes()) {
        Ok(bytes) => Ok(Bytes::from_vec(bytes)),
        Err(DecodeAllocError::OutOfMemory) => Err(BindingError::NoMemory),
        Err(_) => Err(BindingError::MalformedEntry),
    }
}

/// The one member of a list of signatures.
pub(crate) fn sole<A>(list: &Sequence<A>) -> Result<&A, BindingError>
    ensures ok { IfOk result (λ one. sole list.now ≡ Ok one.now) }
    ensures err { IfErr result (λ e. sole list.now ≡ Err e) }
{
    match list.as_slice() {
        [one] => Ok(one),
        _ => Err(BindingError::EntryMismatch),
    }
}
