// Signatures under keys in DER.
ghost use Rattle.std.specs.Prelude.{◌≡◌, ◌≢◌, ◌↔◌, Ok, Err, IsTrue, IsOk, IfOk, IfErr, length};
ghost use Rattle.sigstore_keys.specs.Scheme.{has_digest, digest_size_of};
ghost use Rattle.sigstore_keys.specs.Good.{der_verified_of, der_prehashed_of, is_der_good, is_der_good_over};

use crate::error::Error;
use crate::key::VerificationKey;
use crate::provider::CryptoProvider;
use crate::scheme::SigningScheme;
use sigstore_types_parts::{DerPublicKey, SignatureBytes};
use std::alloc::Global;

/// Whether the signature of a message is good under a key in DER. Errors: `InvalidKey` as
/// `VerificationKey::from_der`, then as `VerificationKey::verify`.
pub fn verify_signature<C: CryptoProvider>(
    alloc: Global,
    provider: &C,
    der: &DerPublicKey,
    message: &[u8],
    signature: &SignatureBytes,
    scheme: SigningScheme,
) -> Result<(), Error>
    ensures ok { IfOk result (λ v. der_verified_of (C.accepts provider.now) scheme der.now message.now signature.now ≡ Ok v) }
    ensures err { IfErr result (λ e. e ≢ Error.NoMemory
        → der_verified_of (C.accepts provider.now) scheme der.now message.now signature.now ≡ Err e) }
    ensures good { result ≢ Err Error.NoMemory → IsOk result
        ↔ IsTrue (is_der_good (C.accepts provider.now) scheme der.now message.now signature.now) }
{
    let key = VerificationKey::from_der(alloc, der, scheme)?;
    key.verify(provider, message, signature)
}

/// Whether the signature of a message with that digest is good under a key in DER. Errors: `InvalidKey` as
/// `VerificationKey::from_der`, then as `VerificationKey::verify_prehashed`.
pub fn verify_signature_prehashed<C: CryptoProvider>(
    alloc: Global,
    provider: &C,
    der: &DerPublicKey,
    digest: &[u8],
    signature: &SignatureBytes,
    scheme: SigningScheme,
) -> Result<(), Error>
    ensures ok { IfOk result (λ v. der_prehashed_of (C.accepts provider.now) scheme der.now digest.now signature.now ≡ Ok v) }
    ensures err { IfErr result (λ e. e ≢ Error.NoMemory
        → der_prehashed_of (C.accepts provider.now) scheme der.now digest.now signature.now ≡ Err e) }
    ensures good { length digest.now ≡ digest_size_of scheme → IsTrue (has_digest scheme) → result ≢ Err Error.NoMemory
        → IsOk result ↔ IsTrue (is_der_good_over (C.accepts provider.now) scheme der.now digest.now signature.now) }
{
    let key = VerificationKey::from_der(alloc, der, scheme)?;
    key.verify_prehashed(provider, digest, signature)
}
