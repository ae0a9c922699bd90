// A message with its digests.
ghost use Rattle.std.specs.Prelude.{◌≡◌, ◌↔◌, IsOk, IsTrue, length};
ghost use Rattle.sha2.specs.Sha256.{sha256};
ghost use Rattle.sha2.specs.Sha512.{sha384, sha512};
ghost use Rattle.sigstore_keys.specs.Good.{subject_of, verified_of, is_good};
ghost use Rattle.sigstore_keys.specs.Scheme.{has_digest, digest_size_of};

use crate::digest::{sha256, sha384, sha512};
use crate::error::{Error, VerificationFault};
use crate::key::VerificationKey;
use crate::provider::CryptoProvider;
use crate::raw_key::raw_key;
use crate::scheme::SigningScheme;
use sigstore_types_parts::{Sha256Hash, Sha384Hash, Sha512Hash, SignatureBytes};
use std::marker::Model;

/// A message that several signatures are judged over, with each of its digests: they are taken once, since
/// else whoever writes many signatures would have a long message digested as often. Contracts see the message.
#[derive(Drop)]
pub struct HashedMessage<'m> {
    message: &'m [u8],
    by_sha256: Sha256Hash,
    by_sha384: Sha384Hash,
    by_sha512: Sha512Hash,
}

impl<'m> Model for HashedMessage<'m> {
    ghost use Rattle.std.specs.Prelude.{ℕ, List};
    ghost use Rattle.sigstore_keys.specs.Hashed.{HasDigests};

    ghost Value = { List ℕ };

    ghost view = { λ m. m.message.now };

    ghost invariant = { λ m. HasDigests m.message.now m.by_sha256 m.by_sha384 m.by_sha512 };
}

impl<'m> HashedMessage<'m> {
    /// The message with its digests.
    pub fn new(message: &'m [u8]) -> HashedMessage<'m>
        ensures { result ≡ message.now }
    {
        HashedMessage {
            message,
            by_sha256: sha256(message),
            by_sha384: sha384(message),
            by_sha512: sha512(message),
        }
    }

    /// What a signature of the message is judged over under a scheme: a digest where the scheme has one.
    pub fn subject(&self, scheme: SigningScheme) -> &[u8]
        ensures exact { result.now ≡ subject_of scheme self.now }
        ensures sized { IsTrue (has_digest scheme) → length result.now ≡ digest_size_of scheme }
    {
        match scheme {
            SigningScheme::EcdsaP256Sha256 => self.by_sha256(),
            SigningScheme::EcdsaP256Sha384 => self.by_sha384(),
            SigningScheme::EcdsaP384Sha256 => self.by_sha256(),
            SigningScheme::EcdsaP384Sha384 => self.by_sha384(),
            SigningScheme::Ed25519 => self.message(),
            SigningScheme::RsaPssSha256 => self.by_sha256(),
            SigningScheme::RsaPssSha384 => self.by_sha384(),
            SigningScheme::RsaPssSha512 => self.by_sha512(),
            SigningScheme::RsaPkcs1Sha256 => self.by_sha256(),
            SigningScheme::RsaPkcs1Sha384 => self.by_sha384(),
            SigningScheme::RsaPkcs1Sha512 => self.by_sha512(),
            SigningScheme::MlDsa44 => self.message(),
            SigningScheme::MlDsa65 => self.message(),
            SigningScheme::MlDsa87 => self.message(),
        }
    }

    /// The message itself.
    pub fn message(&self) -> &[u8]
        ensures { result.now ≡ self.now }
    {
        self.message
    }

    fn by_sha256(&self) -> &[u8]
        ensures exact { result.now ≡ sha256 self.now }
        ensures sized { length result.now ≡ 32 }
    {
        self.by_sha256.as_array()
    }

    fn by_sha384(&self) -> &[u8]
        ensures exact { result.now ≡ sha384 self.now }
        ensures sized { length result.now ≡ 48 }
    {
        self.by_sha384.as_array()
    }

    /// The message's SHA-512 value (FIPS 180-4).
    pub fn by_sha512(&self) -> &[u8]
        ensures exact { result.now ≡ sha512 self.now }
        ensures sized { length result.now ≡ 64 }
    {
        self.by_sha512.as_array()
    }
}

// Whether the provider accepts a signature of the message, asked over the digest where the scheme has one.
fn is_accepted<C: CryptoProvider>(
    provider: &C,
    key: &VerificationKey,
    message: &HashedMessage<'_>,
    signature: &SignatureBytes,
) -> bool
    ensures { result ≡ C.accepts provider.now key.now.scheme key.now.key (subject_of key.now.scheme message.now) signature.now }
{
    if key.scheme.supports_prehashed() {
        let digest = message.subject(key.scheme);
        provider.verify_prehashed(key.scheme, key.as_bytes(), digest, signature.as_bytes())
    } else {
        provider.verify_raw(
            key.scheme,
            key.as_bytes(),
            message.message(),
            signature.as_bytes(),
        )
    }
}

impl VerificationKey {
    /// Whether the signature of a message whose digests are taken is good. Errors: as `verify`.
    pub fn verify_hashed<C: CryptoProvider>(
        &self,
        provider: &C,
        message: &HashedMessage<'_>,
        signature: &SignatureBytes,
    ) -> Result<(), Error>
        ensures exact { result ≡ verified_of (C.accepts provider.now) self.now message.now signature.now }
        ensures good { IsOk result ↔ IsTrue (is_good (C.accepts provider.now) self.now message.now signature.now) }
    {
        raw_key(
            self.scheme.key_algorithm(),
            self.as_bytes(),
            Error::Verification(VerificationFault::RawKey),
        )?;
        if is_accepted(provider, self, message, signature) {
            Ok(())
        } else {
            Err(Error::Verification(VerificationFault::Refused))
        }
    }
}
