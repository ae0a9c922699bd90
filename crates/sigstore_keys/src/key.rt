// Keys that verify.
ghost use Rattle.std.specs.Prelude.{◌≡◌, ◌≢◌, ◌↔◌, Ok, Err, IsTrue, IsOk, IfOk, IfErr, length};
ghost use Rattle.sigstore_keys.specs.Scheme.{has_digest, key_algorithm_of, digest_size_of};
ghost use Rattle.spki_core.specs.Views.{spki_parts};
ghost use Rattle.sigstore_keys.specs.Key.{key_of_parts, spki_key_of, of_scheme, key_under, spki_key_under, bare_key_under, der_key_of};
ghost use Rattle.sigstore_keys.specs.Good.{verified_of, prehashed_of, is_good, is_good_over};

use crate::error::{Error, KeyRule, VerificationFault};
use crate::key_algorithm::algorithm_in;
use crate::provider::CryptoProvider;
use crate::raw_key::raw_key;
use crate::scheme::{KeyAlgorithm, SigningScheme};
use foundation::{Duplicate, NoMemory};
use sigstore_types_parts::{Bytes, DerPublicKey, SignatureBytes};
use spki_core::{RsaKeyView, SpkiView};
use std::alloc::Global;

/// A scheme and a raw key of its sort.
#[derive(Debug, PartialEq, Eq, Drop)]
pub struct VerificationKey {
    pub scheme: SigningScheme,
    pub key: Bytes,
}

// The raw key is the octets of the bit string.
#[tactic(auto, unfolding(crate::specs::Key::key_of_parts))]
fn key_in(alloc: Global, view: &SpkiView) -> Result<VerificationKey, Error>
    ensures ok { IfOk result (λ key. key_of_parts (spki_parts view.now) ≡ Ok key) }
    ensures err { IfErr result (λ e. e ≢ Error.NoMemory → key_of_parts (spki_parts view.now) ≡ Err e) }
{
    let algorithm = algorithm_in(view)?;
    Ok(VerificationKey {
        scheme: algorithm.default_signing_scheme(),
        key: Bytes::new(alloc, view.key)?,
    })
}

fn check_scheme(scheme: SigningScheme, algorithm: KeyAlgorithm) -> Result<(), Error>
    ensures { result ≡ of_scheme scheme algorithm }
{
    if algorithm == scheme.key_algorithm() {
        Ok(())
    } else {
        Err(Error::InvalidKey(KeyRule::Scheme))
    }
}

#[tactic(auto, unfolding(crate::specs::Key::key_under))]
fn key_under(
    alloc: Global,
    scheme: SigningScheme,
    view: &SpkiView,
) -> Result<VerificationKey, Error>
    ensures ok { IfOk result (λ key. key_under scheme (spki_parts view.now) ≡ Ok key) }
    ensures err { IfErr result (λ e. e ≢ Error.NoMemory → key_under scheme (spki_parts view.now) ≡ Err e) }
{
    let algorithm = algorithm_in(view)?;
    check_scheme(scheme, algorithm)?;
    Ok(VerificationKey {
        scheme,
        key: Bytes::new(alloc, view.key)?,
    })
}

// A bare RSA key (RFC 8017, A.1.1), for the schemes of RSA.
fn bare_key(alloc: Global, scheme: SigningScheme, der: &[u8]) -> Result<VerificationKey, Error>
    ensures ok { IfOk result (λ key. bare_key_under scheme der.now ≡ Ok key) }
    ensures err { IfErr result (λ e. e ≢ Error.NoMemory → bare_key_under scheme der.now ≡ Err e) }
{
    if scheme.key_algorithm() != KeyAlgorithm::Rsa || RsaKeyView::parse(der).is_err() {
        return Err(Error::InvalidKey(KeyRule::Encoding));
    }
    Ok(VerificationKey {
        scheme,
        key: Bytes::new(alloc, der)?,
    })
}

impl VerificationKey {
    /// The key of a SubjectPublicKeyInfo (RFC 5280, section 4.1), under its default scheme. Errors:
    /// `InvalidKey` as `KeyAlgorithm::from_spki`: not one (`Encoding`), `Algorithm`, `UnusedBits`, then an
    /// RSA key that isn't read (`Encoding`).
    #[tactic(auto, unfolding(crate::specs::Key::spki_key_of))]
    pub fn from_spki(alloc: Global, der: &DerPublicKey) -> Result<VerificationKey, Error>
        ensures ok { IfOk result (λ key. spki_key_of der.now ≡ Ok key) }
        ensures err { IfErr result (λ e. e ≢ Error.NoMemory → spki_key_of der.now ≡ Err e) }
    {
        let view = match SpkiView::parse(der.as_bytes()) {
            Ok(view) => view,
            Err(_) => return Err(Error::InvalidKey(KeyRule::Encoding)),
        };
        Ok(key_in(alloc, &view)?)
    }

    /// The key of a SubjectPublicKeyInfo under a scheme. Errors: `InvalidKey`, in order: not one
    /// (`Encoding`), `Algorithm`, `UnusedBits`, an RSA key that isn't read (`Encoding`), and `Scheme` where
    /// the key isn't of the scheme's algorithm.
    #[tactic(auto, unfolding(crate::specs::Key::spki_key_under))]
    pub fn from_spki_with_scheme(
        alloc: Global,
        der: &DerPublicKey,
        scheme: SigningScheme,
    ) -> Result<VerificationKey, Error>
        ensures ok { IfOk result (λ key. spki_key_under scheme der.now ≡ Ok key) }
        ensures err { IfErr result (λ e. e ≢ Error.NoMemory → spki_key_under scheme der.now ≡ Err e) }
    {
        let view = match SpkiView::parse(der.as_bytes()) {
            Ok(view) => view,
            Err(_) => return Err(Error::InvalidKey(KeyRule::Encoding)),
        };
        Ok(key_under(alloc, scheme, &view)?)
    }

    /// The key in DER under a scheme: of a SubjectPublicKeyInfo as there, and where the bytes are none, for
    /// the schemes of RSA a bare RSA key (RFC 8017, A.1.1), the bytes being the raw key. Errors:
    /// `InvalidKey`, in order: neither (`Encoding`), `Algorithm`, `UnusedBits`, the RSA key in it
    /// (`Encoding`), `Scheme`.
    #[tactic(auto, unfolding(crate::specs::Key::der_key_of))]
    pub fn from_der(
        alloc: Global,
        der: &DerPublicKey,
        scheme: SigningScheme,
    ) -> Result<VerificationKey, Error>
        ensures ok { IfOk result (λ key. der_key_of scheme der.now ≡ Ok key) }
        ensures err { IfErr result (λ e. e ≢ Error.NoMemory → der_key_of scheme der.now ≡ Err e) }
    {
        match SpkiView::parse(der.as_bytes()) {
            Ok(view) => Ok(key_under(alloc, scheme, &view)?),
            Err(_) => Ok(bare_key(alloc, scheme, der.as_bytes())?),
        }
    }

    /// The raw key.
    pub fn as_bytes(&self) -> &[u8]
        ensures { result.now ≡ self.now.key }
    {
        self.key.as_bytes()
    }

    /// The scheme.
    pub fn scheme(&self) -> SigningScheme
        ensures { result ≡ self.now.scheme }
    {
        self.scheme
    }

    /// Whether the signature of a message is good. Errors: `Verification(RawKey)` where the raw key fails
    /// its test, then `Verification(Refused)` where the provider doesn't accept.
    pub fn verify<C: CryptoProvider>(
        &self,
        provider: &C,
        message: &[u8],
        signature: &SignatureBytes,
    ) -> Result<(), Error>
        ensures exact { result ≡ verified_of (C.accepts provider.now) self.now message.now signature.now }
        ensures good { IsOk result ↔ IsTrue (is_good (C.accepts provider.now) self.now message.now signature.now) }
    {
        raw_key(
            self.scheme.key_algorithm(),
            self.as_bytes(),
            Error::Verification(VerificationFault::RawKey),
        )?;
        if provider.verify_raw(self.scheme, self.as_bytes(), message, signature.as_bytes()) {
            Ok(())
        } else {
            Err(Error::Verification(VerificationFault::Refused))
        }
    }

    /// Whether the signature of a message with that digest is good. Errors: `UnsupportedAlgorithm` where
    /// the scheme has no digest, `Verification(DigestLength)` for a digest of another length, then as `verify`.
    pub fn verify_prehashed<C: CryptoProvider>(
        &self,
        provider: &C,
        digest: &[u8],
        signature: &SignatureBytes,
    ) -> Result<(), Error>
        ensures exact { result ≡ prehashed_of (C.accepts provider.now) self.now digest.now signature.now }
        ensures good { length digest.now ≡ digest_size_of self.now.scheme → IsTrue (has_digest self.now.scheme) → IsOk result ↔ IsTrue (is_good_over (C.accepts provider.now) self.now digest.now signature.now) }
    {
        let Some(algorithm) = self.scheme.hash_algorithm() else {
            return Err(Error::UnsupportedAlgorithm);
        };
        if digest.len() != algorithm.digest_len() {
            return Err(Error::Verification(VerificationFault::DigestLength));
        }
        raw_key(
            self.scheme.key_algorithm(),
            self.as_bytes(),
            Error::Verification(VerificationFault::RawKey),
        )?;
        if provider.verify_prehashed(self.scheme, self.as_bytes(), digest, signature.as_bytes()) {
            Ok(())
        } else {
            Err(Error::Verification(VerificationFault::Refused))
        }
    }
}

impl Duplicate for VerificationKey {
    fn duplicate(&self, alloc: Global) -> Result<VerificationKey, NoMemory> {
        Ok(VerificationKey {
            scheme: self.scheme,
            key: self.key.duplicate(alloc)?,
        })
    }
}
