// The test of raw keys.
ghost use Rattle.std.specs.Prelude.{◌≡◌};
ghost use Rattle.spki_core.specs.Rsa.{rsa_key_of};
ghost use Rattle.sigstore_keys.specs.Good.{is_uncompressed, is_modulus, is_rsa_key, is_raw_key, raw_key_by, raw_key_of};

use crate::error::{Error, KeyRule};
use crate::scheme::{KeyAlgorithm, SigningScheme};
use spki_core::RsaKeyView;

// A point that isn't compressed begins with 04 (SEC 1, section 2.3.3).
fn is_uncompressed(key: &[u8]) -> bool
    ensures { result ≡ is_uncompressed key.now }
{
    matches!(key, [4, ..])
}

// A modulus of 2048 to 8192 bits.
fn is_modulus(key: &RsaKeyView) -> bool
    ensures { result ≡ is_modulus key.now.modulus.now }
{
    let bits = key.modulus_bits();
    2048 <= bits && bits <= 8192
}

// An RSA key (RFC 8017, A.1.1) with such a modulus.
fn is_rsa_key(key: &[u8]) -> bool
    ensures { result ≡ is_rsa_key (rsa_key_of key.now) }
{
    match RsaKeyView::parse(key) {
        Ok(key) => is_modulus(&key),
        Err(_) => false,
    }
}

fn is_raw_key(algorithm: KeyAlgorithm, key: &[u8]) -> bool
    ensures { result ≡ is_raw_key algorithm key.now }
{
    match algorithm {
        KeyAlgorithm::EcdsaP256 | KeyAlgorithm::EcdsaP384 => is_uncompressed(key),
        KeyAlgorithm::Rsa => is_rsa_key(key),
        KeyAlgorithm::Ed25519 => true,
        KeyAlgorithm::MlDsa44 => true,
        KeyAlgorithm::MlDsa65 => true,
        KeyAlgorithm::MlDsa87 => true,
    }
}

/// The test of a raw key, with the refusal of a key that fails it.
pub(crate) fn raw_key(algorithm: KeyAlgorithm, key: &[u8], refusal: Error) -> Result<(), Error>
    ensures { result ≡ raw_key_by refusal algorithm key.now }
{
    if is_raw_key(algorithm, key) {
        Ok(())
    } else {
        Err(refusal)
    }
}

/// The test of raw keys of a scheme: a point that isn't compressed, or an RSA key with a modulus of 2048 to
/// 8192 bits; other keys aren't tested. Errors: `InvalidKey(RawKey)` for a key that fails it.
pub fn validate_raw_public_key(scheme: SigningScheme, key: &[u8]) -> Result<(), Error>
    ensures { result ≡ raw_key_of scheme key.now }
{
    raw_key(
        scheme.key_algorithm(),
        key,
        Error::InvalidKey(KeyRule::RawKey),
    )
}
