// The sort of a key from its SubjectPublicKeyInfo.
ghost use Rattle.std.specs.Prelude.{◌≡◌, option_copied};
ghost use Rattle.spki_core.specs.Views.{spki_parts};
ghost use Rattle.sigstore_keys.specs.KeyAlgorithm.{curve_of, null_of, bare, named_of, whole_octets, key_read, algorithm_of_parts, algorithm_of_spki};

use crate::error::{Error, KeyRule};
use crate::scheme::KeyAlgorithm;
use sigstore_types_parts::DerPublicKey;
use spki_core::{RsaKeyView, SpkiView};

// id-ecPublicKey, and the curve secp256r1 as it is encoded (RFC 5480, section 2.1).
const EC_OID: [u8; 7] = [0x2a, 0x86, 0x48, 0xce, 0x3d, 0x02, 0x01];

const P256_CURVE: [u8; 10] = [0x06, 0x08, 0x2a, 0x86, 0x48, 0xce, 0x3d, 0x03, 0x01, 0x07];

// The curve secp384r1 as it is encoded (RFC 5480, section 2.1.1.1).
const P384_CURVE: [u8; 7] = [0x06, 0x05, 0x2b, 0x81, 0x04, 0x00, 0x22];

// rsaEncryption, and NULL as it is encoded (RFC 8017, A.1).
const RSA_OID: [u8; 9] = [0x2a, 0x86, 0x48, 0x86, 0xf7, 0x0d, 0x01, 0x01, 0x01];

const NULL: [u8; 2] = [0x05, 0x00];

// id-Ed25519 (RFC 8410, section 3).
const ED25519_OID: [u8; 3] = [0x2b, 0x65, 0x70];

// id-ml-dsa-44, id-ml-dsa-65 and id-ml-dsa-87 (RFC 9881, section 2).
const ML_DSA_44_OID: [u8; 9] = [0x60, 0x86, 0x48, 0x01, 0x65, 0x03, 0x04, 0x03, 0x11];

const ML_DSA_65_OID: [u8; 9] = [0x60, 0x86, 0x48, 0x01, 0x65, 0x03, 0x04, 0x03, 0x12];

const ML_DSA_87_OID: [u8; 9] = [0x60, 0x86, 0x48, 0x01, 0x65, 0x03, 0x04, 0x03, 0x13];

fn curve_in(parameters: Option<&[u8]>) -> Result<KeyAlgorithm, Error>
    ensures { result ≡ curve_of (option_copied parameters.entry) }
{
    match parameters {
        Some(curve) if curve == P256_CURVE.as_slice() => Ok(KeyAlgorithm::EcdsaP256),
        Some(curve) if curve == P384_CURVE.as_slice() => Ok(KeyAlgorithm::EcdsaP384),
        _ => Err(Error::InvalidKey(KeyRule::Algorithm)),
    }
}

fn null_in(parameters: Option<&[u8]>) -> Result<KeyAlgorithm, Error>
    ensures { result ≡ null_of (option_copied parameters.entry) }
{
    match parameters {
        Some(parameters) if parameters != NULL.as_slice() => {
            Err(Error::InvalidKey(KeyRule::Algorithm))
        }
        _ => Ok(KeyAlgorithm::Rsa),
    }
}

fn bare(algorithm: KeyAlgorithm, parameters: Option<&[u8]>) -> Result<KeyAlgorithm, Error>
    ensures { result ≡ bare algorithm (option_copied parameters.entry) }
{
    match parameters {
        Some(_) => Err(Error::InvalidKey(KeyRule::Algorithm)),
        None => Ok(algorithm),
    }
}

fn named(view: &SpkiView) -> Result<KeyAlgorithm, Error>
    ensures { result ≡ named_of (spki_parts view.now).algorithm }
{
    if view.oid == EC_OID.as_slice() {
        curve_in(view.parameters)
    } else if view.oid == RSA_OID.as_slice() {
        null_in(view.parameters)
    } else if view.oid == ED25519_OID.as_slice() {
        bare(KeyAlgorithm::Ed25519, view.parameters)
    } else if view.oid == ML_DSA_44_OID.as_slice() {
        bare(KeyAlgorithm::MlDsa44, view.parameters)
    } else if view.oid == ML_DSA_65_OID.as_slice() {
        bare(KeyAlgorithm::MlDsa65, view.parameters)
    } else if view.oid == ML_DSA_87_OID.as_slice() {
        bare(KeyAlgorithm::MlDsa87, view.parameters)
    } else {
        Err(Error::InvalidKey(KeyRule::Algorithm))
    }
}

fn check_bits(unused_bits: u8) -> Result<(), Error>
    ensures { result ≡ whole_octets unused_bits }
{
    if unused_bits == 0 {
        Ok(())
    } else {
        Err(Error::InvalidKey(KeyRule::UnusedBits))
    }
}

fn check_key(algorithm: KeyAlgorithm, key: &[u8]) -> Result<(), Error>
    ensures { result ≡ key_read algorithm key.now }
{
    if algorithm != KeyAlgorithm::Rsa || RsaKeyView::parse(key).is_ok() {
        Ok(())
    } else {
        Err(Error::InvalidKey(KeyRule::Encoding))
    }
}

/// The sort of a key by its parts. Errors: `InvalidKey`, in order with `Algorithm`, `UnusedBits`, and
/// `Encoding` for an RSA key that isn't read.
#[tactic(auto, unfolding(crate::specs::KeyAlgorithm::algorithm_of_parts))]
pub(crate) fn algorithm_in(view: &SpkiView) -> Result<KeyAlgorithm, Error>
    ensures { result ≡ algorithm_of_parts (spki_parts view.now) }
{
    let algorithm = named(view)?;
    check_bits(view.unused_bits)?;
    check_key(algorithm, view.key)?;
    Ok(algorithm)
}

impl KeyAlgorithm {
    /// The sort of a key by its SubjectPublicKeyInfo (RFC 5280, section 4.1). Errors: `InvalidKey`, in order
    /// with `Encoding` where the bytes aren't one, `Algorithm` for an identifier or parameters of no sort,
    /// `UnusedBits` where the key isn't whole octets, and `Encoding` for an RSA key that isn't read.
    #[tactic(auto, unfolding(crate::specs::KeyAlgorithm::algorithm_of_spki))]
    pub fn from_spki(key: &DerPublicKey) -> Result<KeyAlgorithm, Error>
        ensures { result ≡ algorithm_of_spki key.now }
    {
        match SpkiView::parse(key.as_bytes()) {
            Ok(view) => algorithm_in(&view),
            Err(_) => Err(Error::InvalidKey(KeyRule::Encoding)),
        }
    }
}
