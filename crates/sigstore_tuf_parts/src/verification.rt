// The key that a declared key gives.
ghost use Rattle.std.specs.Prelude.{◌≡◌, ◌≢◌, Ok, Err, IfOk, IfErr};
ghost use Rattle.std.specs.Str.{trim};
ghost use Rattle.hex.specs.Hex.{decode_of};
ghost use Rattle.sigstore_tuf_parts.specs.Crypto.{text_key_of, declared_scheme, spki_fault, armored_key_of, raw_ed25519_of, bare_key_of};
ghost use Rattle.sigstore_tuf_parts.specs.By.{key_by};
ghost use Rattle.sigstore_tuf_parts.specs.declared.verification.KeyFault.TheVariants.{NoMemory};

use crate::keys::Key;
use foundation::NoMemory;
use hex::FromHexError;
use sigstore_keys::{Error as CryptoError, SigningScheme, VerificationKey};
use sigstore_types_parts::{Armor, Bytes, DerPublicKey};
use std::alloc::Global;

/// Why a declared key gives no key: its text holds none, its scheme is none of the nine, the maker of
/// keys refuses it, or memory is wanting.
#[derive(Clone, Copy, Debug, PartialEq, Eq, Drop)]
pub enum KeyFault {
    /// The text holds no key.
    Unusable,
    /// The scheme is none of the nine.
    Unsupported,
    /// The maker of keys refuses the bytes.
    Refused,
    /// An allocation was refused.
    NoMemory,
}

impl From<NoMemory> for KeyFault {
    ghost from_gives = { λ _ e. e ≡ NoMemory };

    fn from(_: NoMemory) -> KeyFault {
        KeyFault::NoMemory
    }
}

impl From<CryptoError> for KeyFault {
    ghost from_gives = { λ fault e. e ≡ spki_fault fault };

    fn from(fault: CryptoError) -> KeyFault {
        match fault {
            CryptoError::NoMemory => KeyFault::NoMemory,
            _ => KeyFault::Refused,
        }
    }
}

impl Key {
    /// The key that this declaration gives. Errors, the first that holds: `Unsupported` for its scheme,
    /// `Unusable` where the trimmed text holds no key, `Refused` by the maker of keys.
    #[tactic(auto, unfolding(crate::specs::Crypto::key_of))]
    pub(crate) fn read_key<M: Armor>(
        &self,
        alloc: Global,
        armor: &M,
    ) -> Result<VerificationKey, KeyFault>
        ensures ok { IfOk result (λ v. key_by M.Armor armor.now self.now ≡ Ok v) }
        ensures err { IfErr result
            (λ e. e ≢ KeyFault.NoMemory → key_by M.Armor armor.now self.now ≡ Err e) }
    {
        match declared_scheme(self.scheme.as_str()) {
            Some(scheme) => text_key(alloc, armor, scheme, trimmed(self.keyval.public.as_str())),
            None => Err(KeyFault::Unsupported),
        }
    }
}

/// The scheme of that name.
pub(crate) fn declared_scheme(name: &str) -> Option<SigningScheme>
    ensures { result ≡ declared_scheme name.now }
{
    match name {
        "ecdsa-sha2-nistp256" => Some(SigningScheme::EcdsaP256Sha256),
        "ecdsa-sha2-nistp384" => Some(SigningScheme::EcdsaP384Sha384),
        "ed25519" => Some(SigningScheme::Ed25519),
        "rsassa-pss-sha256" => Some(SigningScheme::RsaPssSha256),
        "rsassa-pss-sha384" => Some(SigningScheme::RsaPssSha384),
        "rsassa-pss-sha512" => Some(SigningScheme::RsaPssSha512),
        "ml-dsa-44/1" => Some(SigningScheme::MlDsa44),
        "ml-dsa-65/1" => Some(SigningScheme::MlDsa65),
        "ml-dsa-87/1" => Some(SigningScheme::MlDsa87),
        _ => None,
    }
}

fn trimmed(text: &str) -> &str
    ensures { result.now ≡ trim text.now }
{
    text.trim()
}

// The key that a public text holds, under a scheme.
fn text_key<M: Armor>(
    alloc: Global,
    armor: &M,
    scheme: SigningScheme,
    text: &str,
) -> Result<VerificationKey, KeyFault>
    ensures ok { IfOk result
        (λ v. text_key_of (M.armored armor.now) (M.key_in armor.now) scheme text.now ≡ Ok v) }
    ensures err { IfErr result (λ e. e ≢ KeyFault.NoMemory
        → text_key_of (M.armored armor.now) (M.key_in armor.now) scheme text.now ≡ Err e) }
{
    let text = text.as_bytes();
    if !armor.is_armored(text) {
        return bare_key(alloc, scheme, text);
    }
    match armor.read_key(alloc, text)? {
        Some(der) => armored_key(alloc, scheme, der),
        None => Err(KeyFault::Unusable),
    }
}

// The key of a text that isn't armoured: for Ed25519 64 hexadecimal digits.
fn bare_key(alloc: Global, scheme: SigningScheme, text: &[u8]) -> Result<VerificationKey, KeyFault>
    ensures ok { IfOk result (λ v. bare_key_of scheme text.now ≡ Ok v) }
    ensures err { IfErr result (λ e. e ≢ KeyFault.NoMemory → bare_key_of scheme text.now ≡ Err e) }
{
    if scheme == SigningScheme::Ed25519 && text.len() == 64 {
        raw_ed25519(alloc, text)
    } else {
        Err(KeyFault::Unusable)
    }
}

fn raw_ed25519(alloc: Global, text: &[u8]) -> Result<VerificationKey, KeyFault>
    ensures ok { IfOk result (λ v. raw_ed25519_of (decode_of text.now) ≡ Ok v) }
    ensures err { IfErr result
        (λ e. e ≢ KeyFault.NoMemory → raw_ed25519_of (decode_of text.now) ≡ Err e) }
{
    match hex::decode(alloc, text) {
        Ok(raw) => Ok(VerificationKey {
            scheme: SigningScheme::Ed25519,
            key: Bytes::from_vec(raw),
        }),
        Err(FromHexError::OutOfMemory) => Err(KeyFault::NoMemory),
        Err(_) => Err(KeyFault::Unusable),
    }
}

// The key of a SubjectPublicKeyInfo, under a scheme.
fn armored_key(
    alloc: Global,
    scheme: SigningScheme,
    der: Bytes,
) -> Result<VerificationKey, KeyFault>
    ensures ok { IfOk result (λ v. armored_key_of scheme der ≡ Ok v) }
    ensures err { IfErr result (λ e. e ≢ KeyFault.NoMemory → armored_key_of scheme der ≡ Err e) }
{
    match VerificationKey::from_spki_with_scheme(alloc, &DerPublicKey::new(der), scheme) {
        Ok(key) => Ok(key),
        Err(fault) => Err(KeyFault::from(fault)),
    }
}
