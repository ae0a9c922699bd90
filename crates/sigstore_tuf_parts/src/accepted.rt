// Whether a signature is accepted.
ghost use Rattle.std.specs.Prelude.{◌≡◌, IsTrue, IfOk, length};
ghost use Rattle.std.specs.Result.{result_ok};
ghost use Rattle.hex.specs.Hex.{decode_of};
ghost use Rattle.sigstore_keys.specs.Good.{is_good, is_good_over};
ghost use Rattle.sigstore_keys.specs.Scheme.{has_digest, digest_size_of};
ghost use Rattle.sigstore_keys.specs.Crypto.{crypto_by};
ghost use Rattle.sigstore_tuf_parts.specs.Crypto.{signed_text};
ghost use Rattle.sigstore_tuf_parts.specs.By.{key_by};
ghost use Rattle.sigstore_tuf_parts.specs.Threshold.{is_accepted, is_accepted_raw, is_accepted_under};

use crate::document::Signature;
use crate::keys::Key;
use crate::signed_text::SignedText;
use crate::verification::KeyFault;
use foundation::NoMemory;
use hex::FromHexError;
use sigstore_keys::{CryptoProvider, VerificationKey};
use sigstore_types_parts::{Armor, Bytes, SignatureBytes, Text, TextMap};
use std::alloc::Global;

/// The bytes that a hexadecimal text spells, or none.
pub(crate) fn decoded(alloc: Global, text: &Text) -> Result<Option<SignatureBytes>, NoMemory>
    ensures { IfOk result (λ raw. raw ≡ result_ok (decode_of text.now)) }
{
    match hex::decode(alloc, text.as_str()) {
        Ok(bytes) => Ok(Some(SignatureBytes::new(Bytes::from_vec(bytes)))),
        Err(FromHexError::OutOfMemory) => Err(NoMemory),
        Err(_) => Ok(None),
    }
}

/// Whether a signature is hexadecimal, and good under the key that has its id.
pub(crate) fn is_accepted<C: CryptoProvider, M: Armor>(
    alloc: Global,
    provider: &C,
    armor: &M,
    keys: &TextMap<Key>,
    text: &SignedText<'_>,
    signature: &Signature,
) -> Result<bool, NoMemory>
    ensures { IfOk result (λ b. b ≡
        is_accepted (crypto_by C.CryptoProvider M.Armor provider.now armor.now)
        keys.now text.now signature.now) }
{
    match keys.get(signature.keyid.as_str()) {
        Some(key) => is_accepted_by(alloc, provider, armor, key, text, &signature.sig),
        None => Ok(false),
    }
}

fn is_accepted_by<C: CryptoProvider, M: Armor>(
    alloc: Global,
    provider: &C,
    armor: &M,
    key: &Key,
    text: &SignedText<'_>,
    sig: &Text,
) -> Result<bool, NoMemory>
    ensures { IfOk result (λ b. b ≡ is_accepted_under (C.accepts provider.now) text.now sig.now
        (key_by M.Armor armor.now key.now)) }
{
    match key.read_key(alloc, armor) {
        Ok(key) => is_accepted_under(alloc, provider, &key, text, sig),
        Err(KeyFault::NoMemory) => Err(NoMemory),
        Err(_) => Ok(false),
    }
}

fn is_accepted_under<C: CryptoProvider>(
    alloc: Global,
    provider: &C,
    key: &VerificationKey,
    text: &SignedText<'_>,
    sig: &Text,
) -> Result<bool, NoMemory>
    ensures { IfOk result (λ b. b ≡ is_accepted_raw (C.accepts provider.now) text.now key.now
        (result_ok (decode_of sig.now))) }
{
    match decoded(alloc, sig)? {
        Some(raw) => Ok(is_good_text(provider, key, text, &raw)),
        None => Ok(false),
    }
}

/// Whether the signature of a text is good under a key: as TUF signs a text under its scheme.
pub(crate) fn is_good_text<C: CryptoProvider>(
    provider: &C,
    key: &VerificationKey,
    text: &SignedText<'_>,
    raw: &SignatureBytes,
) -> bool
    ensures { result ≡
        is_good (C.accepts provider.now) key.now (signed_text key.now.scheme text.now) raw.now }
{
    is_good_over(provider, key, text.subject(key.scheme), raw)
}

// Whether a signature is good over its subject: a digest where the key's scheme has one.
fn is_good_over<C: CryptoProvider>(
    provider: &C,
    key: &VerificationKey,
    subject: &[u8],
    raw: &SignatureBytes,
) -> bool
    requires { IsTrue (has_digest key.now.scheme) → length subject.now ≡ digest_size_of key.now.scheme }
    ensures { result ≡ is_good_over (C.accepts provider.now) key.now subject.now raw.now }
{
    if key.scheme.supports_prehashed() {
        key.verify_prehashed(provider, subject, raw).is_ok()
    } else {
        key.verify(provider, subject, raw).is_ok()
    }
}
