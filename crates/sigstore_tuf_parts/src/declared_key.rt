// What a declared key says of itself, and signatures under it.
ghost use Rattle.std.specs.Prelude.{◌≡◌, ◌≢◌, ◌++◌, ◌∷◌, Ok, Err, IfOk, OnOk, IfErr};
ghost use Rattle.sigstore_keys.specs.Crypto.{crypto_by};
ghost use Rattle.sigstore_tuf_parts.specs.By.{key_by};
ghost use Rattle.sigstore_tuf_text.specs.Canon.{canon, quoted, comma_if};
ghost use Rattle.sigstore_tuf_parts.specs.DeclaredKeys.{key_object_of, key_id_of, signing_scheme_of, key_error, or_key_error, key_verified_of};

use crate::accepted::is_good_text;
use crate::keys::Key;
use crate::signed_text::SignedText;
use crate::verification::{KeyFault, declared_scheme};
use foundation::{Duplicate, NoMemory};
use sigstore_keys::{CryptoProvider, SigningScheme, VerificationKey, sha256};
use sigstore_tuf_text::{Error, write_member};
use sigstore_types_parts::{Armor, Bytes, SignatureBytes, Text};
use std::alloc::Global;

// The canonical text of the key's type, text and scheme.
fn key_text(alloc: Global, key: &Key) -> Result<Bytes, NoMemory>
    ensures { IfOk result (λ text. text ≡ canon (key_object_of key.now)) }
{
    let mut out = Vec::new(alloc);
    out.push(b'{')?;
    write_member(false, "keytype", key.keytype.as_str(), &mut out)?;
    out.extend_from_slice(b",\"keyval\":{")?;
    write_member(false, "public", key.keyval.public.as_str(), &mut out)?;
    out.push(b'}')?;
    write_member(true, "scheme", key.scheme.as_str(), &mut out)?;
    out.push(b'}')?;
    Ok(Bytes::from_vec(out))
}

fn unsupported(alloc: Global, key: &Key) -> Result<Error, NoMemory>
    ensures { IfOk result (λ e. e ≡ key_error key.now KeyFault.Unsupported) }
{
    Ok(Error::UnsupportedScheme {
        keytype: key.keytype.duplicate(alloc)?,
        scheme: key.scheme.duplicate(alloc)?,
    })
}

// A fault as a refusal.
fn key_error(alloc: Global, key: &Key, fault: KeyFault) -> Result<Error, NoMemory>
    ensures { IfOk result (λ e. e ≡ key_error key.now fault) }
{
    match fault {
        KeyFault::Unsupported => unsupported(alloc, key),
        KeyFault::Unusable => Ok(Error::UnusableKey {
            key_id: key.key_id(alloc)?,
        }),
        KeyFault::Refused => Ok(Error::Crypto),
        KeyFault::NoMemory => Err(NoMemory),
    }
}

impl Key {
    /// The id of the key by its contents: the hexadecimal SHA-256 value of the canonical object of its
    /// type, text and scheme. Documents declare ids of their own, which are never compared with it.
    #[tactic(auto, unfolding(crate::specs::DeclaredKeys::key_id_of))]
    pub fn key_id(&self, alloc: Global) -> Result<Text, NoMemory>
        ensures { IfOk result (λ id. id ≡ key_id_of self.now) }
    {
        let text = key_text(alloc, self)?;
        sha256(text.as_bytes()).to_hex(alloc)
    }

    /// The scheme that the key names. Errors: `UnsupportedScheme` where it is none of the nine.
    pub fn signing_scheme(&self, alloc: Global) -> Result<SigningScheme, Error>
        ensures ok { IfOk result (λ scheme. signing_scheme_of self.now ≡ Ok scheme) }
        ensures err { IfErr result (λ e. e ≢ Error.NoMemory → signing_scheme_of self.now ≡ Err e) }
    {
        match declared_scheme(self.scheme.as_str()) {
            Some(scheme) => Ok(scheme),
            None => Err(unsupported(alloc, self)?),
        }
    }

    /// The key that this declaration gives. Errors, in order: `UnsupportedScheme` for its scheme,
    /// `UnusableKey` where the trimmed text holds no key, `Crypto` where the bytes are refused: no
    /// SubjectPublicKeyInfo, or of another algorithm than the scheme's.
    pub fn verification_key<M: Armor>(
        &self,
        alloc: Global,
        armor: &M,
    ) -> Result<VerificationKey, Error>
        ensures ok { IfOk result
            (λ v. or_key_error self.now (key_by M.Armor armor.now self.now) ≡ Ok v) }
        ensures err { IfErr result (λ e. e ≢ Error.NoMemory
            → or_key_error self.now (key_by M.Armor armor.now self.now) ≡ Err e) }
    {
        match self.read_key(alloc, armor) {
            Ok(key) => Ok(key),
            Err(fault) => Err(key_error(alloc, self, fault)?),
        }
    }

    /// Whether the signature of a message is good under this key; ML-DSA signs `tuf`, 01 and the message's
    /// SHA-512 value. Errors: as `verification_key`, then `Crypto` where it isn't good.
    pub fn verify<C: CryptoProvider, M: Armor>(
        &self,
        alloc: Global,
        provider: &C,
        armor: &M,
        message: &[u8],
        signature: &SignatureBytes,
    ) -> Result<(), Error>
        ensures ok { IfOk result (λ v.
            key_verified_of (crypto_by C.CryptoProvider M.Armor provider.now armor.now)
            self.now message.now signature.now ≡ Ok v) }
        ensures err { IfErr result (λ e. e ≢ Error.NoMemory →
            key_verified_of (crypto_by C.CryptoProvider M.Armor provider.now armor.now)
            self.now message.now signature.now ≡ Err e) }
    {
        let key = self.verification_key(alloc, armor)?;
        if is_good_text(provider, &key, &SignedText::new(message), signature) {
            Ok(())
        } else {
            Err(Error::Crypto)
        }
    }
}
