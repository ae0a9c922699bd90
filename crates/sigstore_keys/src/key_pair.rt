// Pairs of keys that sign.
ghost use Rattle.std.specs.Prelude.{◌≡◌, ◌≢◌, ◌++◌, ℕ, List, Option, Ok, Err, IfOk, IfErr};
ghost use Rattle.sha2.specs.Hashers.{Holds256};
ghost use Rattle.sha2.specs.Sha256.{sha256};
ghost use Rattle.der_grammar.specs.Grammar.{framed};
ghost use Rattle.sigstore_keys.specs.declared.scheme.KeyAlgorithm.{KeyAlgorithm as SortOfKey};
ghost use Rattle.sigstore_keys.specs.Scheme.{default_scheme_of};
ghost use Rattle.sigstore_keys.specs.KeyPair.{signed_or, key_id_of, spki_with, public_key_of, IsPublicKey};

use crate::error::Error;
use crate::hasher::Sha256Hasher;
use crate::pairs::{
    ED25519_ID, ML_DSA_44_ID, ML_DSA_65_ID, ML_DSA_87_ID, P256_ID, P384_ID, RSA_ID,
};
use crate::scheme::{KeyAlgorithm, SigningScheme};
use der_core::{DerError, OctetString, Tag, append_framed, tag};
use sigstore_types_parts::{DerPublicKey, Sha256Hash, SignatureBytes};
use std::alloc::Global;

/// A private key with its public key, handed in; contracts see the public key and which signature it gives
/// of a message, and of a digest, where it gives one.
pub trait SigningKeyPair: Drop {
    ghost sort_of_key: { Self → SortOfKey };

    ghost public_octets: { Self → List ℕ };

    ghost signs: { Self → List ℕ → Option (List ℕ) };

    ghost signs_digest: { Self → List ℕ → Option (List ℕ) };

    /// The sort of the key.
    fn algorithm(&self) -> KeyAlgorithm
        ensures { result ≡ sort_of_key self.now };

    /// The raw public key.
    fn public_key_bytes(&self) -> &[u8]
        ensures { result.now ≡ public_octets self.now };

    /// The signature of a message. Errors: `Signing` exactly where there is none; `NoMemory`.
    fn sign_raw(&self, alloc: Global, message: &[u8]) -> Result<SignatureBytes, Error>
        ensures ok { IfOk result (λ signature. signed_or (signs self.now message.now) ≡ Ok signature) }
        ensures err { IfErr result (λ e. e ≢ Error.NoMemory → signed_or (signs self.now message.now) ≡ Err e) };

    /// The signature of the message with a digest. Errors: `Signing` exactly where there is none; `NoMemory`.
    fn sign_prehashed(&self, alloc: Global, digest: &[u8]) -> Result<SignatureBytes, Error>
        ensures ok { IfOk result (λ signature. signed_or (signs_digest self.now digest.now) ≡ Ok signature) }
        ensures err { IfErr result (λ e. e ≢ Error.NoMemory → signed_or (signs_digest self.now digest.now) ≡ Err e) };
}

/// A pair of keys of any kind.
#[derive(Drop)]
pub struct KeyPair {
    pair: Box<dyn SigningKeyPair>,
}

#[tactic(auto, unfolding(der_grammar::specs::Tlv::tlv, der_grammar::specs::Tlv::length_bytes))]
fn key_id(algorithm: KeyAlgorithm) -> &'static [u8]
    ensures { result.now ≡ key_id_of algorithm }
{
    match algorithm {
        KeyAlgorithm::EcdsaP256 => P256_ID,
        KeyAlgorithm::EcdsaP384 => P384_ID,
        KeyAlgorithm::Ed25519 => ED25519_ID,
        KeyAlgorithm::Rsa => RSA_ID,
        KeyAlgorithm::MlDsa44 => ML_DSA_44_ID,
        KeyAlgorithm::MlDsa65 => ML_DSA_65_ID,
        KeyAlgorithm::MlDsa87 => ML_DSA_87_ID,
    }
}

fn framed(alloc: Global, tag: Tag, contents: &[u8]) -> Result<OctetString, DerError>
    ensures ok { IfOk result (λ out. framed tag.0 contents.now ≡ Ok out) }
    ensures err { IfErr result (λ e. e ≢ DerError.NoMemory → framed tag.0 contents.now ≡ Err e) }
{
    let mut out = OctetString::empty(alloc);
    append_framed(tag, contents, &mut out)?;
    Ok(out)
}

fn joined(alloc: Global, first: &[u8], second: &[u8]) -> Result<OctetString, DerError>
    ensures ok { IfOk result (λ out. out ≡ first.now ++ second.now) }
    ensures err { IfErr result (λ e. e ≡ DerError.NoMemory) }
{
    let mut out = OctetString::empty(alloc);
    out.append(first)?;
    out.append(second)?;
    Ok(out)
}

#[tactic(auto, unfolding(crate::specs::KeyPair::spki_with))]
fn spki_with(alloc: Global, key_id: &[u8], key: &[u8]) -> Result<OctetString, DerError>
    ensures ok { IfOk result (λ der. spki_with key_id.now key.now ≡ Ok der) }
    ensures err { IfErr result (λ e. e ≢ DerError.NoMemory → spki_with key_id.now key.now ≡ Err e) }
{
    let algorithm = framed(alloc, Tag(tag::SEQUENCE), key_id)?;
    let octets = joined(alloc, &[0], key)?;
    let bits = framed(alloc, Tag(tag::BIT_STRING), octets.as_bytes())?;
    let contents = joined(alloc, algorithm.as_bytes(), bits.as_bytes())?;
    let der = framed(alloc, Tag(tag::SEQUENCE), contents.as_bytes())?;
    Ok(der)
}

impl KeyPair {
    /// A pair of keys of some kind; takes no memory.
    pub fn new(pair: Box<dyn SigningKeyPair>) -> KeyPair
        ensures { result.pair ≡ pair }
    {
        KeyPair { pair }
    }

    /// The sort of the key.
    pub fn algorithm(&self) -> KeyAlgorithm
        ensures { result ≡ sort_of_key self.now.pair }
    {
        self.pair.algorithm()
    }

    /// The raw public key.
    pub fn public_key_bytes(&self) -> &[u8]
        ensures { result.now ≡ public_octets self.now.pair }
    {
        self.pair.public_key_bytes()
    }

    /// The scheme of the key where none is named.
    pub fn default_scheme(&self) -> SigningScheme
        ensures { result ≡ default_scheme_of (sort_of_key self.now.pair) }
    {
        self.algorithm().default_signing_scheme()
    }

    /// The signature of a message. Errors: `Signing` exactly where there is none; `NoMemory`.
    pub fn sign(&self, alloc: Global, message: &[u8]) -> Result<SignatureBytes, Error>
        ensures ok { IfOk result (λ signature. signed_or (signs self.now.pair message.now) ≡ Ok signature) }
        ensures err { IfErr result (λ e. e ≢ Error.NoMemory → signed_or (signs self.now.pair message.now) ≡ Err e) }
    {
        match self.pair.sign_raw(alloc, message) {
            Ok(signature) => Ok(signature),
            Err(refusal) => Err(refusal),
        }
    }

    /// The signature of the message with a digest. Errors: `Signing` exactly where there is none; `NoMemory`.
    pub fn sign_digest(&self, alloc: Global, digest: &Sha256Hash) -> Result<SignatureBytes, Error>
        ensures ok { IfOk result (λ signature. signed_or (signs_digest self.now.pair digest.now) ≡ Ok signature) }
        ensures err { IfErr result (λ e. e ≢ Error.NoMemory → signed_or (signs_digest self.now.pair digest.now) ≡ Err e) }
    {
        match self.pair.sign_prehashed(alloc, digest.as_bytes()) {
            Ok(signature) => Ok(signature),
            Err(refusal) => Err(refusal),
        }
    }

    /// The digest of what a hasher has seen, and the signature of the message with it. Errors: as `sign_digest`.
    pub fn sign_prehashed(
        &self,
        alloc: Global,
        hasher: Sha256Hasher,
    ) -> Result<(Sha256Hash, SignatureBytes), Error>
        ensures ok { IfOk result (λ signed. (seen : List ℕ) → Holds256 hasher.inner seen
            → (signed.0 ≡ sha256 seen) × (signed_or (signs_digest self.now.pair (sha256 seen)) ≡ Ok signed.1)) }
        ensures err { IfErr result (λ e. e ≢ Error.NoMemory → (seen : List ℕ) → Holds256 hasher.inner seen
            → signed_or (signs_digest self.now.pair (sha256 seen)) ≡ Err e) }
    {
        let digest = hasher.finalize();
        let signature = self.sign_digest(alloc, &digest)?;
        Ok((digest, signature))
    }

    /// The public key as a SubjectPublicKeyInfo (RFC 5280, section 4.1). Errors: `InvalidKeyFormat` where a
    /// length in it is 2^28 or more; `NoMemory`.
    pub fn public_key_der(&self, alloc: Global) -> Result<DerPublicKey, Error>
        ensures ok { IfOk result (λ der. public_key_of (sort_of_key self.now.pair) (public_octets self.now.pair) ≡ Ok der) }
        ensures err { IfErr result (λ e. e ≢ Error.NoMemory
            → public_key_of (sort_of_key self.now.pair) (public_octets self.now.pair) ≡ Err e) }
    {
        match spki_with(alloc, key_id(self.algorithm()), self.public_key_bytes()) {
            Ok(der) => Ok(DerPublicKey::from_bytes(alloc, der.as_bytes())?),
            Err(DerError::NoMemory) => Err(Error::NoMemory),
            Err(_) => Err(Error::InvalidKeyFormat),
        }
    }
}

/// What is written as a public key is read as a key of its sort, with the raw key.
pub fn public_key_is_read()
    ensures { (sort : SortOfKey) (key der : List ℕ) → public_key_of sort key ≡ Ok der → IsPublicKey sort key der }
{}
