// What a token's signer signed.
ghost use Rattle.std.specs.Prelude.{◌≡◌, ◌≢◌, Ok, Err, IfOk, IfErr, option_copied};
ghost use Rattle.cms_parts.specs.Identifiers.{message_digest_oid};
ghost use Rattle.sigstore_keys.specs.KeyAlgorithm.{algorithm_of_spki};
ghost use Rattle.sigstore_tsa.specs.Signer.{some_or_rule, only_from, only_value, digest_in, values_in, digest_told_of, of_curve, curve_read, key_of, is_signed, signed_of};
ghost use Rattle.sigstore_tsa_parts.specs.declared.error.SignatureRule.TheVariants as rule;

use crate::digest::{check_digest, known};
use cms_parts::signed_data::{SignedAttributes, SignerInfo};
use der_core::{Any, Der, DerError, OctetString};
use foundation::NoMemory;
use sigstore_keys::{CryptoProvider, KeyAlgorithm, VerificationKey};
use sigstore_tsa_parts::{Error, ParseRule, SignatureRule, value_in};
use sigstore_types_parts::{DerPublicKey, HashAlgorithm, SignatureBytes};
use std::alloc::Global;
use x509_core::Attribute;

// id-messageDigest as its contents (RFC 5652, section 11.2).
const MESSAGE_DIGEST: [u8; 9] = [42, 134, 72, 134, 247, 13, 1, 9, 4];

fn signed_attributes(signer: &SignerInfo) -> Result<&SignedAttributes, Error>
    ensures ok { IfOk result (λ attributes. some_or_rule rule.SignedAttributes signer.now.signed_attrs ≡ Ok attributes.now) }
    ensures err { IfErr result (λ e. some_or_rule rule.SignedAttributes signer.now.signed_attrs ≡ Err e) }
{
    match &signer.signed_attrs {
        Some(attributes) => Ok(attributes),
        None => Err(Error::SignatureVerificationError(SignatureRule::SignedAttributes)),
    }
}

// The attribute of a type, where it stands once: of two, either could be meant.
fn only<'a>(oid: &[u8], attributes: &'a [Attribute]) -> Option<&'a Attribute>
    ensures { option_copied result ≡ only_from oid.now None attributes.now }
{
    let mut found: Option<&Attribute> = None;
    'attributes: for attribute in attributes {
        if attribute.oid.as_bytes() == oid {
            if found.is_some() {
                return None;
            }
            found = Some(attribute);
        }
    }
    found
}

fn only_value(values: &[Any]) -> Option<&Any>
    ensures { option_copied result ≡ only_value values.now }
{
    match values {
        [value] => Some(value),
        _ => None,
    }
}

fn told_value(attributes: &[Attribute]) -> Option<&Any>
    ensures { option_copied result ≡ only_value (values_in (only_from message_digest_oid None attributes.now)) }
{
    match only(MESSAGE_DIGEST.as_slice(), attributes) {
        Some(attribute) => only_value(attribute.values.as_slice()),
        None => None,
    }
}

#[tactic(auto, unfolding(crate::specs::Signer::digest_told_of))]
fn digest_told(alloc: Global, attributes: &[Attribute]) -> Result<OctetString, Error>
    ensures ok { IfOk result (λ digest. digest_told_of attributes.now ≡ Ok digest) }
    ensures err { IfErr result (λ e. e ≢ Error.NoMemory → digest_told_of attributes.now ≡ Err e) }
{
    let Some(value) = told_value(attributes) else {
        return Err(Error::SignatureVerificationError(SignatureRule::MessageDigest));
    };
    match value_in::<OctetString>(alloc, value) {
        Ok(digest) => Ok(digest),
        Err(DerError::NoMemory) => Err(Error::NoMemory),
        Err(_) => Err(Error::SignatureVerificationError(SignatureRule::MessageDigest)),
    }
}

fn curve(spki: &DerPublicKey) -> Result<KeyAlgorithm, Error>
    ensures { result ≡ curve_read (algorithm_of_spki spki.now) }
{
    match KeyAlgorithm::from_spki(spki) {
        Ok(KeyAlgorithm::EcdsaP256) => Ok(KeyAlgorithm::EcdsaP256),
        Ok(KeyAlgorithm::EcdsaP384) => Ok(KeyAlgorithm::EcdsaP384),
        _ => Err(Error::SignatureVerificationError(SignatureRule::Key)),
    }
}

// The scheme is that of the authority's key and the signer's digest, never one that the token names.
#[tactic(auto, unfolding(crate::specs::Signer::key_of))]
fn key_of(
    alloc: Global,
    spki: &DerPublicKey,
    digest: HashAlgorithm,
) -> Result<VerificationKey, Error>
    ensures ok { IfOk result (λ key. key_of spki.now digest ≡ Ok key) }
    ensures err { IfErr result (λ e. e ≢ Error.NoMemory → key_of spki.now digest ≡ Err e) }
{
    let algorithm = curve(spki)?;
    let scheme = match algorithm.resolve_signing_scheme(digest) {
        Ok(scheme) => scheme,
        Err(_) => return Err(Error::SignatureVerificationError(SignatureRule::Scheme)),
    };
    match VerificationKey::from_spki_with_scheme(alloc, spki, scheme) {
        Ok(key) => Ok(key),
        Err(sigstore_keys::Error::NoMemory) => Err(Error::NoMemory),
        Err(_) => Err(Error::SignatureVerificationError(SignatureRule::Key)),
    }
}

fn is_signed<C: CryptoProvider>(
    alloc: Global,
    provider: &C,
    key: &VerificationKey,
    attributes: &SignedAttributes,
    signature: &[u8],
) -> Result<bool, NoMemory>
    ensures { IfOk result (λ good. good ≡ is_signed (C.accepts provider.now) key.now attributes.now signature.now) }
{
    let signature = SignatureBytes::from_bytes(alloc, signature)?;
    match attributes.to_der(alloc) {
        Ok(message) => Ok(key.verify(provider, message.as_bytes(), &signature).is_ok()),
        Err(DerError::NoMemory) => Err(NoMemory),
        Err(_) => Ok(false),
    }
}

// The content could be changed under a good signature, which is over the attributes, else.
#[tactic(auto, unfolding(crate::specs::Signer::signed_of))]
fn judge_signer<C: CryptoProvider>(
    alloc: Global,
    provider: &C,
    octets: &[u8],
    signer: &SignerInfo,
    spki: &DerPublicKey,
) -> Result<(), Error>
    ensures ok { IfOk result (λ x. signed_of (C.accepts provider.now) octets.now signer.now spki.now ≡ Ok tt) }
    ensures err { IfErr result (λ e. e ≢ Error.NoMemory → signed_of (C.accepts provider.now) octets.now signer.now spki.now ≡ Err e) }
{
    let attributes = signed_attributes(signer)?;
    let told = digest_told(alloc, attributes.as_slice())?;
    let digest = known(ParseRule::SignerAlgorithm, &signer.digest_alg.oid)?;
    check_digest(alloc, told.as_bytes(), digest, octets)?;
    let key = key_of(alloc, spki, digest)?;
    if is_signed(
        alloc,
        provider,
        &key,
        attributes,
        signer.signature.as_bytes(),
    )? {
        Ok(())
    } else {
        Err(Error::SignatureVerificationError(SignatureRule::Signature))
    }
}

/// Whether the signer's attributes tell the digest of the octets, and the signature over them is good under the
/// certificate's key (RFC 5652, sections 5.4 and 5.6). Errors, in order: `SignatureVerificationError` with
/// `SignedAttributes` and `MessageDigest`; `Parse` for a digest that isn't known; `HashMismatch`;
/// `SignatureVerificationError` with `Key`, `Scheme` and `Signature`.
pub(crate) fn check_signer<C: CryptoProvider>(
    alloc: Global,
    provider: &C,
    octets: &[u8],
    signer: &SignerInfo,
    spki: &[u8],
) -> Result<(), Error>
    ensures ok { IfOk result (λ x. signed_of (C.accepts provider.now) octets.now signer.now spki.now ≡ Ok tt) }
    ensures err { IfErr result (λ e. e ≢ Error.NoMemory → signed_of (C.accepts provider.now) octets.now signer.now spki.now ≡ Err e) }
{
    let spki = DerPublicKey::from_bytes(alloc, spki)?;
    match judge_signer(alloc, provider, octets, signer, &spki) {
        Ok(()) => Ok(()),
        Err(e) => Err(e),
    }
}
