// Whose an entry is: the key or the certificate that its verifier holds.
ghost use Rattle.std.specs.Prelude.{◌≡◌, ◌≢◌, Ok, Err, IfOk, IfErr};
ghost use Rattle.sigstore_binding.specs.Checks.{is_own, holds_or, check_of};
ghost use Rattle.sigstore_binding.specs.declared.error.BindingError.TheVariants.{EntryMismatch};
ghost use Rattle.std.specs.Prelude.{Some};
ghost use Rattle.sigstore_binding.specs.Verifier.{readings_by, signatory_as, armored_key_of, armored_certificate_of, key_of_certificate, certified_key_of, certificate_check, key_check, armored_check, raw_check, certified_check, enveloped_check};
ghost use Rattle.x509_views.specs.Certificates.{certificate_of};

use crate::check::same;
use crate::error::BindingError;
use crate::signed::SignedBy;
use sigstore_rekor_parts::{HashedRekordV002Verifier, PublicKeyContent};
use sigstore_types_parts::{Armor, Bytes, DerCertificate, DerPublicKey, PemContent};
use std::alloc::Global;
use x509_views::{CertView, X509Error};

// The key of an armoured text.
fn armored_key<M: Armor>(alloc: Global, armor: &M, text: &PemContent) -> Result<Bytes, BindingError>
    ensures ok { IfOk result (λ key. armored_key_of (readings_by M.Armor armor.now) text.now ≡ Ok key) }
    ensures err { IfErr result (λ e. e ≢ BindingError.NoMemory → armored_key_of (readings_by M.Armor armor.now) text.now ≡ Err e) }
{
    match armor.read_key(alloc, text.as_bytes())? {
        Some(key) => Ok(key),
        None => Err(BindingError::MalformedEntry),
    }
}

// The certificate of an armoured text.
fn armored_certificate<M: Armor>(
    alloc: Global,
    armor: &M,
    text: &PemContent,
) -> Result<Bytes, BindingError>
    ensures ok { IfOk result (λ certificate. armored_certificate_of (readings_by M.Armor armor.now) text.now ≡ Ok certificate) }
    ensures err { IfErr result (λ e. e ≢ BindingError.NoMemory → armored_certificate_of (readings_by M.Armor armor.now) text.now ≡ Err e) }
{
    match armor.read_certificate(alloc, text.as_bytes())? {
        Some(certificate) => Ok(certificate),
        None => Err(BindingError::MalformedEntry),
    }
}

// The key of a certificate in DER.
fn key_of_certificate(alloc: Global, certificate: &Bytes) -> Result<Bytes, BindingError>
    ensures ok { IfOk result (λ key. key_of_certificate (certificate_of certificate.now) ≡ Ok key) }
    ensures err { IfErr result (λ e. e ≢ BindingError.NoMemory → key_of_certificate (certificate_of certificate.now) ≡ Err e) }
{
    match CertView::parse_in(alloc, certificate.as_bytes()) {
        Ok(parts) => Ok(Bytes::new(alloc, parts.spki)?),
        Err(X509Error::NoMemory) => Err(BindingError::NoMemory),
        Err(_) => Err(BindingError::MalformedEntry),
    }
}

// The key of an armoured certificate, and else that of an armoured key.
fn certified_key<M: Armor>(
    alloc: Global,
    armor: &M,
    text: &PemContent,
) -> Result<Bytes, BindingError>
    ensures ok { IfOk result (λ key. certified_key_of (readings_by M.Armor armor.now) text.now ≡ Ok key) }
    ensures err { IfErr result (λ e. e ≢ BindingError.NoMemory → certified_key_of (readings_by M.Armor armor.now) text.now ≡ Err e) }
{
    match armor.read_certificate(alloc, text.as_bytes())? {
        Some(certificate) => key_of_certificate(alloc, &certificate),
        None => armored_key(alloc, armor, text),
    }
}

// A logged key is the signer's.
fn is_their_key(logged: &[u8], key: &DerPublicKey) -> Result<(), BindingError>
    ensures { result ≡ holds_or EntryMismatch (is_own logged.now (Some key.now)) }
{
    same(logged, Some(key.as_bytes()), BindingError::EntryMismatch)
}

// A logged certificate is the signer's, whole.
fn is_their_certificate(logged: &[u8], certificate: &DerCertificate) -> Result<(), BindingError>
    ensures { result ≡ holds_or EntryMismatch (is_own logged.now (Some certificate.now)) }
{
    same(
        logged,
        Some(certificate.as_bytes()),
        BindingError::EntryMismatch,
    )
}

// An armoured certificate is this one, whole.
fn check_certificate<M: Armor>(
    alloc: Global,
    armor: &M,
    text: &PemContent,
    certificate: &DerCertificate,
) -> Result<(), BindingError>
    ensures ok { IfOk result (λ x. check_of (certificate_check (readings_by M.Armor armor.now) certificate.now text.now) ≡ Ok x) }
    ensures err { IfErr result (λ e. e ≢ BindingError.NoMemory →
        check_of (certificate_check (readings_by M.Armor armor.now) certificate.now text.now) ≡ Err e) }
{
    let logged = armored_certificate(alloc, armor, text)?;
    is_their_certificate(logged.as_bytes(), certificate)
}

// An armoured key, or that of an armoured certificate in its place, is this one.
fn check_key<M: Armor>(
    alloc: Global,
    armor: &M,
    text: &PemContent,
    key: &DerPublicKey,
) -> Result<(), BindingError>
    ensures ok { IfOk result (λ x. check_of (key_check (readings_by M.Armor armor.now) key.now text.now) ≡ Ok x) }
    ensures err { IfErr result (λ e. e ≢ BindingError.NoMemory →
        check_of (key_check (readings_by M.Armor armor.now) key.now text.now) ≡ Err e) }
{
    let logged = certified_key(alloc, armor, text)?;
    is_their_key(logged.as_bytes(), key)
}

/// The armoured key of an entry is the signer's, or under a certificate the armoured certificate is. Errors:
/// `MalformedEntry` where it isn't read, `EntryMismatch`.
pub(crate) fn check_armored<M: Armor>(
    alloc: Global,
    armor: &M,
    who: SignedBy<'_>,
    verifier: &PublicKeyContent,
) -> Result<(), BindingError>
    ensures ok { IfOk result (λ x. check_of (armored_check (readings_by M.Armor armor.now) (signatory_as who.entry) verifier.now.content) ≡ Ok x) }
    ensures err { IfErr result (λ e. e ≢ BindingError.NoMemory →
        check_of (armored_check (readings_by M.Armor armor.now) (signatory_as who.entry) verifier.now.content) ≡ Err e) }
{
    match who {
        SignedBy::Key(key) => {
            let logged = armored_key(alloc, armor, &verifier.content)?;
            is_their_key(logged.as_bytes(), key)
        }
        SignedBy::Certificate { certificate, .. } => {
            check_certificate(alloc, armor, &verifier.content, certificate)
        }
    }
}

/// The key in DER of an entry is the signer's, or under a certificate the certificate in DER is. Error:
/// `EntryMismatch`, also where the entry has none.
pub(crate) fn check_raw(
    who: SignedBy<'_>,
    verifier: &HashedRekordV002Verifier,
) -> Result<(), BindingError>
    ensures { result ≡ check_of (raw_check (signatory_as who.entry) verifier.now) }
{
    match who {
        SignedBy::Key(key) => match &verifier.public_key {
            Some(logged) => is_their_key(logged.raw_bytes.as_bytes(), key),
            None => Err(BindingError::EntryMismatch),
        },
        SignedBy::Certificate { certificate, .. } => match &verifier.x509_certificate {
            Some(logged) => is_their_certificate(logged.raw_bytes.as_bytes(), certificate),
            None => Err(BindingError::EntryMismatch),
        },
    }
}

/// The armoured key of an entry, or that of an armoured certificate in its place, is the signer's; under a certificate
/// the armoured certificate is. Errors: `MalformedEntry` where it isn't read, `EntryMismatch`.
pub(crate) fn check_enveloped<M: Armor>(
    alloc: Global,
    armor: &M,
    who: SignedBy<'_>,
    verifier: &PemContent,
) -> Result<(), BindingError>
    ensures ok { IfOk result (λ x. check_of (enveloped_check (readings_by M.Armor armor.now) (signatory_as who.entry) verifier.now) ≡ Ok x) }
    ensures err { IfErr result (λ e. e ≢ BindingError.NoMemory →
        check_of (enveloped_check (readings_by M.Armor armor.now) (signatory_as who.entry) verifier.now) ≡ Err e) }
{
    match who {
        SignedBy::Key(key) => check_key(alloc, armor, verifier, key),
        SignedBy::Certificate { certificate, .. } => {
            check_certificate(alloc, armor, verifier, certificate)
        }
    }
}

/// The armoured key of an entry, or that of an armoured certificate in its place, is the signer's, or the key of the
/// signer's certificate. Errors: `MalformedEntry` where neither is read, `EntryMismatch`.
pub(crate) fn check_certified<M: Armor>(
    alloc: Global,
    armor: &M,
    who: SignedBy<'_>,
    verifier: &PemContent,
) -> Result<(), BindingError>
    ensures ok { IfOk result (λ x. check_of (certified_check (readings_by M.Armor armor.now) (signatory_as who.entry) verifier.now) ≡ Ok x) }
    ensures err { IfErr result (λ e. e ≢ BindingError.NoMemory →
        check_of (certified_check (readings_by M.Armor armor.now) (signatory_as who.entry) verifier.now) ≡ Err e) }
{
    match who {
        SignedBy::Key(key) => check_key(alloc, armor, verifier, key),
        SignedBy::Certificate { key, .. } => check_key(alloc, armor, verifier, key),
    }
}
