// Who signed.
ghost use Rattle.std.specs.Prelude.{◌≡◌, ◌≢◌, Ok, Err, IfOk, IfErr, MatchResult, option_copied};
ghost use Rattle.sigstore_types.specs.Bundle.{structure_of};
ghost use Rattle.certificate_claims.specs.Info.{info_of};
ghost use Rattle.sigstore_judgement.specs.Error.{by_types, by_info};
ghost use Rattle.sigstore_policy.specs.Policy.{meaning_of, Certificate};
ghost use Rattle.sigstore_judgement.specs.Signer.{signer_as, conditions_in, key_in, validity_of, material_in, certificate_in, keyed_of, named_of, managed_of, owner_of, signer_of, first_checks_of};

use crate::error::{CertificateError, Error, lowered};
use certificate_claims::{CertificateInfo, parse_certificate_info};
use sigstore_certificate::VerificationPolicy;
use sigstore_policy::{PolicyKind, PublicKeyVerificationPolicy, SignatureConditions};
use sigstore_types::{Bundle, VerificationMaterialContent, validate_structure};
use sigstore_types_parts::{DerCertificate, DerPublicKey, TimeRange};
use std::alloc::Global;

/// Who signed, with the policy that says what is asked of it: a key that its holder manages, or the owner of a
/// certificate. What comes later looks at this alone, and at the policy's kind no more.
#[derive(Drop)]
pub(crate) enum Signing<'a> {
    Managed(&'a PublicKeyVerificationPolicy),
    Certified(Owner<'a>),
}

/// The owner of a certificate: what is asked of them, what it says of them, and the certificate.
#[derive(Drop)]
pub(crate) struct Owner<'a> {
    pub(crate) policy: &'a VerificationPolicy,
    pub(crate) info: CertificateInfo,
    pub(crate) certificate: &'a DerCertificate,
}

impl<'a> Signing<'a> {
    // What is asked of the signature beside who made it.
    pub(crate) fn conditions(&self) -> &SignatureConditions
        ensures { result.now ≡ conditions_in (signer_as self.now) }
    {
        match self {
            Signing::Managed(policy) => &policy.conditions,
            Signing::Certified(owner) => &owner.policy.conditions,
        }
    }

    // The key in DER (SubjectPublicKeyInfo).
    pub(crate) fn key(&self) -> &DerPublicKey
        ensures { result.now ≡ key_in (signer_as self.now) }
    {
        match self {
            Signing::Managed(policy) => &policy.key,
            Signing::Certified(owner) => &owner.info.public_key,
        }
    }
}

// When a certificate is valid.
pub(crate) fn validity_of(info: &CertificateInfo) -> TimeRange
    ensures { result ≡ validity_of info.now }
{
    TimeRange {
        start: info.not_before,
        end: Some(info.not_after),
    }
}

// What the policy needs of the log is there: else a signature that was never logged passes, and the owner of
// a stolen key is never noticed.
#[tactic(auto, using(crate::proofs::FirstChecks::structure_never))]
fn check_structure(bundle: &Bundle, verify_tlog: bool) -> Result<(), Error>
    ensures exact { result ≡ by_types (structure_of bundle.now verify_tlog) }
    ensures never { IfErr result (λ e. e ≢ Error.NoMemory) }
{
    match validate_structure(bundle, verify_tlog) {
        Ok(()) => Ok(()),
        Err(fault) => Err(lowered(fault, Error::Bundle)),
    }
}

// A bundle of certificates isn't judged under a policy for a key: what they say would be passed over.
fn check_keyed(bundle: &Bundle) -> Result<(), Error>
    ensures exact { result ≡ keyed_of (material_in bundle.now) }
    ensures never { IfErr result (λ e. e ≢ Error.NoMemory) }
{
    match &bundle.verification_material.content {
        VerificationMaterialContent::PublicKey { .. } => Ok(()),
        VerificationMaterialContent::Certificate(_) => Err(Error::UnsupportedBundle),
        VerificationMaterialContent::X509CertificateChain(_) => Err(Error::UnsupportedBundle),
    }
}

// The certificate with which the bundle was signed.
fn certificate_in(bundle: &Bundle) -> Result<&DerCertificate, Error>
    ensures exact { MatchResult result (λ certificate. named_of (certificate_in bundle.now) ≡ Ok certificate.now)
        (λ e. named_of (certificate_in bundle.now) ≡ Err e) }
    ensures never { IfErr result (λ e. e ≢ Error.NoMemory) }
{
    match bundle.signing_certificate() {
        Some(certificate) => Ok(certificate),
        None => Err(Error::InvalidBundle),
    }
}

// What it says of its owner.
fn info_in(alloc: Global, certificate: &DerCertificate) -> Result<CertificateInfo, Error>
    ensures ok { IfOk result (λ info. by_info (info_of certificate.now) ≡ Ok info) }
    ensures err { IfErr result (λ e. e ≢ Error.NoMemory → by_info (info_of certificate.now) ≡ Err e) }
{
    match parse_certificate_info(alloc, certificate) {
        Ok(info) => Ok(info),
        Err(sigstore_keys::Error::NoMemory) => Err(Error::NoMemory),
        Err(_) => Err(Error::Certificate(CertificateError::Malformed)),
    }
}

// Under a managed key its holder signed.
#[tactic(auto, unfolding(crate::specs::Signer::managed_of))]
fn managed<'a>(
    policy: &'a PublicKeyVerificationPolicy,
    bundle: &Bundle,
) -> Result<Signing<'a>, Error>
    ensures ok { IfOk result (λ signer. managed_of policy.now bundle.now ≡ Ok (signer_as signer)) }
    ensures err { IfErr result (λ e. managed_of policy.now bundle.now ≡ Err e) }
    ensures never { IfErr result (λ e. e ≢ Error.NoMemory) }
{
    check_keyed(bundle)?;
    check_structure(bundle, policy.verify_tlog)?;
    Ok(Signing::Managed(policy))
}

// Under a policy for certificates the owner of the signing certificate signed.
#[tactic(auto, unfolding(crate::specs::Signer::owner_of))]
fn certified<'a>(
    alloc: Global,
    policy: &'a VerificationPolicy,
    bundle: &'a Bundle,
) -> Result<Signing<'a>, Error>
    ensures ok { IfOk result (λ signer. owner_of policy.now bundle.now ≡ Ok (signer_as signer)) }
    ensures err { IfErr result (λ e. e ≢ Error.NoMemory → owner_of policy.now bundle.now ≡ Err e) }
    ensures memory { IfErr result (λ e. e ≡ Error.NoMemory → first_checks_of (Certificate policy.now) bundle.now ≡ Ok tt) }
{
    check_structure(bundle, policy.verify_tlog)?;
    let certificate = certificate_in(bundle)?;
    let info = info_in(alloc, certificate)?;
    Ok(Signing::Certified(Owner {
        policy,
        info,
        certificate,
    }))
}

/// Who signed a bundle under a policy. Errors, in order: under a key `UnsupportedBundle` for a bundle of
/// certificates; `Bundle` where it lacks what the policy needs of the log; under a policy for certificates
/// `InvalidBundle` for a bundle without one, `Certificate` with `Malformed` where it isn't read.
pub(crate) fn who_signed<'a>(
    alloc: Global,
    policy: PolicyKind<'a>,
    bundle: &'a Bundle,
) -> Result<Signing<'a>, Error>
    ensures ok { IfOk result (λ signer. signer_of (meaning_of policy.entry) bundle.now ≡ Ok (signer_as signer)) }
    ensures err { IfErr result (λ e. e ≢ Error.NoMemory → signer_of (meaning_of policy.entry) bundle.now ≡ Err e) }
    ensures memory { IfErr result (λ e. e ≡ Error.NoMemory → first_checks_of (meaning_of policy.entry) bundle.now ≡ Ok tt) }
{
    match policy {
        PolicyKind::Certificate(policy) => certified(alloc, policy, bundle),
        PolicyKind::PublicKey(policy) => managed(policy, bundle),
    }
}
