// What rules share of one bundle, so that a later rule needn't ask for it again.
ghost use Rattle.std.specs.Prelude.{◌≡◌, ◌≢◌, true, Err, IfErr, IfSome, OnOk};
ghost use Rattle.sigstore_types.specs.declared.bundle.Bundle.{Bundle as AnyBundle};
ghost use Rattle.sigstore_policy.specs.Policy.{meaning_in, Certificate};
ghost use Rattle.sigstore_judgement.specs.declared.rules.ReadArtifact.{ReadArtifact as AnyArtifact};
ghost use Rattle.sigstore_judgement.specs.Grounds.{Grounds as AnyGrounds};
ghost use Rattle.sigstore_judgement.specs.Rules.{answer_by};
ghost use Rattle.sigstore_judgement.specs.Sharing.{is_by_names, AsksAlike, IsOfBundle, IsOtherwiseNamed, EachComesToNames};

use crate::error::{Error, uncertified};
use certificate_claims::{CertificateInfo, parse_certificate_info};
use foundation::{NoMemory, Sequence};
use sigstore_certificate::{CertificatePolicy, VerificationPolicy, check_names};
use sigstore_keys::Threshold;
use sigstore_policy::SigningPolicy;
use sigstore_types::Bundle;
use std::alloc::Global;

/// What a rule for certificates asked beside names, that was refused by its names alone, and what the certificate says.
#[derive(Drop)]
pub struct EarlierRule {
    verify_tlog: bool,
    certificate: CertificatePolicy,
    scts: Threshold,
    info: CertificateInfo,
}

// The refusal is one by the names of the certificate, which are looked at behind its chain and its timestamps.
fn is_by_names(e: &Error) -> bool
    ensures { result ≡ is_by_names e.now }
{
    match e {
        Error::IdentityMismatch { .. } => true,
        Error::IssuerMismatch { .. } => true,
        Error::ClaimMismatch { .. } => true,
        _ => false,
    }
}

fn asks_alike(earlier: &EarlierRule, policy: &VerificationPolicy) -> bool
    ensures { result ≡ true → AsksAlike earlier.now policy.now }
{
    policy.verify_tlog == earlier.verify_tlog
        && policy.certificate == earlier.certificate
        && policy.scts == earlier.scts
}

// What a rule asks that its names alone refused.
fn earlier_rule(alloc: Global, bundle: &Bundle, policy: &VerificationPolicy) -> Option<EarlierRule>
    ensures of_bundle { IfSome result (IsOfBundle bundle.now) }
    ensures alike { IfSome result (λ earlier. AsksAlike earlier policy.now) }
{
    let certificate = bundle.signing_certificate()?;
    match parse_certificate_info(alloc, certificate) {
        Ok(info) => Some(EarlierRule {
            verify_tlog: policy.verify_tlog,
            certificate: policy.certificate,
            scts: policy.scts,
            info,
        }),
        Err(_) => None,
    }
}

fn is_known(earlier: &[EarlierRule], policy: &VerificationPolicy) -> bool {
    earlier.iter().any(|rule| asks_alike(rule, policy))
}

// Remembers a rule that was refused so, for those that ask alike.
fn add_rule(
    alloc: Global,
    bundle: &Bundle,
    policy: &VerificationPolicy,
    e: &Error,
    earlier: &mut Sequence<EarlierRule>,
) -> Result<(), NoMemory>
    ensures { (grounds : AnyGrounds) (artifact : AnyArtifact) → is_by_names e.now ≡ true → EachComesToNames grounds bundle.now artifact earlier.old
        → answer_by grounds bundle.now artifact (Certificate policy.now) ≡ Err e.now → OnOk result (EachComesToNames grounds bundle.now artifact earlier.new) }
{
    match earlier_rule(alloc, bundle, policy) {
        Some(rule) => {
            earlier.push(rule)?;
            Ok(())
        }
        None => Ok(()),
    }
}

/// Remembers a rule that was refused by its names alone, for those that ask alike. Errors: `NoMemory`.
pub(crate) fn remember(
    alloc: Global,
    bundle: &Bundle,
    policy: &SigningPolicy,
    e: &Error,
    earlier: &mut Sequence<EarlierRule>,
) -> Result<(), NoMemory>
    ensures { (grounds : AnyGrounds) (artifact : AnyArtifact) → EachComesToNames grounds bundle.now artifact earlier.old
        → (e.now ≢ Error.NoMemory → answer_by grounds bundle.now artifact (meaning_in policy.now) ≡ Err e.now)
        → OnOk result (EachComesToNames grounds bundle.now artifact earlier.new) }
{
    match policy {
        SigningPolicy::Certificate(policy) => {
            if is_by_names(e) && !is_known(earlier.as_slice(), policy) {
                return add_rule(alloc, bundle, policy, e, earlier);
            }
            Ok(())
        }
        SigningPolicy::PublicKey(_) => Ok(()),
    }
}

// A rule's names, where all else that it asks is known to hold.
fn check_alike(
    alloc: Global,
    earlier: &EarlierRule,
    policy: &VerificationPolicy,
) -> Result<(), Error>
    ensures { IfErr result (λ e. e ≢ Error.NoMemory → IsOtherwiseNamed earlier.now policy.now e) }
{
    if asks_alike(earlier, policy) {
        match check_names(alloc, policy, &earlier.info) {
            Ok(()) => Ok(()),
            Err(fault) => Err(uncertified(fault)),
        }
    } else {
        Ok(())
    }
}

fn check_each(
    alloc: Global,
    earlier: &[EarlierRule],
    policy: &VerificationPolicy,
) -> Result<(), Error>
    ensures { (grounds : AnyGrounds) (bundle : AnyBundle) (artifact : AnyArtifact) → EachComesToNames grounds bundle artifact earlier.now
        → IfErr result (λ e. e ≢ Error.NoMemory → answer_by grounds bundle artifact (Certificate policy.now) ≡ Err e) }
{
    'earlier: for rule in earlier {
        check_alike(alloc, rule, policy)?;
    }
    Ok(())
}

/// A rule that asks what an earlier one did is refused by its names, where they refuse: chain, timestamps and log aren't
/// judged again. Errors: `IdentityMismatch`, `IssuerMismatch`, `ClaimMismatch`.
pub(crate) fn check_shared(
    alloc: Global,
    earlier: &[EarlierRule],
    policy: &SigningPolicy,
) -> Result<(), Error>
    ensures { (grounds : AnyGrounds) (bundle : AnyBundle) (artifact : AnyArtifact) → EachComesToNames grounds bundle artifact earlier.now
        → IfErr result (λ e. e ≢ Error.NoMemory → answer_by grounds bundle artifact (meaning_in policy.now) ≡ Err e) }
{
    match policy {
        SigningPolicy::Certificate(policy) => check_each(alloc, earlier, policy),
        SigningPolicy::PublicKey(_) => Ok(()),
    }
}
