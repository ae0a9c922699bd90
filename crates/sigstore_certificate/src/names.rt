// Whether a certificate names the identity and the issuer that are asked for, and claims what is.
ghost use Rattle.std.specs.Prelude.{◌≡◌, ◌≢◌, Ok, Err, IfOk, IfErr, option_copied};
ghost use Rattle.sigstore_certificate.specs.Names.{is_matched, identity_judged, is_text, issuer_judged, claim_judged, claims_judged, names_judged};

use crate::error::CertificateRefusal;
use certificate_claims::{CertificateInfo, FulcioCiClaims, SubjectAltName};
use foundation::{Duplicate, NoMemory};
use sigstore_policy::{ClaimMatcher, IdentityMatcher, VerificationPolicy};
use sigstore_types_parts::Text;
use std::alloc::Global;

fn is_matched(
    alloc: Global,
    matcher: &IdentityMatcher,
    identity: &Option<SubjectAltName>,
) -> Result<bool, NoMemory>
    ensures { IfOk result (λ b. b ≡ is_matched matcher.now identity.now) }
{
    match identity {
        Some(identity) => matcher.matches(alloc, identity),
        None => Ok(false),
    }
}

// The refusal, with both values.
fn other_identity(
    alloc: Global,
    matcher: &IdentityMatcher,
    identity: &Option<SubjectAltName>,
) -> Result<CertificateRefusal, NoMemory>
    ensures { IfOk result (λ e. e ≡ CertificateRefusal.IdentityMismatch matcher.now identity.now) }
{
    Ok(CertificateRefusal::IdentityMismatch {
        expected: matcher.duplicate(alloc)?,
        actual: identity.duplicate(alloc)?,
    })
}

// Else anyone to whom a trusted authority gives certificates could have signed.
fn check_identity(
    alloc: Global,
    asked: &Option<IdentityMatcher>,
    identity: &Option<SubjectAltName>,
) -> Result<(), CertificateRefusal>
    ensures ok { IfOk result (λ x. identity_judged asked.now identity.now ≡ Ok x) }
    ensures err { IfErr result (λ e. e ≢ CertificateRefusal.NoMemory → identity_judged asked.now identity.now ≡ Err e) }
{
    let Some(matcher) = asked else {
        return Ok(());
    };
    if is_matched(alloc, matcher, identity)? {
        return Ok(());
    }
    Err(other_identity(alloc, matcher, identity)?)
}

fn is_text(text: &Text, actual: &Option<Text>) -> bool
    ensures { result ≡ is_text text.now actual.now }
{
    match actual {
        Some(actual) => text == actual,
        None => false,
    }
}

fn other_issuer(
    alloc: Global,
    text: &Text,
    actual: &Option<Text>,
) -> Result<CertificateRefusal, NoMemory>
    ensures { IfOk result (λ e. e ≡ CertificateRefusal.IssuerMismatch text.now actual.now) }
{
    Ok(CertificateRefusal::IssuerMismatch {
        expected: text.duplicate(alloc)?,
        actual: actual.duplicate(alloc)?,
    })
}

// Else another issuer of identities could give that identity to another.
fn check_issuer(
    alloc: Global,
    asked: &Option<Text>,
    actual: &Option<Text>,
) -> Result<(), CertificateRefusal>
    ensures ok { IfOk result (λ x. issuer_judged asked.now actual.now ≡ Ok x) }
    ensures err { IfErr result (λ e. e ≢ CertificateRefusal.NoMemory → issuer_judged asked.now actual.now ≡ Err e) }
{
    let Some(text) = asked else {
        return Ok(());
    };
    if is_text(text, actual) {
        return Ok(());
    }
    Err(other_issuer(alloc, text, actual)?)
}

fn copied(alloc: Global, told: Option<&str>) -> Result<Option<Text>, NoMemory>
    ensures { IfOk result (λ copy. copy ≡ option_copied told.entry) }
{
    match told {
        Some(text) => Ok(Some(Text::new(alloc, text)?)),
        None => Ok(None),
    }
}

fn other_claim(
    alloc: Global,
    asked: &ClaimMatcher,
    told: Option<&str>,
) -> Result<CertificateRefusal, NoMemory>
    ensures { IfOk result (λ e. e ≡ CertificateRefusal.ClaimMismatch asked.now.name asked.now.text (option_copied told.entry)) }
{
    Ok(CertificateRefusal::ClaimMismatch {
        name: asked.name,
        expected: asked.text.duplicate(alloc)?,
        actual: copied(alloc, told)?,
    })
}

// Else another workflow, or another repository's run of it, could have signed under the identity.
fn check_claim(
    alloc: Global,
    asked: &ClaimMatcher,
    claims: &FulcioCiClaims,
) -> Result<(), CertificateRefusal>
    ensures ok { IfOk result (λ x. claim_judged asked.now claims.now ≡ Ok x) }
    ensures err { IfErr result (λ e. e ≢ CertificateRefusal.NoMemory → claim_judged asked.now claims.now ≡ Err e) }
{
    let told = claims.get(asked.name);
    if asked.text.is_matched(alloc, told)? {
        return Ok(());
    }
    Err(other_claim(alloc, asked, told)?)
}

fn check_claims(
    alloc: Global,
    asked: &[ClaimMatcher],
    claims: &FulcioCiClaims,
) -> Result<(), CertificateRefusal>
    ensures ok { IfOk result (λ x. claims_judged asked.now claims.now ≡ Ok x) }
    ensures err { IfErr result (λ e. e ≢ CertificateRefusal.NoMemory → claims_judged asked.now claims.now ≡ Err e) }
{
    'claims: for claim in asked {
        check_claim(alloc, claim, claims)?;
    }
    Ok(())
}

/// Whether a certificate names what is asked for. Errors, in order: `IdentityMismatch`, `IssuerMismatch`, and
/// `ClaimMismatch` for the first claim that it doesn't tell so.
pub fn check_names(
    alloc: Global,
    policy: &VerificationPolicy,
    info: &CertificateInfo,
) -> Result<(), CertificateRefusal>
    ensures ok { IfOk result (λ x. names_judged policy.now info.now ≡ Ok x) }
    ensures err { IfErr result (λ e. e ≢ CertificateRefusal.NoMemory → names_judged policy.now info.now ≡ Err e) }
{
    check_identity(alloc, &policy.identity, &info.identity)?;
    check_issuer(alloc, &policy.issuer, &info.issuer)?;
    check_claims(alloc, policy.claims.as_slice(), &info.ci_claims)?;
    Ok(())
}
