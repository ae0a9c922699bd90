// Whether a signing certificate was valid when it signed.
ghost use Rattle.std.specs.Prelude.{◌≡◌, ◌≢◌, Ok, Err, IfOk, IfErr};
ghost use Rattle.sigstore_certificate.specs.Certified.{leaf_scts_judged, scts_asked, some_time_judged, chain_verified, chain_judged, certified_of};
ghost use Rattle.sigstore_certificate.specs.Given.{trust_of, trust_by};

use crate::error::CertificateRefusal;
use crate::given::{CertificateInputs, Presented, TrustedAuthorities};
use crate::names::check_names;
use crate::scts::check_scts;
use crate::times::issuer_at_each;
use jiff::Timestamp;
use sigstore_keys::{CryptoProvider, Threshold};
use sigstore_policy::{CertificatePolicy, VerificationPolicy};
use std::alloc::Global;
use x509_views::{CertView, X509Error};

// How many trusted logs promised the certificate for its issuer by that key.
#[tactic(auto, unfolding(crate::specs::Certified::leaf_scts_judged))]
fn check_leaf_scts<C: CryptoProvider>(
    alloc: Global,
    given: &CertificateInputs<C>,
    asked: Threshold,
    issuer_spki: &[u8],
) -> Result<u64, CertificateRefusal>
    ensures ok { IfOk result (λ count. leaf_scts_judged (trust_of C.accepts given.now) asked given.now.leaf.now issuer_spki.now ≡ Ok count) }
    ensures err { IfErr result (λ e. e ≢ CertificateRefusal.NoMemory →
        leaf_scts_judged (trust_of C.accepts given.now) asked given.now.leaf.now issuer_spki.now ≡ Err e) }
{
    let view = match CertView::parse_in(alloc, given.leaf.as_bytes()) {
        Ok(view) => view,
        Err(X509Error::NoMemory) => return Err(CertificateRefusal::NoMemory),
        Err(_) => return Err(CertificateRefusal::Malformed),
    };
    Ok(check_scts(
        alloc,
        given.provider,
        given.ct_logs,
        asked,
        &view,
        issuer_spki,
    )?)
}

// Where that is asked for.
fn check_promised<C: CryptoProvider>(
    alloc: Global,
    given: &CertificateInputs<C>,
    verify_sct: bool,
    asked: Threshold,
    issuer_spki: &[u8],
) -> Result<u64, CertificateRefusal>
    ensures ok { IfOk result (λ count. scts_asked (trust_of C.accepts given.now) verify_sct asked given.now.leaf.now issuer_spki.now ≡ Ok count) }
    ensures err { IfErr result (λ e. e ≢ CertificateRefusal.NoMemory →
        scts_asked (trust_of C.accepts given.now) verify_sct asked given.now.leaf.now issuer_spki.now ≡ Err e) }
{
    if verify_sct {
        Ok(check_leaf_scts(alloc, given, asked, issuer_spki)?)
    } else {
        Ok(0)
    }
}

// Without this check a certificate could be accepted that was never valid while its key was its owner's.
fn check_some_time(times: &[Timestamp]) -> Result<(), CertificateRefusal>
    ensures { result ≡ some_time_judged times.now }
{
    match times {
        [] => Err(CertificateRefusal::NoTime),
        [_, ..] => Ok(()),
    }
}

// There is a time, the certificate was valid at each, and where that is asked for promised by so many logs, for the
// issuer at the last.
#[tactic(auto, unfolding(crate::specs::Certified::chain_verified))]
fn check_chain<C: CryptoProvider>(
    alloc: Global,
    given: &CertificateInputs<C>,
    verify_sct: bool,
    asked: Threshold,
    times: &[Timestamp],
) -> Result<u64, CertificateRefusal>
    ensures ok { IfOk result (λ count.
        chain_verified (trust_of C.accepts given.now) verify_sct asked given.now.info.now given.now.leaf.now given.now.intermediates.now times.now ≡ Ok count) }
    ensures err { IfErr result (λ e. e ≢ CertificateRefusal.NoMemory →
        chain_verified (trust_of C.accepts given.now) verify_sct asked given.now.info.now given.now.leaf.now given.now.intermediates.now times.now ≡ Err e) }
{
    check_some_time(times)?;
    let issuer = issuer_at_each(alloc, given, times)?;
    Ok(check_promised(alloc, given, verify_sct, asked, issuer.as_bytes())?)
}

// What isn't asked for is passed over; the names aren't looked at here.
fn check_asked<C: CryptoProvider>(
    alloc: Global,
    given: &CertificateInputs<C>,
    policy: CertificatePolicy,
    asked: Threshold,
    times: &[Timestamp],
) -> Result<u64, CertificateRefusal>
    ensures ok { IfOk result (λ count.
        chain_judged (trust_of C.accepts given.now) policy asked given.now.info.now given.now.leaf.now given.now.intermediates.now times.now ≡ Ok count) }
    ensures err { IfErr result (λ e. e ≢ CertificateRefusal.NoMemory →
        chain_judged (trust_of C.accepts given.now) policy asked given.now.info.now given.now.leaf.now given.now.intermediates.now times.now ≡ Err e) }
{
    match policy {
        CertificatePolicy::Skip => Ok(0),
        CertificatePolicy::Verify { verify_sct } => {
            Ok(check_chain(alloc, given, verify_sct, asked, times)?)
        }
    }
}

/// Whether a signing certificate is accepted under a policy for a signature with these verified times; `info` is what
/// was read of it, and the intermediates are those beside it. Then the number of different logs of certificates that
/// promised it, 0 where that isn't verified. Errors, in order: `NoTime`; for each time `NoValidAuthority`, `Malformed`,
/// `ChainInvalid`, `NotYetValid`, `Expired`; of the timestamps of logs of certificates, for the issuer by the path at
/// the last time, `Sct` and `InvalidTrustRoot`, and `Sct` again; `IdentityMismatch`, `IssuerMismatch`, `ClaimMismatch`. One
/// search for a path is made for each time that differs from those before; each judges at most (n + 1) * (n + m) pairs of
/// n intermediates and m anchors.
#[tactic(auto, unfolding(crate::specs::Certified::certified_of))]
pub fn judge_certificate<C: CryptoProvider>(
    alloc: Global,
    provider: &C,
    authorities: &TrustedAuthorities<'_>,
    policy: &VerificationPolicy,
    presented: &Presented<'_>,
    times: &[Timestamp],
) -> Result<u64, CertificateRefusal>
    ensures ok { IfOk result (λ promised.
        certified_of (trust_by (C.accepts provider.now) authorities.now) policy.now
        presented.now.info.now presented.now.leaf.now presented.now.intermediates.now times.now ≡ Ok promised) }
    ensures err { IfErr result (λ e. e ≢ CertificateRefusal.NoMemory →
        certified_of (trust_by (C.accepts provider.now) authorities.now) policy.now
        presented.now.info.now presented.now.leaf.now presented.now.intermediates.now times.now ≡ Err e) }
{
    let given = CertificateInputs {
        provider,
        anchors: authorities.anchors,
        ct_logs: authorities.ct_logs,
        info: presented.info,
        leaf: presented.leaf,
        intermediates: presented.intermediates,
    };
    let promised = check_asked(alloc, &given, policy.certificate, policy.scts, times)?;
    check_names(alloc, policy, presented.info)?;
    Ok(promised)
}
