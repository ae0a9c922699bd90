// What the judgement finds on its way, and the report of it.
ghost use Rattle.std.specs.Prelude.{◌≡◌, ◌++◌, None, IfOk};
ghost use Rattle.sigstore_judgement.specs.Evidence.{earlier, earliest_from, asks_name, report_of};
ghost use Rattle.sigstore_judgement.specs.Signer.{signer_as};

use crate::report::VerificationResult;
use crate::signing::{Owner, Signing};
use foundation::{NoMemory, Sequence};
use jiff::Timestamp;
use sigstore_certificate::VerificationPolicy;

/// What was found that vouches for a signer.
#[derive(Drop)]
pub struct Evidence {
    /// The earliest time that a log promised, of an entry that is logged, where the log is verified.
    pub integrated_time: Option<Timestamp>,
    /// Under a key the times that logs promised, in the entries' order, then those that authorities stamped, in the
    /// tokens' order; under a certificate those of the tokens first.
    pub times: Sequence<Timestamp>,
    /// How many different certificate logs promised the certificate, where that is verified.
    pub sct_count: u64,
    /// In how many different logs the entries stand, where the log is verified.
    pub log_count: u64,
    /// Whose word the times are.
    pub parties: Parties,
}

/// How many different parties tell the verified times.
#[derive(Clone, Copy, Debug, PartialEq, Eq, Drop)]
pub struct Parties {
    /// The time-stamp authorities of the tokens, told apart by the certificates that their chains end in.
    pub authorities: u64,
    /// These and the logs whose promises tell a time.
    pub sources: u64,
}

fn earlier(first: Option<Timestamp>, time: Timestamp) -> Timestamp
    ensures { result ≡ earlier first time }
{
    match first {
        Some(first) if first <= time => first,
        _ => time,
    }
}

/// The earliest of times.
pub(crate) fn earliest(times: &[Timestamp]) -> Option<Timestamp>
    ensures { result ≡ earliest_from None times.now }
{
    let mut first = None;
    'times: for time in times {
        first = Some(earlier(first, *time));
    }
    first
}

/// Times, and others behind them.
pub(crate) fn joined(
    first: Sequence<Timestamp>,
    others: &[Timestamp],
) -> Result<Sequence<Timestamp>, NoMemory>
    ensures { IfOk result (λ times. times ≡ first ++ others.now) }
{
    let mut times = first.into_vec();
    times.extend_from_slice(others)?;
    Ok(Sequence::from_vec(times))
}

// Whether the policy names whom it asks for, or asks what the certificate claims.
fn asks_name(policy: &VerificationPolicy) -> bool
    ensures { result ≡ asks_name policy.now }
{
    policy.identity.is_some() || policy.issuer.is_some() || !policy.claims.is_empty()
}

/// What an acceptance shows.
pub(crate) fn report(signer: Signing<'_>, evidence: Evidence) -> VerificationResult
    ensures { result ≡ report_of (signer_as signer.entry) evidence }
{
    let Evidence {
        integrated_time,
        times,
        sct_count,
        log_count,
        parties: _,
    } = evidence;
    match signer {
        Signing::Managed(policy) => VerificationResult {
            certificate: None,
            integrated_time,
            certificate_verified: false,
            sct_verified: false,
            tlog_verified: policy.verify_tlog,
            identity_policy_checked: false,
            verified_timestamps: times,
            sct_count,
            log_count,
        },
        Signing::Certified(owner) => {
            let Owner { policy, info, .. } = owner;
            VerificationResult {
                certificate: Some(info),
                integrated_time,
                certificate_verified: policy.certificate.verifies_chain(),
                sct_verified: policy.certificate.verifies_sct(),
                tlog_verified: policy.verify_tlog,
                identity_policy_checked: asks_name(policy),
                verified_timestamps: times,
                sct_count,
                log_count,
            }
        }
    }
}
