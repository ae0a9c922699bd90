// The key of a certificate's issuer at one time.
ghost use Rattle.std.specs.Prelude.{◌≡◌, ◌≢◌, Ok, Err, IfOk, IfErr};
ghost use Rattle.sigstore_keys.specs.Keyring.{is_used_at};
ghost use Rattle.sigstore_certificate.specs.Certified.{has_authority, authority_judged, window_judged, issued_at};
ghost use Rattle.sigstore_certificate.specs.Error.{by_path, refusal_of_path};
ghost use Rattle.sigstore_certificate.specs.Given.{trust_of, path_in, issuer_in};

use crate::error::CertificateRefusal;
use crate::given::CertificateInputs;
use certificate_claims::CertificateInfo;
use jiff::Timestamp;
use path_core::{Anchor, FoundPath, PathRequest, Purpose, Steps, find_path};
use sigstore_keys::CryptoProvider;
use sigstore_types_parts::Bytes;
use std::alloc::Global;

fn is_open(anchor: &Anchor, time: Timestamp) -> bool
    ensures { result ≡ is_used_at time anchor.now.valid_for }
{
    match anchor.valid_for() {
        Some(window) => window.contains(time),
        None => true,
    }
}

fn has_authority(anchors: &[Anchor], time: Timestamp) -> bool
    ensures { result ≡ has_authority anchors.now time }
{
    anchors.iter().any(|anchor| is_open(anchor, time))
}

// Without this check an authority that is no longer trusted could issue for later times.
fn check_authority(anchors: &[Anchor], time: Timestamp) -> Result<(), CertificateRefusal>
    ensures { result ≡ authority_judged anchors.now time }
{
    if has_authority(anchors, time) {
        Ok(())
    } else {
        Err(CertificateRefusal::NoValidAuthority { time })
    }
}

// Without this check a key that was given away after the certificate's end could still sign.
fn check_window(info: &CertificateInfo, time: Timestamp) -> Result<(), CertificateRefusal>
    ensures { result ≡ window_judged info.now time }
{
    if time < info.not_before {
        return Err(CertificateRefusal::NotYetValid {
            time,
            not_before: info.not_before,
        });
    }
    if info.not_after < time {
        return Err(CertificateRefusal::Expired {
            time,
            not_after: info.not_after,
        });
    }
    Ok(())
}

// The first path for code signing. Without it anyone could write a certificate with any name.
fn path_at<C: CryptoProvider>(
    alloc: Global,
    given: &CertificateInputs<C>,
    time: Timestamp,
) -> Result<FoundPath, CertificateRefusal>
    ensures ok { IfOk result (λ p.
        by_path (path_in C.accepts given.now time) ≡ Ok p) }
    ensures err { IfErr result (λ e. e ≢ CertificateRefusal.NoMemory →
        by_path (path_in C.accepts given.now time) ≡ Err e) }
{
    let request = PathRequest {
        provider: given.provider,
        leaf: given.leaf,
        intermediates: given.intermediates,
        anchors: given.anchors,
        purpose: Purpose::CodeSigning,
        at: time,
    };
    let mut steps = Steps::new();
    match find_path(alloc, &request, &mut steps) {
        Ok(found) => Ok(found),
        Err(fault) => Err(CertificateRefusal::from(fault)),
    }
}

/// The key of the certificate's issuer at a time, by one search. Errors, in order: `NoValidAuthority`; `Malformed`
/// where the certificate isn't read, isn't of the third version or has a critical extension that isn't known;
/// `ChainInvalid`, `NotYetValid`, `Expired`.
#[tactic(auto, unfolding(crate::specs::Certified::issued_at))]
pub(crate) fn issuer_at<C: CryptoProvider>(
    alloc: Global,
    given: &CertificateInputs<C>,
    time: Timestamp,
) -> Result<Bytes, CertificateRefusal>
    ensures ok { IfOk result (λ key. issuer_in C.accepts given.now time ≡ Ok key) }
    ensures err { IfErr result (λ e. e ≢ CertificateRefusal.NoMemory → issuer_in C.accepts given.now time ≡ Err e) }
{
    check_authority(given.anchors, time)?;
    let path = path_at(alloc, given, time)?;
    check_window(given.info, time)?;
    Ok(path.issuer_spki)
}
