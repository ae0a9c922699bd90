// Whether an authority's certificates vouch for its leaf.
ghost use Rattle.std.specs.Prelude.{◌≡◌, ◌≢◌, Ok, Err, IfOk, IfErr};
ghost use Rattle.x509_views.specs.Views.{certificate_parts};
ghost use Rattle.path_core.specs.declared.route.FoundPath.{FoundPath as Found};
ghost use Rattle.path_core.specs.Anchors.{may_anchor};
ghost use Rattle.path_core.specs.Path.{path_of};
ghost use Rattle.path_core.specs.Traits.{window_of};
ghost use Rattle.sigstore_tsa_parts.specs.declared.error.CertificateFault.TheVariants as fault;
ghost use Rattle.sigstore_tsa.specs.Vouched.{or_fault, root_anchor, setting_of, within_validity, within_window, vouched_of};

use certificate_fields::moment;
use foundation::Sequence;
use jiff::Timestamp;
use path_core::{Anchor, PathError, PathRequest, Purpose, Steps, find_path};
use sigstore_keys::CryptoProvider;
use sigstore_tsa_parts::{CertificateFault, Error};
use sigstore_types::TsaAuthority;
use sigstore_types_parts::TimeRange;
use std::alloc::Global;
use x509_views::CertView;

fn root(alloc: Global, authority: &TsaAuthority) -> Result<Anchor, Error>
    ensures ok { IfOk result (λ anchor. (or_fault fault.Root (may_anchor authority.now.root) ≡ Ok tt) × (anchor ≡ root_anchor authority.now)) }
    ensures err { IfErr result (λ e. e ≢ Error.NoMemory → or_fault fault.Root (may_anchor authority.now.root) ≡ Err e) }
{
    match Anchor::from_certificate(alloc, &authority.root, None) {
        Ok(anchor) => Ok(anchor),
        Err(PathError::NoMemory) => Err(Error::NoMemory),
        Err(_) => Err(Error::CertificateValidationError(CertificateFault::Root)),
    }
}

fn check_path<C: CryptoProvider>(
    alloc: Global,
    provider: &C,
    authority: &TsaAuthority,
    root: Anchor,
    time: Timestamp,
) -> Result<(), Error>
    requires { root ≡ root_anchor authority.now }
    ensures ok { IfOk result (λ x. (p : Found) × (path_of (setting_of (C.accepts provider.now) authority.now time) ≡ Ok p)) }
    ensures err { IfErr result (λ e. e ≢ Error.NoMemory → or_fault fault.Path (path_of (setting_of (C.accepts provider.now) authority.now time)) ≡ Err e) }
{
    let mut anchors = Sequence::new(alloc);
    anchors.push(root)?;
    let request = PathRequest {
        provider,
        leaf: &authority.leaf,
        intermediates: authority.intermediates.as_slice(),
        anchors: anchors.as_slice(),
        purpose: Purpose::TimeStamping,
        at: time,
    };
    let mut steps = Steps::new();
    match find_path(alloc, &request, &mut steps) {
        Ok(_) => Ok(()),
        Err(PathError::NoMemory) => Err(Error::NoMemory),
        Err(_) => Err(Error::CertificateValidationError(CertificateFault::Path)),
    }
}

fn validity(leaf: &CertView<'_>) -> TimeRange
    ensures { result ≡ window_of (certificate_parts leaf.now) }
{
    TimeRange {
        start: moment(&leaf.not_before),
        end: Some(moment(&leaf.not_after)),
    }
}

fn check_validity(range: &TimeRange, time: Timestamp) -> Result<(), Error>
    ensures { result ≡ within_validity range.now time }
{
    if !range.has_started_by(time) {
        return Err(Error::CertificateValidationError(CertificateFault::NotYetValid));
    }
    if range.contains(time) {
        Ok(())
    } else {
        Err(Error::CertificateValidationError(CertificateFault::Expired))
    }
}

// An authority that is no longer trusted could stamp on else.
fn check_window(window: Option<TimeRange>, time: Timestamp) -> Result<(), Error>
    ensures { result ≡ within_window window time }
{
    match window {
        None => Ok(()),
        Some(range) => {
            if range.contains(time) {
                Ok(())
            } else {
                Err(Error::TimestampOutsideValidity { time })
            }
        }
    }
}

/// Whether an authority's certificates vouch for its leaf at a time (RFC 3161, section 2.3; RFC 5280, section 6).
/// Errors, in order: `CertificateValidationError` with `Root`, `Path`, `NotYetValid` and `Expired`;
/// `TimestampOutsideValidity`.
#[tactic(auto, unfolding(crate::specs::Vouched::vouched_of))]
pub(crate) fn check_authority<C: CryptoProvider>(
    alloc: Global,
    provider: &C,
    authority: &TsaAuthority,
    leaf: &CertView<'_>,
    time: Timestamp,
) -> Result<(), Error>
    ensures ok { IfOk result (λ x. vouched_of (C.accepts provider.now) authority.now (certificate_parts leaf.now) time ≡ Ok tt) }
    ensures err { IfErr result (λ e. e ≢ Error.NoMemory → vouched_of (C.accepts provider.now) authority.now (certificate_parts leaf.now) time ≡ Err e) }
{
    let root = root(alloc, authority)?;
    check_path(alloc, provider, authority, root, time)?;
    check_validity(&validity(leaf), time)?;
    check_window(authority.valid_for, time)?;
    Ok(())
}
