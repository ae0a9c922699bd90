// What a certificate says of its use.
ghost use Rattle.std.specs.Prelude.{◌≡◌, Ok, Err, IfOk, is_some, option_copied};
ghost use Rattle.x509_views.specs.Views.{certificate_parts};
ghost use Rattle.path_core.specs.Traits.{window_of, constrains_names, traits_of, of_third_version, without_unknown, of_no_ca, for_purpose, leaf_judged, issues};

use crate::authority::{CaConstraint, read_authority};
use crate::error::LeafFault;
use crate::extensions::has_unknown_critical;
use crate::purpose::Purpose;
use crate::usage::{Usage, read_usage};
use certificate_fields::{extension_value, moment};
use foundation::NoMemory;
use jiff::Timestamp;
use sigstore_types_parts::TimeRange;
use std::alloc::Global;
use x509_views::CertView;

/// What a certificate says of its use.
#[derive(Drop)]
pub(crate) struct Traits {
    /// 2 for the third version.
    pub(crate) version: u8,
    pub(crate) window: TimeRange,
    pub(crate) unknown_critical: bool,
    pub(crate) authority: CaConstraint,
    pub(crate) usage: Usage,
    pub(crate) name_constraints: bool,
}

fn window(certificate: &CertView) -> TimeRange
    ensures { result ≡ window_of (certificate_parts certificate.now) }
{
    TimeRange {
        start: moment(&certificate.not_before),
        end: Some(moment(&certificate.not_after)),
    }
}

/// Whether name constraints (RFC 5280, 4.2.1.10) are there.
#[tactic(auto, unfolding(crate::specs::Traits::constrains_names))]
pub(crate) fn has_name_constraints(certificate: &CertView) -> bool
    ensures { result ≡ constrains_names (certificate_parts certificate.now) }
{
    // id-ce-nameConstraints, 2.5.29.30.
    extension_value(certificate.each_extension(), &[0x55, 0x1d, 0x1e]).is_some()
}

/// What a certificate says of its use.
#[tactic(auto, unfolding(crate::specs::Traits::authority_by, crate::specs::Traits::usage_by))]
pub(crate) fn read_traits(alloc: Global, certificate: &CertView) -> Result<Traits, NoMemory>
    ensures { IfOk result (λ traits. traits ≡ traits_of (certificate_parts certificate.now)) }
{
    let extensions = certificate.each_extension();
    // id-ce-basicConstraints, 2.5.29.19, and id-ce-extKeyUsage, 2.5.29.37.
    let authority = read_authority(alloc, extension_value(extensions, &[0x55, 0x1d, 0x13]))?;
    let usage = read_usage(alloc, extension_value(extensions, &[0x55, 0x1d, 0x25]))?;
    Ok(Traits {
        version: certificate.version,
        window: window(certificate),
        unknown_critical: has_unknown_critical(extensions),
        authority,
        usage,
        name_constraints: has_name_constraints(certificate),
    })
}

// Extensions, and with them all that is asked here, are of the third version (RFC 5280, 4.1.2.1).
fn check_version(version: u8) -> Result<(), LeafFault>
    ensures { result ≡ of_third_version version }
{
    if version == 2 {
        Ok(())
    } else {
        Err(LeafFault::Version)
    }
}

fn check_extensions(unknown_critical: bool) -> Result<(), LeafFault>
    ensures { result ≡ without_unknown unknown_critical }
{
    if unknown_critical {
        Err(LeafFault::CriticalExtension)
    } else {
        Ok(())
    }
}

// Else an issuer's key, which is kept for issuing, would sign artifacts and tokens too.
fn check_no_ca(authority: &CaConstraint) -> Result<(), LeafFault>
    ensures { result ≡ of_no_ca authority.now }
{
    if authority.is_no_ca() {
        Ok(())
    } else {
        Err(LeafFault::IsCa)
    }
}

// Else a certificate for another use, such as a server's, would sign artifacts or tokens.
fn check_purpose(purpose: Purpose, usage: &Usage) -> Result<(), LeafFault>
    ensures { result ≡ for_purpose purpose usage.now }
{
    if usage.has(purpose) {
        Ok(())
    } else {
        Err(LeafFault::Purpose)
    }
}

impl Traits {
    /// Whether they are a leaf's, or the first that it lacks.
    #[tactic(auto, unfolding(crate::specs::Traits::leaf_judged))]
    pub(crate) fn judge_leaf(&self, purpose: Purpose) -> Result<(), LeafFault>
        ensures { result ≡ leaf_judged purpose self.now }
    {
        check_version(self.version)?;
        check_extensions(self.unknown_critical)?;
        check_no_ca(&self.authority)?;
        check_purpose(purpose, &self.usage)
    }

    /// Whether they are those of an intermediate above so many others. Its window is asked as RFC 5280
    /// does (6.1.3 (a) (2)); name constraints aren't judged, so a certificate with them isn't used.
    #[tactic(auto, unfolding(crate::specs::Traits::issues))]
    pub(crate) fn issues(&self, purpose: Purpose, at: Timestamp, below: u8) -> bool
        ensures { result ≡ issues purpose at below self.now }
    {
        self.version == 2
            && self.authority.stands_above(below)
            && self.usage.allows(purpose)
            && self.window.contains(at)
            && !self.unknown_critical
            && !self.name_constraints
    }
}
