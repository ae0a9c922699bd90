// Certificates that are trusted beforehand.
ghost use Rattle.std.specs.Prelude.{◌≡◌, ◌≢◌, IfOk, IfErr, Ok, Err};
ghost use Rattle.x509_views.specs.Views.{certificate_parts};
ghost use Rattle.path_core.specs.declared.error.PathError.TheVariants.{NoMemory};
ghost use Rattle.path_core.specs.Anchors.{unconstrained, may_anchor, is_since_1970};

use crate::error::PathError;
use crate::traits::has_name_constraints;
use foundation::Duplicate;
use jiff::Timestamp;
use sigstore_types_parts::{DerCertificate, TimeRange};
use std::alloc::Global;
use std::marker::Model;
use x509_views::{CertView, X509Error};

/// A certificate that is trusted beforehand, with the window in which it is; contracts see both.
#[derive(Drop)]
pub struct Anchor {
    certificate: DerCertificate,
    valid_for: Option<TimeRange>,
}

impl Model for Anchor {
    ghost use Rattle.std.specs.Prelude.{◌≡◌, Ok};
    ghost use Rattle.path_core.specs.Anchors.{TrustAnchor, may_anchor};

    ghost Value = { TrustAnchor };

    ghost view = { λ a. record { certificate = a.certificate; valid_for = a.valid_for } };

    ghost invariant = { λ a. may_anchor a.certificate ≡ Ok tt };
}

// An anchor's name constraints (RFC 5280, 4.2.1.10) would bind the whole path, and aren't judged: used
// as an anchor, it would vouch for names that it was kept from.
fn check_names(certificate: &CertView) -> Result<(), PathError>
    ensures { result ≡ unconstrained (certificate_parts certificate.now) }
{
    if has_name_constraints(certificate) {
        Err(PathError::NameConstraints)
    } else {
        Ok(())
    }
}

#[tactic(auto, unfolding(crate::specs::Anchors::may_anchor))]
fn check(alloc: Global, certificate: &[u8]) -> Result<(), PathError>
    ensures ok { IfOk result (λ x. may_anchor certificate.now ≡ Ok tt) }
    ensures err { IfErr result (λ e. e ≢ PathError.NoMemory → may_anchor certificate.now ≡ Err e) }
{
    match CertView::parse_in(alloc, certificate) {
        Ok(view) => Ok(check_names(&view)?),
        Err(X509Error::NoMemory) => Err(PathError::NoMemory),
        Err(_) => Err(PathError::Certificate),
    }
}

impl Anchor {
    /// The anchor of a certificate, trusted in a window or always. Errors, in order: `Certificate` where the
    /// bytes are no certificate (RFC 5280, 4.1), `NameConstraints` where it has these (4.2.1.10).
    pub fn from_certificate(
        alloc: Global,
        certificate: &DerCertificate,
        valid_for: Option<TimeRange>,
    ) -> Result<Anchor, PathError>
        ensures ok { IfOk result (λ a. may_anchor certificate.now ≡ Ok tt) }
        ensures same { IfOk result (λ a. a ≡ record { certificate = certificate.now; valid_for = valid_for }) }
        ensures err { IfErr result (λ e. e ≢ PathError.NoMemory → may_anchor certificate.now ≡ Err e) }
    {
        check(alloc, certificate.as_bytes())?;
        Ok(Anchor {
            certificate: certificate.duplicate(alloc)?,
            valid_for,
        })
    }

    /// The certificate.
    pub fn certificate(&self) -> &DerCertificate
        ensures same { result.now ≡ self.now.certificate }
        ensures read { may_anchor self.now.certificate ≡ Ok tt }
    {
        &self.certificate
    }

    /// The window in which it is trusted; without one always.
    pub fn valid_for(&self) -> Option<TimeRange>
        ensures { result ≡ self.now.valid_for }
    {
        self.valid_for
    }
}

/// Whether a moment isn't before 1970.
pub(crate) fn is_since_1970(at: Timestamp) -> bool
    ensures { result ≡ is_since_1970 at }
{
    !(at.as_nanosecond() < 0)
}
