// What a log of certificates signed.
ghost use Rattle.std.specs.Prelude.{◌≡◌, ◌≢◌, Ok, Err, IfOk, IfErr, option_copied};
ghost use Rattle.x509_views.specs.Precertificates.{precert_of};
ghost use Rattle.x509_views.specs.Scts.{signed_of};
ghost use Rattle.x509_views.specs.Views.{certificate_parts};
ghost use Rattle.sigstore_certificate.specs.declared.error.SctRule.TheVariants.{Precertificate};
ghost use Rattle.sigstore_certificate.specs.Scts.{written, signed_data_of};

use crate::error::{CertificateRefusal, SctRule};
use der_core::OctetString;
use sigstore_types_parts::Sha256Hash;
use std::alloc::Global;
use std::marker::Model;
use x509_views::{CertView, Sct, X509Error, precert_tbs, sct_signed_bytes};

/// What a log signed with a certificate's timestamp (RFC 6962, section 3.2), and the log's identifier; contracts see
/// both.
#[derive(Drop)]
pub struct DigitallySigned {
    log_id: Sha256Hash,
    octets: OctetString,
}

impl Model for DigitallySigned {
    ghost use Rattle.sigstore_certificate.specs.Scts.{SignedByLog};

    ghost Value = { SignedByLog };

    ghost view = { λ d. record { log_id = d.log_id; octets = d.octets } };
}

/// The certificate's signed part without its timestamps. Errors: `Sct` with the rule `Precertificate`.
pub(crate) fn signed_part(alloc: Global, cert: &CertView) -> Result<OctetString, CertificateRefusal>
    ensures ok { IfOk result (λ tbs. written (precert_of cert.now.tbs.now cert.now.front.now (option_copied cert.now.extensions)) ≡ Ok tbs) }
    ensures err { IfErr result (λ e. e ≢ CertificateRefusal.NoMemory →
        written (precert_of cert.now.tbs.now cert.now.front.now (option_copied cert.now.extensions)) ≡ Err e) }
    ensures cause { IfErr result (λ e. e ≢ CertificateRefusal.NoMemory → e ≡ CertificateRefusal.Sct Precertificate) }
{
    match precert_tbs(alloc, cert) {
        Ok(tbs) => Ok(tbs),
        Err(X509Error::NoMemory) => Err(CertificateRefusal::NoMemory),
        Err(_) => Err(CertificateRefusal::Sct(SctRule::Precertificate)),
    }
}

fn signed_with(
    alloc: Global,
    sct: &Sct,
    key_hash: &[u8; 32],
    tbs: &[u8],
) -> Result<OctetString, CertificateRefusal>
    ensures ok { IfOk result (λ octets. written (signed_of sct.now key_hash.now tbs.now) ≡ Ok octets) }
    ensures err { IfErr result (λ e. e ≢ CertificateRefusal.NoMemory → written (signed_of sct.now key_hash.now tbs.now) ≡ Err e) }
    ensures cause { IfErr result (λ e. e ≢ CertificateRefusal.NoMemory → e ≡ CertificateRefusal.Sct Precertificate) }
{
    match sct_signed_bytes(alloc, sct, key_hash, tbs) {
        Ok(octets) => Ok(octets),
        Err(X509Error::NoMemory) => Err(CertificateRefusal::NoMemory),
        Err(_) => Err(CertificateRefusal::Sct(SctRule::Precertificate)),
    }
}

impl DigitallySigned {
    /// What a log signed with a timestamp that stands in a certificate, by the SHA-256 value of the issuer's key
    /// (its SubjectPublicKeyInfo). Errors: `Sct` with the rule `Precertificate`; for a certificate that was read
    /// only where its signed part without its timestamps has 2^24 octets or more, as `sct_is_written` says.
    #[tactic(auto, unfolding(crate::specs::Scts::signed_data_of))]
    pub fn from_embedded_sct(
        alloc: Global,
        cert: &CertView,
        sct: &Sct,
        issuer_key_hash: [u8; 32],
    ) -> Result<DigitallySigned, CertificateRefusal>
        ensures ok { IfOk result (λ d. signed_data_of (certificate_parts cert.now) sct.now issuer_key_hash ≡ Ok d.octets) }
        ensures log { IfOk result (λ d. d.log_id ≡ sct.now.log_id) }
        ensures err { IfErr result (λ e. e ≢ CertificateRefusal.NoMemory → signed_data_of (certificate_parts cert.now) sct.now issuer_key_hash ≡ Err e) }
        ensures cause { IfErr result (λ e. e ≢ CertificateRefusal.NoMemory → e ≡ CertificateRefusal.Sct Precertificate) }
    {
        let tbs = signed_part(alloc, cert)?;
        let octets = signed_with(alloc, sct, &issuer_key_hash, tbs.as_bytes())?;
        Ok(DigitallySigned {
            log_id: Sha256Hash::new(*sct.log_id()),
            octets,
        })
    }

    /// What the log signed.
    pub fn signed_data(&self) -> &[u8]
        ensures { result.now ≡ self.now.octets }
    {
        self.octets.as_bytes()
    }

    /// The log's identifier, the SHA-256 value of its key.
    pub fn log_id(&self) -> Sha256Hash
        ensures { result ≡ self.now.log_id }
    {
        Sha256Hash::new(*self.log_id.as_array())
    }
}
