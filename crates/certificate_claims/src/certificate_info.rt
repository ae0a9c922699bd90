// What a certificate says of its owner.
ghost use Rattle.std.specs.Prelude.{◌≡◌, ◌≢◌, IfOk, IfErr, Ok, Err, Some, option_copied};
ghost use Rattle.sigstore_keys.specs.declared.error.Error.TheVariants as errors;
ghost use Rattle.x509_views.specs.Views.{certificate_parts};
ghost use Rattle.x509_views.specs.Walk.{coming};
ghost use Rattle.certificate_claims.specs.Info.{text_of, identity_in, identity_of, info_of_parts, info_of};
ghost use Rattle.certificate_claims.specs.Names.{said};

use crate::claims::{FulcioCiClaims, read_claims, read_issuer};
use crate::names::{FoundName, read_names};
use certificate_fields::{extension_value, moment};
use foundation::{Duplicate, NoMemory};
use jiff::Timestamp;
use sigstore_keys::{CertificateFault, Error, KeyAlgorithm};
use sigstore_types_parts::{DerCertificate, DerPublicKey, Text};
use std::alloc::Global;
use std::fmt;
use x509_views::{CertView, Extensions, X509Error};

/// Who a certificate was issued to, by its subject alternative name (RFC 5280, 4.2.1.6).
#[derive(Debug, PartialEq, Eq, Hash, Drop)]
pub enum SubjectAltName {
    /// A mail address.
    Email(Text),
    /// A uniform resource identifier.
    Uri(Text),
}

impl SubjectAltName {
    /// The address or the identifier.
    pub fn as_str(&self) -> &str
        ensures { result.now ≡ text_of self.now }
    {
        match self {
            SubjectAltName::Email(text) => text.as_str(),
            SubjectAltName::Uri(text) => text.as_str(),
        }
    }
}

impl fmt::Display for SubjectAltName {
    ghost output = { λ name. Some (text_of name) };

    fn fmt<W: fmt::Write>(&self, f: &mut fmt::Formatter<W>) -> fmt::Result {
        fmt::Display::fmt(&self.as_str(), f)
    }
}

impl Duplicate for SubjectAltName {
    fn duplicate(&self, alloc: Global) -> Result<SubjectAltName, NoMemory> {
        match self {
            SubjectAltName::Email(text) => Ok(SubjectAltName::Email(text.duplicate(alloc)?)),
            SubjectAltName::Uri(text) => Ok(SubjectAltName::Uri(text.duplicate(alloc)?)),
        }
    }
}

/// What a certificate says of its owner.
#[derive(Debug, PartialEq, Eq, Drop)]
pub struct CertificateInfo {
    pub identity: Option<SubjectAltName>,
    /// Who issued the identity.
    pub issuer: Option<Text>,
    pub not_before: Timestamp,
    pub not_after: Timestamp,
    /// The certificate's SubjectPublicKeyInfo.
    pub public_key: DerPublicKey,
    pub key_algorithm: KeyAlgorithm,
    pub ci_claims: FulcioCiClaims,
}

impl Duplicate for CertificateInfo {
    fn duplicate(&self, alloc: Global) -> Result<CertificateInfo, NoMemory> {
        Ok(CertificateInfo {
            identity: self.identity.duplicate(alloc)?,
            issuer: self.issuer.duplicate(alloc)?,
            not_before: self.not_before,
            not_after: self.not_after,
            public_key: self.public_key.duplicate(alloc)?,
            key_algorithm: self.key_algorithm,
            ci_claims: self.ci_claims.duplicate(alloc)?,
        })
    }
}

fn owned(alloc: Global, name: Option<FoundName>) -> Result<Option<SubjectAltName>, Error>
    ensures ok { IfOk result (λ identity. identity ≡ said name.entry) }
    ensures err { IfErr result (λ e. e ≡ errors.NoMemory) }
{
    match name {
        Some(FoundName::Email(text)) => Ok(Some(SubjectAltName::Email(Text::new(alloc, text)?))),
        Some(FoundName::Uri(text)) => Ok(Some(SubjectAltName::Uri(Text::new(alloc, text)?))),
        None => Ok(None),
    }
}

fn identity_in(alloc: Global, value: Option<&[u8]>) -> Result<Option<SubjectAltName>, Error>
    ensures ok { IfOk result (λ identity. identity_in (option_copied value.entry) ≡ Ok identity) }
    ensures err { IfErr result (λ e. e ≢ Error.NoMemory → identity_in (option_copied value.entry) ≡ Err e) }
{
    let Some(value) = value else {
        return Ok(None);
    };
    match read_names(value) {
        Ok(name) => Ok(owned(alloc, name)?),
        Err(_) => Err(Error::InvalidCertificate(CertificateFault::San)),
    }
}

#[tactic(auto, unfolding(crate::specs::Info::identity_of))]
fn read_identity(alloc: Global, extensions: Extensions) -> Result<Option<SubjectAltName>, Error>
    ensures ok { IfOk result (λ identity. identity_of (coming extensions.entry) ≡ Ok identity) }
    ensures err { IfErr result (λ e. e ≢ Error.NoMemory → identity_of (coming extensions.entry) ≡ Err e) }
{
    // id-ce-subjectAltName, 2.5.29.17.
    match identity_in(alloc, extension_value(extensions, &[0x55, 0x1d, 0x11])) {
        Ok(identity) => Ok(identity),
        Err(refusal) => Err(refusal),
    }
}

#[tactic(auto, unfolding(crate::specs::Info::info_of_parts))]
fn info_in(alloc: Global, certificate: &CertView) -> Result<CertificateInfo, Error>
    ensures ok { IfOk result (λ info. info_of_parts (certificate_parts certificate.now) ≡ Ok info) }
    ensures err { IfErr result (λ e. e ≢ Error.NoMemory → info_of_parts (certificate_parts certificate.now) ≡ Err e) }
{
    let extensions = certificate.each_extension();
    let public_key = DerPublicKey::from_bytes(alloc, certificate.spki)?;
    let key_algorithm = KeyAlgorithm::from_spki(&public_key)?;
    let identity = read_identity(alloc, extensions)?;
    let issuer = read_issuer(alloc, extensions)?;
    let ci_claims = read_claims(alloc, extensions)?;
    Ok(CertificateInfo {
        identity,
        issuer,
        not_before: moment(&certificate.not_before),
        not_after: moment(&certificate.not_after),
        public_key,
        key_algorithm,
        ci_claims,
    })
}

/// What a certificate says of its owner. Errors, in order: `InvalidCertificate(Der)` where the bytes are no
/// certificate (RFC 5280, section 4.1), `InvalidKey` for a key of no known sort, `InvalidCertificate(San)` and
/// `InvalidCertificate(Issuer)` where the subject alternative name or the issuer of the identity is unreadable.
#[tactic(auto, unfolding(crate::specs::Info::info_of))]
pub fn parse_certificate_info(
    alloc: Global,
    certificate: &DerCertificate,
) -> Result<CertificateInfo, Error>
    ensures ok { IfOk result (λ info. info_of certificate.now ≡ Ok info) }
    ensures err { IfErr result (λ e. e ≢ Error.NoMemory → info_of certificate.now ≡ Err e) }
{
    match CertView::parse_in(alloc, certificate.as_bytes()) {
        Ok(view) => Ok(info_in(alloc, &view)?),
        Err(X509Error::NoMemory) => Err(Error::NoMemory),
        Err(_) => Err(Error::InvalidCertificate(CertificateFault::Der)),
    }
}
