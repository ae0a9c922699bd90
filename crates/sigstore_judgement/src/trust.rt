// What a verifier keeps of a trust file.
ghost use Rattle.std.specs.Prelude.{◌≡◌, ◌≢◌, ◌∷◌, ◌++◌, [], Ok, Err, IfOk, IfErr, OnOk};
ghost use Rattle.path_core.specs.Anchors.{may_anchor};
ghost use Rattle.sigstore_keys.specs.declared.error.Error.TheVariants as crypto;
ghost use Rattle.sigstore_keys.specs.declared.scheme.SigningScheme.TheVariants.{RsaPkcs1Sha256};
ghost use Rattle.sigstore_keys.specs.Key.{der_key_of};
ghost use Rattle.sigstore_judgement.specs.declared.trust.LogKind.TheVariants.{Certificates};
ghost use Rattle.sigstore_judgement.specs.Trust.{window_usable, id_usable, id_new, log_key_of, log_added, logs_added, nonempty, or_certificate, certificate_added, certificates_added, authority_added, authorities_added, with_stamping, stamping_among, material_of};

use crate::error::Error;
use foundation::{Duplicate, Sequence};
use path_core::{Anchor, PathError};
use sigstore_keys::{Keyring, SigningScheme, VerificationKey};
use sigstore_types::{Authority, TrustedLog, TrustedRoot, TsaAuthority};
use sigstore_types_parts::{
    DerCertificate, DerPublicKey, LogKeyId, Sha256Hash, TimeRange, TypesError,
};
use std::alloc::Global;

/// What a log lists.
#[derive(Clone, Copy, Drop)]
pub(crate) enum LogKind {
    /// Entries of signatures.
    Entries,
    /// Certificates (RFC 6962).
    Certificates,
}

/// What a verifier keeps of a trust file.
#[derive(Drop)]
pub struct Material {
    /// The keys of the logs of entries.
    pub logs: Keyring,
    /// The keys of the logs of certificates.
    pub ct_logs: Keyring,
    /// The certificates of the certificate authorities, each in its authority's window.
    pub anchors: Sequence<Anchor>,
    /// The authorities that stamp times, in the file's order.
    pub authorities: Sequence<TsaAuthority>,
}

// A reversed span would never be open, and whoever wrote it meant another one.
fn check_window(window: Option<TimeRange>) -> Result<(), Error>
    ensures { result ≡ window_usable window }
{
    match window {
        None => Ok(()),
        Some(range) => match range.end {
            Some(end) if end < range.start => Err(Error::InvalidTrustRoot),
            _ => Ok(()),
        },
    }
}

fn log_id(id: &LogKeyId) -> Result<Sha256Hash, Error>
    ensures { result ≡ id_usable id.now }
{
    match Sha256Hash::try_from(id.as_bytes()) {
        Ok(id) => Ok(id),
        Err(_) => Err(Error::Types),
    }
}

// Of two keys under one id the later one would silently take the earlier one's place.
fn check_new(id: &Sha256Hash, ring: &Keyring) -> Result<(), Error>
    ensures { result ≡ id_new id.now ring.now }
{
    if ring.key(id).is_some() {
        Err(Error::InvalidTrustRoot)
    } else {
        Ok(())
    }
}

fn bare_key(alloc: Global, der: &DerPublicKey) -> Result<VerificationKey, sigstore_keys::Error>
    ensures ok { IfOk result (λ key. der_key_of RsaPkcs1Sha256 der.now ≡ Ok key) }
    ensures err { IfErr result (λ e. e ≢ crypto.NoMemory → der_key_of RsaPkcs1Sha256 der.now ≡ Err e) }
{
    match VerificationKey::from_der(alloc, der, SigningScheme::RsaPkcs1Sha256) {
        Ok(key) => Ok(key),
        Err(e) => Err(e),
    }
}

// The key of a log of certificates, which may be a bare RSA key.
fn ct_key(alloc: Global, der: &DerPublicKey) -> Result<VerificationKey, Error>
    ensures ok { IfOk result (λ key. log_key_of Certificates der.now ≡ Ok key) }
    ensures err { IfErr result (λ e. e ≢ Error.NoMemory → log_key_of Certificates der.now ≡ Err e) }
{
    match VerificationKey::from_spki(alloc, der) {
        Ok(key) => Ok(key),
        Err(sigstore_keys::Error::NoMemory) => Err(Error::NoMemory),
        Err(_) => Ok(bare_key(alloc, der)?),
    }
}

fn log_key(alloc: Global, kind: LogKind, der: &DerPublicKey) -> Result<VerificationKey, Error>
    ensures ok { IfOk result (λ key. log_key_of kind der.now ≡ Ok key) }
    ensures err { IfErr result (λ e. e ≢ Error.NoMemory → log_key_of kind der.now ≡ Err e) }
{
    match kind {
        LogKind::Entries => Ok(VerificationKey::from_spki(alloc, der)?),
        LogKind::Certificates => match ct_key(alloc, der) {
            Ok(key) => Ok(key),
            Err(e) => Err(e),
        },
    }
}

#[tactic(auto, unfolding(crate::specs::Trust::log_added))]
fn add_log(alloc: Global, kind: LogKind, log: &TrustedLog, ring: &mut Keyring) -> Result<(), Error>
    ensures ok { OnOk result (log_added kind log.now ring.old ≡ Ok ring.new) }
    ensures err { IfErr result (λ e. e ≢ Error.NoMemory → log_added kind log.now ring.old ≡ Err e) }
{
    check_window(log.valid_for)?;
    let id = log_id(&log.log_id.key_id)?;
    check_new(&id, ring)?;
    let key = log_key(alloc, kind, &log.raw_bytes)?;
    ring.add_key_with_validity(id, key, log.valid_for)?;
    Ok(())
}

fn logs(alloc: Global, kind: LogKind, list: &[TrustedLog]) -> Result<Keyring, Error>
    ensures ok { IfOk result (λ ring. logs_added kind list.now [] ≡ Ok ring) }
    ensures err { IfErr result (λ e. e ≢ Error.NoMemory → logs_added kind list.now [] ≡ Err e) }
{
    let mut ring = Keyring::new(alloc);
    'logs: for log in list {
        add_log(alloc, kind, log, &mut ring)?;
    }
    Ok(ring)
}

// A chain without a certificate would stand for an authority that nobody is.
fn check_chain(certificates: &[DerCertificate]) -> Result<(), Error>
    ensures { result ≡ nonempty certificates.now }
{
    if certificates.is_empty() {
        Err(Error::InvalidTrustRoot)
    } else {
        Ok(())
    }
}

fn anchor(
    alloc: Global,
    valid_for: Option<TimeRange>,
    certificate: &DerCertificate,
) -> Result<Anchor, Error>
    ensures ok { IfOk result (λ anchor. (may_anchor certificate.now ≡ Ok tt) × (anchor ≡ record { certificate = certificate.now; valid_for = valid_for })) }
    ensures err { IfErr result (λ e. e ≢ Error.NoMemory → (or_certificate (may_anchor certificate.now) ≡ Err e)) }
{
    match Anchor::from_certificate(alloc, certificate, valid_for) {
        Ok(anchor) => Ok(anchor),
        Err(PathError::NoMemory) => Err(Error::NoMemory),
        Err(_) => Err(Error::TrustedCertificate),
    }
}

#[tactic(auto, unfolding(crate::specs::Trust::certificate_added))]
fn add_certificate(
    alloc: Global,
    valid_for: Option<TimeRange>,
    certificate: &DerCertificate,
    anchors: &mut Sequence<Anchor>,
) -> Result<(), Error>
    ensures ok { OnOk result (certificate_added valid_for certificate.now anchors.old ≡ Ok anchors.new) }
    ensures err { IfErr result (λ e. e ≢ Error.NoMemory → certificate_added valid_for certificate.now anchors.old ≡ Err e) }
{
    let anchor = anchor(alloc, valid_for, certificate)?;
    anchors.push(anchor)?;
    Ok(())
}

fn add_certificates(
    alloc: Global,
    authority: &Authority,
    anchors: &mut Sequence<Anchor>,
) -> Result<(), Error>
    ensures ok { OnOk result (certificates_added authority.now.valid_for authority.now.certificates anchors.old ≡ Ok anchors.new) }
    ensures err { IfErr result (λ e. e ≢ Error.NoMemory → certificates_added authority.now.valid_for authority.now.certificates anchors.old ≡ Err e) }
{
    'certificates: for certificate in authority.certificates.as_slice() {
        add_certificate(alloc, authority.valid_for, certificate, anchors)?;
    }
    Ok(())
}

#[tactic(auto, unfolding(crate::specs::Trust::authority_added))]
fn add_authority(
    alloc: Global,
    authority: &Authority,
    anchors: &mut Sequence<Anchor>,
) -> Result<(), Error>
    ensures ok { OnOk result (authority_added authority.now anchors.old ≡ Ok anchors.new) }
    ensures err { IfErr result (λ e. e ≢ Error.NoMemory → authority_added authority.now anchors.old ≡ Err e) }
{
    check_window(authority.valid_for)?;
    check_chain(authority.certificates.as_slice())?;
    add_certificates(alloc, authority, anchors)?;
    Ok(())
}

fn authorities(alloc: Global, list: &[Authority]) -> Result<Sequence<Anchor>, Error>
    ensures ok { IfOk result (λ anchors. authorities_added list.now [] ≡ Ok anchors) }
    ensures err { IfErr result (λ e. e ≢ Error.NoMemory → authorities_added list.now [] ≡ Err e) }
{
    let mut anchors = Sequence::new(alloc);
    'authorities: for authority in list {
        add_authority(alloc, authority, &mut anchors)?;
    }
    Ok(anchors)
}

// Puts an authority that stamps times behind others.
fn add_stamping(
    alloc: Global,
    authority: &Authority,
    list: &mut Sequence<TsaAuthority>,
) -> Result<(), Error>
    ensures ok { OnOk result (list.new ≡ list.old ++ stamping_among (authority.now ∷ [])) }
    ensures err { IfErr result (λ e. e ≡ Error.NoMemory) }
{
    match authority.stamping(alloc) {
        Ok(stamping) => {
            list.push(stamping)?;
            Ok(())
        }
        Err(TypesError::NoMemory) => Err(Error::NoMemory),
        Err(_) => Ok(()),
    }
}

fn stamping(alloc: Global, list: &[Authority]) -> Result<Sequence<TsaAuthority>, Error>
    ensures ok { IfOk result (λ stamping. stamping ≡ stamping_among list.now) }
    ensures err { IfErr result (λ e. e ≡ Error.NoMemory) }
{
    let mut stamping = Sequence::new(alloc);
    'authorities: for authority in list {
        add_stamping(alloc, authority, &mut stamping)?;
    }
    Ok(stamping)
}

/// What is kept of a trust file. Errors, in order: for each log of entries and then of certificates
/// `InvalidTrustRoot` for a reversed window, `Types` for an id that isn't of 32 bytes, `InvalidTrustRoot` for
/// an id that an earlier one has, `Crypto` for its key; for each certificate authority and then time-stamp
/// authority `InvalidTrustRoot` for a reversed window and for an empty chain, `TrustedCertificate`.
#[tactic(auto, unfolding(crate::specs::Trust::material_of))]
pub(crate) fn material_in(alloc: Global, trust: &TrustedRoot) -> Result<Material, Error>
    ensures ok { IfOk result (λ material. material_of trust.now ≡ Ok material) }
    ensures err { IfErr result (λ e. e ≢ Error.NoMemory → material_of trust.now ≡ Err e) }
{
    let log_keys = logs(alloc, LogKind::Entries, trust.tlogs.as_slice())?;
    let ct_log_keys = logs(alloc, LogKind::Certificates, trust.ctlogs.as_slice())?;
    let anchors = authorities(alloc, trust.certificate_authorities.as_slice())?;
    authorities(alloc, trust.timestamp_authorities.as_slice())?;
    let authorities = stamping(alloc, trust.timestamp_authorities.as_slice())?;
    Ok(Material {
        logs: log_keys,
        ct_logs: ct_log_keys,
        anchors,
        authorities,
    })
}
