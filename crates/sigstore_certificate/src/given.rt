// What a judgement is given.
use certificate_claims::CertificateInfo;
use path_core::Anchor;
use sigstore_keys::Keyring;
use sigstore_types_parts::DerCertificate;

/// Whom a certificate has to come from: the authorities that issue, and the logs of certificates.
#[derive(Drop)]
pub struct TrustedAuthorities<'a> {
    pub anchors: &'a [Anchor],
    pub ct_logs: &'a Keyring,
}

/// What was read of a certificate, the certificate, and the intermediates beside it.
#[derive(Drop)]
pub struct Presented<'c> {
    pub info: &'c CertificateInfo,
    pub leaf: &'c DerCertificate,
    pub intermediates: &'c [DerCertificate],
}

/// What is trusted, and the certificate with those beside it, by reference.
#[derive(Drop)]
pub(crate) struct CertificateInputs<'a, C> {
    pub(crate) provider: &'a C,
    pub(crate) anchors: &'a [Anchor],
    pub(crate) ct_logs: &'a Keyring,
    pub(crate) info: &'a CertificateInfo,
    pub(crate) leaf: &'a DerCertificate,
    pub(crate) intermediates: &'a [DerCertificate],
}

/// What a timestamp is judged over: the trusted logs, and what a log signs of the certificate.
#[derive(Drop)]
pub(crate) struct SctInputs<'a, C> {
    pub(crate) provider: &'a C,
    pub(crate) ct_logs: &'a Keyring,
    pub(crate) key_hash: &'a [u8; 32],
    pub(crate) tbs: &'a [u8],
}
