//! A caller of `sigstore_certificate`.
use certificate_claims::parse_certificate_info;
use jiff::Timestamp;
use sigstore_certificate::{
    CertificateRefusal, IdentityMatcher, Presented, TrustedAuthorities, VerificationPolicy,
    judge_certificate,
};
use sigstore_keys::{CryptoProvider, Error};
use sigstore_types_parts::{DerCertificate, Text};
use std::alloc::Global;

/// What asks for the owner of a mail address on an issuer's word.
pub fn policy_for(alloc: Global, address: Text, issuer: Text) -> VerificationPolicy {
    VerificationPolicy::new(alloc, IdentityMatcher::Email(address), issuer)
}

/// Whether whom the policy asks for signed at a moment that is known, by the first of these certificates, which one of the
/// authorities gave over the others; and how many of the logs promised to show it, of which there is one at least.
pub fn check_signer<C: CryptoProvider>(
    alloc: Global,
    provider: &C,
    authorities: &TrustedAuthorities<'_>,
    policy: &VerificationPolicy,
    certificates: &[DerCertificate],
    signed_at: Timestamp,
) -> Result<u64, CertificateRefusal> {
    let [leaf, intermediates @ ..] = certificates else {
        return Err(CertificateRefusal::Malformed);
    };
    let info = match parse_certificate_info(alloc, leaf) {
        Ok(info) => info,
        Err(Error::NoMemory) => return Err(CertificateRefusal::NoMemory),
        Err(_) => return Err(CertificateRefusal::Malformed),
    };
    let presented = Presented {
        info: &info,
        leaf,
        intermediates,
    };
    judge_certificate(
        alloc,
        provider,
        authorities,
        policy,
        &presented,
        &[signed_at],
    )
}
