// What an accepted bundle shows.
ghost use Rattle.std.specs.Prelude.{◌≡◌};
ghost use Rattle.std.specs.Option.{option_copied};
ghost use Rattle.sigstore_judgement.specs.Report.{identity_said, issuer_said};

use certificate_claims::{CertificateInfo, SubjectAltName};
use foundation::{Duplicate, NoMemory, Sequence};
use jiff::Timestamp;
use sigstore_types_parts::ArtifactDigest;
use std::alloc::Global;

/// What an accepted bundle shows, and which checks were made.
#[derive(PartialEq, Drop)]
pub struct VerificationResult {
    /// What the signing certificate says of its owner; none where a key signed.
    pub certificate: Option<CertificateInfo>,
    pub integrated_time: Option<Timestamp>,
    pub certificate_verified: bool,
    pub sct_verified: bool,
    pub tlog_verified: bool,
    pub identity_policy_checked: bool,
    pub verified_timestamps: Sequence<Timestamp>,
    pub sct_count: u64,
    pub log_count: u64,
}

impl VerificationResult {
    /// The earliest time at which a verified log says that it took an entry.
    pub fn integrated_time(&self) -> Option<Timestamp>
        ensures { result ≡ self.now.integrated_time }
    {
        self.integrated_time
    }

    /// What the signing certificate says of its owner; none where a key signed.
    pub fn certificate(&self) -> Option<&CertificateInfo>
        ensures { option_copied result ≡ self.now.certificate }
    {
        self.certificate.as_ref()
    }

    /// Whom the certificate names.
    pub fn identity(&self) -> Option<&SubjectAltName>
        ensures { option_copied result ≡ identity_said self.now.certificate }
    {
        match &self.certificate {
            Some(info) => info.identity.as_ref(),
            None => None,
        }
    }

    /// The issuer of that identity, by the certificate.
    pub fn issuer(&self) -> Option<&str>
        ensures { option_copied result ≡ issuer_said self.now.certificate }
    {
        match &self.certificate {
            Some(info) => match &info.issuer {
                Some(issuer) => Some(issuer.as_str()),
                None => None,
            },
            None => None,
        }
    }

    /// Whether the certificate's chain was verified.
    pub fn certificate_verified(&self) -> bool
        ensures { result ≡ self.now.certificate_verified }
    {
        self.certificate_verified
    }

    /// Whether the certificate's SCTs were verified.
    pub fn sct_verified(&self) -> bool
        ensures { result ≡ self.now.sct_verified }
    {
        self.sct_verified
    }

    /// Whether the log was verified.
    pub fn tlog_verified(&self) -> bool
        ensures { result ≡ self.now.tlog_verified }
    {
        self.tlog_verified
    }

    /// Whether an identity, an issuer or a claim was asked for.
    pub fn identity_policy_checked(&self) -> bool
        ensures { result ≡ self.now.identity_policy_checked }
    {
        self.identity_policy_checked
    }

    /// The times at which the signature was verified to exist.
    pub fn verified_timestamps(&self) -> &[Timestamp]
        ensures { result.now ≡ self.now.verified_timestamps }
    {
        self.verified_timestamps.as_slice()
    }

    /// How many different certificate logs promised the certificate; 0 where its SCTs weren't verified.
    pub fn sct_count(&self) -> u64
        ensures { result ≡ self.now.sct_count }
    {
        self.sct_count
    }

    /// In how many different logs the entries stand, where an entry counts for the log of the least id of those that
    /// signed its checkpoint; 0 where the log wasn't verified.
    pub fn log_count(&self) -> u64
        ensures { result ≡ self.now.log_count }
    {
        self.log_count
    }
}

impl Duplicate for VerificationResult {
    fn duplicate(&self, alloc: Global) -> Result<VerificationResult, NoMemory> {
        Ok(VerificationResult {
            certificate: self.certificate.duplicate(alloc)?,
            integrated_time: self.integrated_time,
            certificate_verified: self.certificate_verified,
            sct_verified: self.sct_verified,
            tlog_verified: self.tlog_verified,
            identity_policy_checked: self.identity_policy_checked,
            verified_timestamps: self.verified_timestamps.copied(alloc)?,
            sct_count: self.sct_count,
            log_count: self.log_count,
        })
    }
}

/// What an accepted bundle shows, with the digests of the artifact that were taken.
#[derive(Drop)]
pub struct JudgedBundle {
    pub result: VerificationResult,
    pub digests: Sequence<ArtifactDigest>,
}

impl Duplicate for JudgedBundle {
    fn duplicate(&self, alloc: Global) -> Result<JudgedBundle, NoMemory> {
        Ok(JudgedBundle {
            result: self.result.duplicate(alloc)?,
            digests: self.digests.duplicate(alloc)?,
        })
    }
}
