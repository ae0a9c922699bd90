// Why a signing certificate isn't accepted.
ghost use Rattle.std.specs.Prelude.{◌≡◌};
ghost use Rattle.sigstore_certificate.specs.Error.{refusal_of_path};
ghost use Rattle.sigstore_certificate.specs.declared.error.CertificateRefusal.TheVariants.{NoMemory};

use certificate_claims::{ClaimName, SubjectAltName};
use foundation::NoMemory;
use jiff::Timestamp;
use path_core::{LeafFault, PathError};
use sigstore_policy::{IdentityMatcher, TextMatcher};
use sigstore_types_parts::Text;
use std::{error, fmt};

/// Which rule a certificate's timestamps of logs of certificates break (RFC 6962, sections 3.2 and 3.3). Without a
/// good one a certificate that an authority gave to the wrong person may never have been seen by its owner.
#[derive(Clone, Copy, Debug, PartialEq, Eq, Drop)]
pub enum SctRule {
    /// The certificate has no list of them, or one that isn't read: no log promised to show it.
    List,
    /// There is none whose algorithm has a scheme: nothing could decide whether a log signed.
    Scheme,
    /// What a log signed can't be written, as it is too long: another certificate could be passed off for it.
    Precertificate,
    /// Fewer different trusted logs than asked for have a good one, by a key that was used at its time: whoever has an
    /// authority's key, or an old key of a log, could hide what was issued, and so could fewer logs together.
    TooFew { asked: u64, found: u64 },
}

/// Why a signing certificate isn't accepted.
#[derive(Debug, PartialEq, Drop)]
pub enum CertificateRefusal {
    /// It isn't read as a certificate of the third version, or has a critical extension that isn't known.
    Malformed,
    /// No path leads from it to a trusted authority at a verified time; or it may issue certificates, or isn't for
    /// the signing of code.
    ChainInvalid,
    /// There is no verified time: nothing else tells that it was valid when it signed.
    NoTime,
    /// No trusted authority was to be used at a verified time.
    NoValidAuthority {
        time: Timestamp,
    },
    /// Its window begins after a verified time.
    NotYetValid {
        time: Timestamp,
        not_before: Timestamp,
    },
    /// Its window ended before a verified time.
    Expired {
        time: Timestamp,
        not_after: Timestamp,
    },
    /// Its timestamps of logs of certificates aren't good, or not of enough logs.
    Sct(SctRule),
    /// No trusted log's key is of a sort that its timestamps' schemes ask for.
    InvalidTrustRoot,
    /// It doesn't name the identity that is asked for.
    IdentityMismatch {
        expected: IdentityMatcher,
        actual: Option<SubjectAltName>,
    },
    /// It doesn't name the issuer that is asked for.
    IssuerMismatch {
        expected: Text,
        actual: Option<Text>,
    },
    /// It doesn't tell what is asked for under this name.
    ClaimMismatch {
        name: ClaimName,
        expected: TextMatcher,
        actual: Option<Text>,
    },
    /// An allocation was refused.
    NoMemory,
}

impl From<NoMemory> for CertificateRefusal {
    ghost from_gives = { λ _ e. e ≡ NoMemory };

    fn from(_: NoMemory) -> CertificateRefusal {
        CertificateRefusal::NoMemory
    }
}

impl From<PathError> for CertificateRefusal {
    ghost from_gives = { λ fault e. e ≡ refusal_of_path fault };

    fn from(fault: PathError) -> CertificateRefusal {
        match fault {
            PathError::Leaf(LeafFault::Unreadable) => CertificateRefusal::Malformed,
            PathError::Leaf(LeafFault::Version) => CertificateRefusal::Malformed,
            PathError::Leaf(LeafFault::CriticalExtension) => CertificateRefusal::Malformed,
            PathError::NoMemory => CertificateRefusal::NoMemory,
            _ => CertificateRefusal::ChainInvalid,
        }
    }
}

impl fmt::Display for SctRule {
    fn fmt<W: fmt::Write>(&self, f: &mut fmt::Formatter<W>) -> fmt::Result {
        f.write_str(match self {
            SctRule::List => "List",
            SctRule::Scheme => "Scheme",
            SctRule::Precertificate => "Precertificate",
            SctRule::TooFew { .. } => "TooFew",
        })
    }
}

impl fmt::Display for CertificateRefusal {
    fn fmt<W: fmt::Write>(&self, f: &mut fmt::Formatter<W>) -> fmt::Result {
        f.write_str(match self {
            CertificateRefusal::Malformed => "Malformed",
            CertificateRefusal::ChainInvalid => "ChainInvalid",
            CertificateRefusal::NoTime => "NoTime",
            CertificateRefusal::NoValidAuthority { .. } => "NoValidAuthority",
            CertificateRefusal::NotYetValid { .. } => "NotYetValid",
            CertificateRefusal::Expired { .. } => "Expired",
            CertificateRefusal::Sct(_) => "Sct",
            CertificateRefusal::InvalidTrustRoot => "InvalidTrustRoot",
            CertificateRefusal::IdentityMismatch { .. } => "IdentityMismatch",
            CertificateRefusal::IssuerMismatch { .. } => "IssuerMismatch",
            CertificateRefusal::ClaimMismatch { .. } => "ClaimMismatch",
            CertificateRefusal::NoMemory => "NoMemory",
        })
    }
}

impl error::Error for CertificateRefusal {}
