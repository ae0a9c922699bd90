// Why a bundle isn't accepted.
ghost use Rattle.std.specs.Prelude.{◌≡◌};
ghost use Rattle.sigstore_judgement.specs.Error.{number_of, name_of, certificate_number_of, log_number_of, timestamp_number_of, error_of_crypto, error_of_certificate, lowered};
ghost use Rattle.sigstore_judgement.specs.declared.error.Error.TheVariants.{NoMemory};

use crate::names::refusal_name;
use certificate_claims::{ClaimName, SubjectAltName};
use foundation::NoMemory;
use jiff::Timestamp;
use sigstore_certificate::{CertificateRefusal, IdentityMatcher, SctRule};
use sigstore_keys::ReadError;
use sigstore_policy::TextMatcher;
use sigstore_types_parts::{Sha256Hash, Text, TypesError};
use std::{error, fmt};

/// Why a signing certificate isn't accepted.
#[derive(Debug, PartialEq, Drop)]
pub enum CertificateError {
    /// The certificate isn't read (RFC 5280, section 4.1), its key is of no known sort, its names aren't read, it isn't
    /// of the third version, or it has a critical extension that isn't known.
    Malformed,
    /// No path leads from the certificate to an authority of the trust file (RFC 5280, section 6).
    ChainInvalid,
    /// No authority of the trust file was valid at the time.
    NoValidAuthority {
        time: Timestamp,
    },
    /// The certificate's validity begins after the time.
    NotYetValid {
        time: Timestamp,
        not_before: Timestamp,
    },
    /// The certificate's validity ended before the time.
    Expired {
        time: Timestamp,
        not_after: Timestamp,
    },
    /// The certificate has no timestamps of certificate logs, or too few that are good (RFC 6962, section 3.2).
    Sct(SctRule),
}

/// Why an entry of a transparency log isn't accepted.
#[derive(Debug, PartialEq, Drop)]
pub enum TransparencyLogError {
    /// No log of this id that the trust file has has started.
    UnknownLog { log_id: Sha256Hash },
    /// The entry isn't shown to be in the log's tree (RFC 6962, section 2.1.1).
    InclusionProof,
    /// The entry's proof has no checkpoint of its tree that a trusted log signed (C2SP tlog-checkpoint).
    Checkpoint,
    /// The log's promise to include the entry isn't the log's, or is of another entry.
    InclusionPromise,
    /// The entry has another verifier, signature, payload or payload type than the bundle, or another number of
    /// signatures than one.
    EntryMismatch,
    /// The time that the log promised is after now; or an entry's time isn't one at which the signing certificate was
    /// valid.
    IntegratedTime,
    /// The id of the log that promised isn't a SHA-256 value; or the entry's body isn't read, or a hash, a verifier or
    /// a signature in it.
    MalformedEntry,
}

/// Why a time-stamp token isn't accepted.
#[derive(Debug, PartialEq, Drop)]
pub enum TimestampError {
    /// The token isn't read, or isn't signed by an authority over the bundle's signature (RFC 3161).
    Invalid,
    /// The token's time is outside its authority's validity.
    OutsideAuthorityValidity { time: Timestamp },
    /// A verified time is needed, and the bundle gives none.
    NoVerifiedTimestamp,
}

/// Why a bundle isn't accepted.
#[derive(Debug, PartialEq, Drop)]
pub enum Error {
    /// The certificate is for another identity than the policy's.
    IdentityMismatch {
        expected: IdentityMatcher,
        actual: Option<SubjectAltName>,
    },
    /// The certificate names another issuer of identities than the policy's.
    IssuerMismatch {
        expected: Text,
        actual: Option<Text>,
    },
    /// The signature isn't good over the artifact's digest, or over the envelope, under the key.
    SignatureInvalid,
    /// The bundle tells another digest of its message than the artifact's, no subject of its statement is the
    /// artifact, or an entry is of another digest.
    ArtifactMismatch,
    /// The scheme signs the message itself, and only the artifact's digest is there.
    UnsupportedArtifact,
    /// The signing certificate isn't accepted.
    Certificate(CertificateError),
    /// An entry of a transparency log isn't accepted.
    TransparencyLog(TransparencyLogError),
    /// A time-stamp token isn't accepted.
    Timestamp(TimestampError),
    /// The bundle's bytes have no reading by its grammar; or the policy is for certificates and it has none; or its
    /// envelope holds no statement of a subject.
    InvalidBundle,
    /// The policy is for a key and the bundle has a certificate; or the envelope's payload is of another type, or its
    /// subjects tell no digest that can be had; or an entry is of a kind that isn't compared with the content, or of
    /// another digest's algorithm.
    UnsupportedBundle,
    /// The trust file was read, and can't be used; or none of its certificate logs has a key of a scheme of the
    /// certificate's timestamps.
    InvalidTrustRoot,
    /// A value of the trust file or the bundle is outside its type's grammar.
    Types,
    /// The policy's key isn't read, or it has no scheme with the message digest's algorithm.
    Crypto,
    /// The bundle lacks what its policy needs: an entry of a log, or an entry's inclusion proof.
    Bundle,
    /// The trust file's bytes have no reading by its grammar.
    TrustRoot,
    /// A certificate of the trust file has no reading.
    TrustedCertificate,
    /// A read of the artifact failed, or it is longer than the limit.
    ArtifactRead(ReadError),
    /// The entries stand in fewer different logs than the policy asks for: whoever runs these few could show one tree to
    /// the owner of a key and another to everyone else.
    TooFewLogs {
        asked: u64,
        found: u64,
    },
    /// The certificate doesn't claim what the policy asks for under this name: another workflow, or a run of another
    /// repository's, signed.
    ClaimMismatch {
        name: ClaimName,
        expected: TextMatcher,
        actual: Option<Text>,
    },
    /// The content is no envelope, or its statement has another type of predicate than the policy's: something else was
    /// said of the artifact.
    PredicateMismatch {
        expected: TextMatcher,
        actual: Option<Text>,
    },
    /// Fewer different authorities and logs tell when it was signed than the policy asks for: these few could agree on
    /// a time that isn't so.
    TooFewTimes {
        asked: u64,
        found: u64,
    },
    /// The tokens are of fewer different time-stamp authorities than the policy asks for.
    TooFewTokens {
        asked: u64,
        found: u64,
    },
    /// A verified time is outside the time for which the policy trusts the signer.
    TimeOutside {
        time: Timestamp,
    },
    /// An allocation was refused.
    NoMemory,
}

impl CertificateError {
    fn number(&self) -> u8
        ensures { result ≡ certificate_number_of self.now }
    {
        match self {
            CertificateError::Malformed => 6,
            CertificateError::ChainInvalid => 7,
            CertificateError::NoValidAuthority { .. } => 8,
            CertificateError::NotYetValid { .. } => 9,
            CertificateError::Expired { .. } => 10,
            CertificateError::Sct(_) => 11,
        }
    }
}

impl TransparencyLogError {
    fn number(&self) -> u8
        ensures { result ≡ log_number_of self.now }
    {
        match self {
            TransparencyLogError::UnknownLog { .. } => 12,
            TransparencyLogError::InclusionProof => 13,
            TransparencyLogError::Checkpoint => 14,
            TransparencyLogError::InclusionPromise => 15,
            TransparencyLogError::EntryMismatch => 16,
            TransparencyLogError::IntegratedTime => 17,
            TransparencyLogError::MalformedEntry => 18,
        }
    }
}

impl TimestampError {
    fn number(&self) -> u8
        ensures { result ≡ timestamp_number_of self.now }
    {
        match self {
            TimestampError::Invalid => 19,
            TimestampError::OutsideAuthorityValidity { .. } => 20,
            TimestampError::NoVerifiedTimestamp => 21,
        }
    }
}

impl Error {
    /// The number of this refusal.
    pub fn number(&self) -> u8
        ensures { result ≡ number_of self.now }
    {
        match self {
            Error::IdentityMismatch { .. } => 1,
            Error::IssuerMismatch { .. } => 2,
            Error::SignatureInvalid => 3,
            Error::ArtifactMismatch => 4,
            Error::UnsupportedArtifact => 5,
            Error::Certificate(fault) => fault.number(),
            Error::TransparencyLog(fault) => fault.number(),
            Error::Timestamp(fault) => fault.number(),
            Error::InvalidBundle => 22,
            Error::UnsupportedBundle => 23,
            Error::InvalidTrustRoot => 24,
            Error::Types => 25,
            Error::Crypto => 26,
            Error::Bundle => 27,
            Error::TrustRoot => 28,
            Error::TrustedCertificate => 29,
            Error::ArtifactRead(_) => 30,
            Error::NoMemory => 31,
            Error::TooFewLogs { .. } => 32,
            Error::ClaimMismatch { .. } => 33,
            Error::PredicateMismatch { .. } => 34,
            Error::TooFewTimes { .. } => 35,
            Error::TooFewTokens { .. } => 36,
            Error::TimeOutside { .. } => 37,
        }
    }

    /// The name of this refusal as it is printed.
    pub fn name(&self) -> &'static str
        ensures { result.now ≡ name_of self.now }
    {
        refusal_name(self.number())
    }
}

impl From<NoMemory> for Error {
    ghost from_gives = { λ _ e. e ≡ NoMemory };

    fn from(_: NoMemory) -> Error {
        Error::NoMemory
    }
}

impl From<sigstore_keys::Error> for Error {
    ghost from_gives = { λ fault e. e ≡ error_of_crypto fault };

    fn from(fault: sigstore_keys::Error) -> Error {
        match fault {
            sigstore_keys::Error::NoMemory => Error::NoMemory,
            _ => Error::Crypto,
        }
    }
}

// A refusal of the crates of values: want of memory stays what it is, and every other is this one.
pub(crate) fn lowered(fault: TypesError, otherwise: Error) -> Error
    ensures { result ≡ lowered otherwise fault }
{
    match fault {
        TypesError::NoMemory => {
            drop(otherwise);
            Error::NoMemory
        }
        _ => otherwise,
    }
}

// What a refusal of the certificate's judgement is of its bundle.
pub(crate) fn uncertified(fault: CertificateRefusal) -> Error
    ensures { result ≡ error_of_certificate fault }
{
    match fault {
        CertificateRefusal::Malformed => Error::Certificate(CertificateError::Malformed),
        CertificateRefusal::ChainInvalid => Error::Certificate(CertificateError::ChainInvalid),
        CertificateRefusal::NoTime => Error::Timestamp(TimestampError::NoVerifiedTimestamp),
        CertificateRefusal::NoValidAuthority { time } => {
            Error::Certificate(CertificateError::NoValidAuthority { time })
        }
        CertificateRefusal::NotYetValid { time, not_before } => {
            Error::Certificate(CertificateError::NotYetValid { time, not_before })
        }
        CertificateRefusal::Expired { time, not_after } => {
            Error::Certificate(CertificateError::Expired { time, not_after })
        }
        CertificateRefusal::Sct(rule) => Error::Certificate(CertificateError::Sct(rule)),
        CertificateRefusal::InvalidTrustRoot => Error::InvalidTrustRoot,
        CertificateRefusal::IdentityMismatch { expected, actual } => {
            Error::IdentityMismatch { expected, actual }
        }
        CertificateRefusal::IssuerMismatch { expected, actual } => Error::IssuerMismatch {
            expected,
            actual,
        },
        CertificateRefusal::ClaimMismatch {
            name,
            expected,
            actual,
        } => Error::ClaimMismatch {
            name,
            expected,
            actual,
        },
        CertificateRefusal::NoMemory => Error::NoMemory,
    }
}

impl fmt::Display for CertificateError {
    fn fmt<W: fmt::Write>(&self, f: &mut fmt::Formatter<W>) -> fmt::Result {
        f.write_str(match self {
            CertificateError::Malformed => "Malformed",
            CertificateError::ChainInvalid => "ChainInvalid",
            CertificateError::NoValidAuthority { .. } => "NoValidAuthority",
            CertificateError::NotYetValid { .. } => "NotYetValid",
            CertificateError::Expired { .. } => "Expired",
            CertificateError::Sct(_) => "Sct",
        })
    }
}

impl error::Error for CertificateError {}

impl fmt::Display for TransparencyLogError {
    fn fmt<W: fmt::Write>(&self, f: &mut fmt::Formatter<W>) -> fmt::Result {
        f.write_str(match self {
            TransparencyLogError::UnknownLog { .. } => "UnknownLog",
            TransparencyLogError::InclusionProof => "InclusionProof",
            TransparencyLogError::Checkpoint => "Checkpoint",
            TransparencyLogError::InclusionPromise => "InclusionPromise",
            TransparencyLogError::EntryMismatch => "EntryMismatch",
            TransparencyLogError::IntegratedTime => "IntegratedTime",
            TransparencyLogError::MalformedEntry => "MalformedEntry",
        })
    }
}

impl error::Error for TransparencyLogError {}

impl fmt::Display for TimestampError {
    fn fmt<W: fmt::Write>(&self, f: &mut fmt::Formatter<W>) -> fmt::Result {
        f.write_str(match self {
            TimestampError::Invalid => "Invalid",
            TimestampError::OutsideAuthorityValidity { .. } => "OutsideAuthorityValidity",
            TimestampError::NoVerifiedTimestamp => "NoVerifiedTimestamp",
        })
    }
}

impl error::Error for TimestampError {}

impl fmt::Display for Error {
    fn fmt<W: fmt::Write>(&self, f: &mut fmt::Formatter<W>) -> fmt::Result {
        f.write_str(match self {
            Error::IdentityMismatch { .. } => "IdentityMismatch",
            Error::IssuerMismatch { .. } => "IssuerMismatch",
            Error::SignatureInvalid => "SignatureInvalid",
            Error::ArtifactMismatch => "ArtifactMismatch",
            Error::UnsupportedArtifact => "UnsupportedArtifact",
            Error::Certificate(_) => "Certificate",
            Error::TransparencyLog(_) => "TransparencyLog",
            Error::Timestamp(_) => "Timestamp",
            Error::InvalidBundle => "InvalidBundle",
            Error::UnsupportedBundle => "UnsupportedBundle",
            Error::InvalidTrustRoot => "InvalidTrustRoot",
            Error::Types => "Types",
            Error::Crypto => "Crypto",
            Error::Bundle => "Bundle",
            Error::TrustRoot => "TrustRoot",
            Error::TrustedCertificate => "TrustedCertificate",
            Error::ArtifactRead(_) => "ArtifactRead",
            Error::NoMemory => "NoMemory",
            Error::TooFewLogs { .. } => "TooFewLogs",
            Error::ClaimMismatch { .. } => "ClaimMismatch",
            Error::PredicateMismatch { .. } => "PredicateMismatch",
            Error::TooFewTimes { .. } => "TooFewTimes",
            Error::TooFewTokens { .. } => "TooFewTokens",
            Error::TimeOutside { .. } => "TimeOutside",
        })
    }
}

impl error::Error for Error {}
