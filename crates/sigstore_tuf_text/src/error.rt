// Why a document is refused.
ghost use Rattle.std.specs.Prelude.{◌≡◌};
ghost use Rattle.sigstore_tuf_text.specs.Error.{error_of, error_of_fault, number_of, name_of};
ghost use Rattle.sigstore_tuf_text.specs.declared.error.Error.TheVariants.{NoMemory};

use foundation::NoMemory;
use sigstore_types_parts::{JsonFault, Misread, Refusal, Text};
use std::alloc::{AllocError, AllocFailed};
use std::{error, fmt};

/// The rule that a document breaks: its frame, its kind, the version of the specification, a
/// threshold of 0, a pattern, or what has to be in force before it.
#[derive(Clone, Copy, Debug, PartialEq, Eq, Drop)]
pub enum Rule {
    /// The top level is no object, or lacks `signed` or `signatures`.
    Frame,
    /// `_type` is another kind's.
    Kind,
    /// `spec_version` isn't version 1 of the specification.
    SpecVersion,
    /// The role's threshold is 0, which nobody's signature would meet as well.
    Threshold,
    /// A delegation's pattern is outside its grammar.
    Pattern,
    /// No timestamp is in force.
    NoTimestamp,
    /// No snapshot is in force.
    NoSnapshot,
    /// The document before it doesn't pin the one that is wanted.
    Unpinned,
    /// A delegated role has the name of a top-level one.
    TopLevel,
    /// The delegator's document has no delegations.
    NoDelegations,
}

/// How a file differs from its pin: in its length, a digest, without a supported digest, in its
/// version, by a pin that vanished, or by a listed length over the limit.
#[derive(Clone, Copy, Debug, PartialEq, Eq, Drop)]
pub enum Mismatch {
    /// The file has another length.
    Length,
    /// The file has another digest.
    Digest,
    /// Digests are pinned, and none of them is SHA-256 or SHA-512; or a target's name needs one, and none is
    /// listed.
    NoDigest,
    /// The document has another version.
    Version,
    /// A pin of the trusted snapshot isn't in the new one.
    Vanished,
    /// The listed length is over the client's limit.
    TooLong,
}

/// How a repository failed: the call failed, the file is absent, it is longer than the limit, or
/// as many next roots were adopted as the limit allows.
#[derive(Clone, Copy, Debug, PartialEq, Eq, Drop)]
pub enum TransportFault {
    /// The call failed.
    Failed,
    /// The file isn't there.
    Absent,
    /// The file is longer than its limit.
    TooLong { max: u64, seen: u64 },
    /// As many next roots were adopted as the limit allows, and no more is asked.
    Rotations { max: u32 },
}

/// Why a document, a key or a chain of documents is refused.
#[derive(Debug, Drop)]
pub enum Error {
    /// The bytes are no JSON, or a member is missing or of another type.
    Json,
    /// The document breaks a rule of documents.
    Malformed(Rule),
    /// A number is no integer from -2^63 to 2^64-1, so the document has no canonical text.
    NonIntegerNumber,
    /// A declared key's text holds no key.
    UnusableKey {
        key_id: Text,
    },
    /// A declared key's scheme is none of the nine.
    UnsupportedScheme {
        keytype: Text,
        scheme: Text,
    },
    /// The root doesn't name the role.
    UnknownRole {
        name: Text,
    },
    /// An id of the role has two nonempty signatures in one document.
    DuplicateSignature {
        role: Text,
        key_id: Text,
    },
    /// Fewer different ids of the role signed well than its threshold asks for.
    ThresholdNotMet {
        role: Text,
        found: u64,
        threshold: u64,
    },
    /// A newer document has a lower number than the trusted one.
    Rollback {
        role: Text,
        trusted: u64,
        new: u64,
    },
    /// A newer timestamp has the trusted one's number.
    EqualVersion {
        role: Text,
        version: u64,
    },
    /// A next root hasn't the next number.
    BadRootVersion {
        trusted: u64,
        new: u64,
    },
    /// The document expires before the moment.
    Expired {
        role: Text,
        expires: jiff::Timestamp,
    },
    /// A file or document isn't the one that is pinned.
    IntegrityMismatch(Mismatch),
    /// A declared key was refused by the maker of keys.
    Crypto,
    /// A search before the documents it needs are in force.
    NotRefreshed,
    /// No document of the search lists the path.
    TargetNotFound {
        path: Text,
    },
    /// The repository didn't give a file.
    Transport(TransportFault),
    /// An allocation was refused.
    NoMemory,
}

impl Error {
    /// The number of this refusal.
    pub fn number(&self) -> u8
        ensures { result ≡ number_of self.now }
    {
        match self {
            Error::Json => 1,
            Error::Malformed(_) => 2,
            Error::NonIntegerNumber => 3,
            Error::UnusableKey { .. } => 4,
            Error::UnsupportedScheme { .. } => 5,
            Error::UnknownRole { .. } => 6,
            Error::DuplicateSignature { .. } => 7,
            Error::ThresholdNotMet { .. } => 8,
            Error::Rollback { .. } => 9,
            Error::EqualVersion { .. } => 10,
            Error::BadRootVersion { .. } => 11,
            Error::Expired { .. } => 12,
            Error::IntegrityMismatch(_) => 13,
            Error::Crypto => 14,
            Error::NotRefreshed => 15,
            Error::TargetNotFound { .. } => 16,
            Error::Transport(_) => 18,
            Error::NoMemory => 19,
        }
    }

    /// The name of this refusal, which is its Display text too.
    pub fn name(&self) -> &'static str
        ensures { result.now ≡ name_of self.now }
    {
        match self {
            Error::Json => "Json",
            Error::Malformed(_) => "Malformed",
            Error::NonIntegerNumber => "NonIntegerNumber",
            Error::UnusableKey { .. } => "UnusableKey",
            Error::UnsupportedScheme { .. } => "UnsupportedScheme",
            Error::UnknownRole { .. } => "UnknownRole",
            Error::DuplicateSignature { .. } => "DuplicateSignature",
            Error::ThresholdNotMet { .. } => "ThresholdNotMet",
            Error::Rollback { .. } => "Rollback",
            Error::EqualVersion { .. } => "EqualVersion",
            Error::BadRootVersion { .. } => "BadRootVersion",
            Error::Expired { .. } => "Expired",
            Error::IntegrityMismatch(_) => "IntegrityMismatch",
            Error::Crypto => "Crypto",
            Error::NotRefreshed => "NotRefreshed",
            Error::TargetNotFound { .. } => "TargetNotFound",
            Error::Transport(_) => "Transport",
            Error::NoMemory => "NoMemory",
        }
    }
}

impl From<NoMemory> for Error {
    ghost from_gives = { λ _ e. e ≡ NoMemory };

    fn from(_: NoMemory) -> Error {
        Error::NoMemory
    }
}

impl From<AllocError> for Error {
    ghost from_gives = { λ _ e. e ≡ NoMemory };

    fn from(_: AllocError) -> Error {
        Error::NoMemory
    }
}

impl<T: Drop> From<AllocFailed<T>> for Error {
    ghost from_gives = { λ _ e. e ≡ NoMemory };

    fn from(_: AllocFailed<T>) -> Error {
        Error::NoMemory
    }
}

impl Refusal for Error {
    ghost of = { error_of };

    fn of_misread(misread: Misread) -> Error {
        match misread {
            Misread::NoMemory => Error::NoMemory,
            _ => Error::Json,
        }
    }
}

impl From<JsonFault> for Error {
    ghost from_gives = { λ fault e. e ≡ error_of_fault fault };

    fn from(fault: JsonFault) -> Error {
        match fault {
            JsonFault::NotJson => Error::Json,
            JsonFault::Float => Error::NonIntegerNumber,
            JsonFault::NoMemory => Error::NoMemory,
        }
    }
}

impl fmt::Display for Error {
    fn fmt<W: fmt::Write>(&self, f: &mut fmt::Formatter<W>) -> fmt::Result {
        f.write_str(self.name())
    }
}

impl error::Error for Error {}
