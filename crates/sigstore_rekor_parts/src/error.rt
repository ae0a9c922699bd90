// Why a log body or a log's answer isn't accepted.
ghost use Rattle.std.specs.Prelude.{◌≡◌};
ghost use Rattle.sigstore_rekor_parts.specs.Error.{rekor_of, number_of};
ghost use Rattle.sigstore_rekor_parts.specs.declared.error.Error.TheVariants.{NoMemory};

use crate::member::RekorMember;
use foundation::NoMemory;
use sigstore_types_parts::{Misread, Refusal, TypesError};
use std::{error, fmt};

/// What of a log body or of a log's answer isn't as it has to be.
#[derive(Clone, Copy, Debug, PartialEq, Eq, Drop)]
pub enum ResponseRule {
    /// The bytes are no JSON (RFC 8259) in UTF-8.
    NotJson,
    /// A number isn't an integer from -2^63 to 2^64-1.
    Float,
    /// A value has another JSON type and isn't placed at a member.
    Shape,
    /// The member is missing where it is required, or of another type.
    Member { member: RekorMember },
    /// A text isn't base64 with padding (RFC 4648, section 4).
    Base64,
    /// A text isn't hexadecimal.
    Hex,
    /// Bytes have another length than their type's.
    Length,
    /// A digest algorithm isn't known, or isn't the one that was asked for.
    Algorithm,
    /// The details of a key aren't known, or aren't those that were sent.
    KeyDetails,
    /// The kind and version are none that are known, or not those that were asked for.
    Kind,
    /// An armoured text holds no key or certificate.
    Armor,
    /// The answer has another number of entries than one.
    Entries,
    /// A number is outside its range.
    Number,
    /// A text is no checkpoint.
    Checkpoint,
    /// An entry isn't read.
    Entry { error: TypesError },
    /// The logged digest isn't the one that was sent.
    Digest,
    /// The logged signature isn't the one that was sent.
    Signature,
    /// The logged certificate or key isn't the one that was sent.
    Verifier,
    /// The entry has an integrated time.
    IntegratedTime,
    /// The entry has a promise.
    InclusionPromise,
    /// The entry has no inclusion proof.
    InclusionProof,
    /// The entry's inclusion proof has no checkpoint.
    EmptyCheckpoint,
}

/// Why a log body or a log's answer isn't accepted.
#[derive(Clone, Copy, Debug, PartialEq, Eq, Drop)]
pub enum Error {
    /// The answer's status isn't one of 200 to 299.
    Status { status: u16 },
    /// The answer is no JSON.
    Json,
    /// The answer, or a log body, is outside its grammar, or isn't what was asked for.
    InvalidResponse { rule: ResponseRule },
    /// An allocation was refused.
    NoMemory,
}

impl Error {
    /// The number of this refusal.
    pub fn number(&self) -> u8
        ensures { result ≡ number_of self.now }
    {
        match self {
            Error::Status { .. } => 1,
            Error::Json => 2,
            Error::InvalidResponse { .. } => 3,
            Error::NoMemory => 4,
        }
    }
}

impl From<NoMemory> for Error {
    ghost from_gives = { λ _ e. e ≡ NoMemory };

    fn from(_: NoMemory) -> Error {
        Error::NoMemory
    }
}

impl Refusal for Error {
    ghost of = { rekor_of };

    fn of_misread(misread: Misread) -> Error {
        match misread {
            Misread::Shape => Error::InvalidResponse {
                rule: ResponseRule::Shape,
            },
            Misread::Base64 => Error::InvalidResponse {
                rule: ResponseRule::Base64,
            },
            Misread::Hex => Error::InvalidResponse {
                rule: ResponseRule::Hex,
            },
            Misread::Length { .. } => Error::InvalidResponse {
                rule: ResponseRule::Length,
            },
            Misread::NoMemory => Error::NoMemory,
        }
    }
}

impl fmt::Display for Error {
    fn fmt<W: fmt::Write>(&self, f: &mut fmt::Formatter<W>) -> fmt::Result {
        f.write_str(match self {
            Error::Status { .. } => "Status",
            Error::Json => "Json",
            Error::InvalidResponse { .. } => "InvalidResponse",
            Error::NoMemory => "NoMemory",
        })
    }
}

impl error::Error for Error {}
