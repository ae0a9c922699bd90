// Why a text isn't read.
ghost use Rattle.std.specs.Prelude.{◌≡◌};
ghost use Rattle.sigstore_types_parts.specs.Error.{types_of, types_of_fault, number_of};
ghost use Rattle.sigstore_types_parts.specs.declared.error.TypesError.TheVariants.{NoMemory};

use crate::member::TypesMember;
use crate::misread::{Misread, Refusal};
use crate::parse::JsonFault;
use foundation::NoMemory;
use std::{error, fmt};

/// The rule of checkpoints (C2SP tlog-checkpoint) that a text breaks.
#[derive(Clone, Copy, Debug, PartialEq, Eq, Drop)]
pub enum CheckpointRule {
    /// The first line.
    Origin,
    /// The tree's size.
    Size,
    /// The tree's root hash.
    Root,
    /// A line behind these.
    Extension,
    /// A line of signatures.
    Signature,
}

/// Why a bundle, a trust file, a statement or a part of one isn't read.
#[derive(Clone, Copy, Debug, PartialEq, Eq, Drop)]
pub enum TypesError {
    /// The bytes are no JSON, or a value has another JSON type and isn't placed at a member yet.
    Json,
    /// A number isn't an integer from -2^63 to 2^64-1.
    Float,
    /// The member is missing where it is required, or of another type or value.
    Field { member: TypesMember },
    /// A text isn't base64 with padding (RFC 4648, section 4).
    Base64,
    /// A text isn't hexadecimal.
    Hex,
    /// Bytes have another length than their type's.
    Length { expected: u64, actual: u64 },
    /// The bundle's media type is none of those that are known.
    MediaType,
    /// An entry is of another kind or version.
    Kind,
    /// A checkpoint breaks a rule of its grammar.
    Checkpoint(CheckpointRule),
    /// The log is to be verified, and the bundle has no entry.
    NoEntry,
    /// An entry has no inclusion proof where one is needed.
    NoProof,
    /// An allocation was refused.
    NoMemory,
}

impl TypesError {
    /// The number of this refusal.
    pub fn number(&self) -> u8
        ensures { result ≡ number_of self.now }
    {
        match self {
            TypesError::Json => 1,
            TypesError::Float => 2,
            TypesError::Field { .. } => 3,
            TypesError::Base64 => 4,
            TypesError::Hex => 5,
            TypesError::Length { .. } => 6,
            TypesError::MediaType => 7,
            TypesError::Kind => 8,
            TypesError::Checkpoint(_) => 9,
            TypesError::NoEntry => 10,
            TypesError::NoProof => 11,
            TypesError::NoMemory => 12,
        }
    }
}

impl From<NoMemory> for TypesError {
    ghost from_gives = { λ _ e. e ≡ NoMemory };

    fn from(_: NoMemory) -> TypesError {
        TypesError::NoMemory
    }
}

impl Refusal for TypesError {
    ghost of = { types_of };

    fn of_misread(misread: Misread) -> TypesError {
        match misread {
            Misread::Shape => TypesError::Json,
            Misread::Base64 => TypesError::Base64,
            Misread::Hex => TypesError::Hex,
            Misread::Length { expected, actual } => TypesError::Length { expected, actual },
            Misread::NoMemory => TypesError::NoMemory,
        }
    }
}

impl From<JsonFault> for TypesError {
    ghost from_gives = { λ fault e. e ≡ types_of_fault fault };

    fn from(fault: JsonFault) -> TypesError {
        match fault {
            JsonFault::NotJson => TypesError::Json,
            JsonFault::Float => TypesError::Float,
            JsonFault::NoMemory => TypesError::NoMemory,
        }
    }
}

impl fmt::Display for TypesError {
    fn fmt<W: fmt::Write>(&self, f: &mut fmt::Formatter<W>) -> fmt::Result {
        f.write_str(match self {
            TypesError::Json => "Json",
            TypesError::Float => "Float",
            TypesError::Field { .. } => "Field",
            TypesError::Base64 => "Base64",
            TypesError::Hex => "Hex",
            TypesError::Length { .. } => "Length",
            TypesError::MediaType => "MediaType",
            TypesError::Kind => "Kind",
            TypesError::Checkpoint(_) => "Checkpoint",
            TypesError::NoEntry => "NoEntry",
            TypesError::NoProof => "NoProof",
            TypesError::NoMemory => "NoMemory",
        })
    }
}

impl error::Error for TypesError {}
