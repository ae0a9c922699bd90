// Why DER is refused.
ghost use Rattle.std.specs.Prelude.{◌≡◌};
ghost use Rattle.der_grammar.specs.Outcome.{number_of};
ghost use Rattle.der_grammar.specs.declared.error.DerError.TheVariants.{NoMemory};

use foundation::NoMemory;
use std::alloc::{AllocError, AllocFailed};
use std::{error, fmt};

/// Why bytes are no DER encoding of a value, or a value has none.
#[derive(Clone, Copy, Debug, PartialEq, Eq, Drop)]
pub enum DerError {
    /// Bytes of a tag, a length or a value are missing.
    Truncated,
    /// The length is indefinite, longer than four bytes or not in its shortest form
    /// (X.690, 8.1.3 and 10.1).
    Length,
    /// The tag has several bytes (X.690, 8.1.2.4), or isn't one of the type.
    Tag,
    /// The contents are outside the type's grammar.
    Value,
    /// Bytes are left behind the value.
    Trailing,
    /// Two members of a set are equal.
    SetDuplicate,
    /// A text or a list of arcs is no object identifier of at most 39 octets.
    Oid,
    /// A length is 2^28 or more.
    TooLong,
    /// An allocation was refused.
    NoMemory,
}

impl DerError {
    /// The number of this refusal.
    pub fn number(&self) -> u8
        ensures { result ≡ number_of self.now }
    {
        match self {
            DerError::Truncated => 1,
            DerError::Length => 2,
            DerError::Tag => 3,
            DerError::Value => 4,
            DerError::Trailing => 5,
            DerError::SetDuplicate => 6,
            DerError::Oid => 7,
            DerError::TooLong => 8,
            DerError::NoMemory => 9,
        }
    }
}

impl From<NoMemory> for DerError {
    ghost from_gives = { λ _ e. e ≡ NoMemory };

    fn from(_: NoMemory) -> DerError {
        DerError::NoMemory
    }
}

impl From<AllocError> for DerError {
    ghost from_gives = { λ _ e. e ≡ NoMemory };

    fn from(_: AllocError) -> DerError {
        DerError::NoMemory
    }
}

impl<T: Drop> From<AllocFailed<T>> for DerError {
    ghost from_gives = { λ _ e. e ≡ NoMemory };

    fn from(_: AllocFailed<T>) -> DerError {
        DerError::NoMemory
    }
}

impl fmt::Display for DerError {
    fn fmt<W: fmt::Write>(&self, f: &mut fmt::Formatter<W>) -> fmt::Result {
        f.write_str(match self {
            DerError::Truncated => "Truncated",
            DerError::Length => "Length",
            DerError::Tag => "Tag",
            DerError::Value => "Value",
            DerError::Trailing => "Trailing",
            DerError::SetDuplicate => "SetDuplicate",
            DerError::Oid => "Oid",
            DerError::TooLong => "TooLong",
            DerError::NoMemory => "NoMemory",
        })
    }
}

impl error::Error for DerError {}
