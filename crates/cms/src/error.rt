// Why signed data isn't built.
ghost use Rattle.std.specs.Prelude.{◌≡◌};
ghost use Rattle.cms.specs.Error.{number_of, error_of_der};
ghost use Rattle.cms.specs.declared.error.Error.TheVariants.{NoMemory};

use der_core::DerError;
use foundation::NoMemory;
use std::{error, fmt};

/// What is wrong in what a signer is to sign.
#[derive(Clone, Copy, Debug, PartialEq, Eq, Drop)]
pub enum BuilderFault {
    /// Both a digest that was made elsewhere and content are there.
    ContentTwice,
    /// Content is there, and there is no hasher for the digest algorithm.
    NoHasher,
    /// The content-type attribute holds another type than the content's.
    ContentType,
}

/// Why signed data isn't built.
#[derive(Clone, Copy, Debug, PartialEq, Eq, Drop)]
pub enum Error {
    /// A set has equal members, or something can't be encoded.
    Asn1(DerError),
    /// The signer gives no signature.
    Signature,
    /// Something is wrong in what a signer is to sign.
    Builder(BuilderFault),
    /// An allocation was refused.
    NoMemory,
}

impl Error {
    /// The number of this refusal.
    pub fn number(&self) -> u8
        ensures { result ≡ number_of self.now }
    {
        match self {
            Error::Asn1(_) => 1,
            Error::Signature => 2,
            Error::Builder(_) => 3,
            Error::NoMemory => 4,
        }
    }
}

impl From<NoMemory> for Error {
    ghost from_gives = { λ _ e. e ≡ NoMemory };

    fn from(_: NoMemory) -> Error {
        Error::NoMemory
    }
}

impl From<DerError> for Error {
    ghost from_gives = { λ refusal e. e ≡ error_of_der refusal };

    fn from(refusal: DerError) -> Error {
        match refusal {
            DerError::NoMemory => Error::NoMemory,
            _ => Error::Asn1(refusal),
        }
    }
}

impl fmt::Display for BuilderFault {
    fn fmt<W: fmt::Write>(&self, f: &mut fmt::Formatter<W>) -> fmt::Result {
        f.write_str(match self {
            BuilderFault::ContentTwice => "ContentTwice",
            BuilderFault::NoHasher => "NoHasher",
            BuilderFault::ContentType => "ContentType",
        })
    }
}

impl fmt::Display for Error {
    fn fmt<W: fmt::Write>(&self, f: &mut fmt::Formatter<W>) -> fmt::Result {
        f.write_str(match self {
            Error::Asn1(_) => "Asn1",
            Error::Signature => "Signature",
            Error::Builder(_) => "Builder",
            Error::NoMemory => "NoMemory",
        })
    }
}

impl error::Error for BuilderFault {}

impl error::Error for Error {}
