// Why a certificate, a key or a list of timestamps isn't read.
ghost use Rattle.std.specs.Prelude.{◌≡◌};
ghost use Rattle.spki_core.specs.Reading.{number_of, error_of_der};
ghost use Rattle.spki_core.specs.declared.error.X509Error.TheVariants.{NoMemory};

use der_core::DerError;
use foundation::NoMemory;
use std::alloc::{AllocError, AllocFailed};
use std::{error, fmt};

/// Why bytes are no certificate, no key or no list of timestamps, or bytes can't be made of one.
#[derive(Clone, Copy, Debug, PartialEq, Eq, Drop)]
pub enum X509Error {
    /// A part is outside its DER grammar.
    Der(DerError),
    /// A version is written that is neither 2 nor 3 (RFC 5280, 4.1.2.1).
    Version,
    /// The algorithm in the signed part differs from the one behind it (RFC 5280, 4.1.1.2).
    Algorithms,
    /// A date is neither a UTCTime nor a GeneralizedTime (RFC 5280, 4.1.2.5).
    Time,
    /// Two extensions have one identifier (RFC 5280, 4.2).
    Extension,
    /// Bytes are no list of timestamps, or a signed part is too long for one (RFC 6962, 3.2 and 3.3).
    SctList,
    /// An allocation was refused.
    NoMemory,
}

impl X509Error {
    /// The number of this refusal.
    pub fn number(&self) -> u8
        ensures { result ≡ number_of self.now }
    {
        match self {
            X509Error::Der(_) => 1,
            X509Error::Version => 2,
            X509Error::Algorithms => 3,
            X509Error::Time => 4,
            X509Error::Extension => 5,
            X509Error::SctList => 6,
            X509Error::NoMemory => 7,
        }
    }
}

impl From<DerError> for X509Error {
    ghost from_gives = { λ refusal e. e ≡ error_of_der refusal };

    fn from(refusal: DerError) -> X509Error {
        match refusal {
            DerError::NoMemory => X509Error::NoMemory,
            _ => X509Error::Der(refusal),
        }
    }
}

impl From<NoMemory> for X509Error {
    ghost from_gives = { λ _ e. e ≡ NoMemory };

    fn from(_: NoMemory) -> X509Error {
        X509Error::NoMemory
    }
}

impl From<AllocError> for X509Error {
    ghost from_gives = { λ _ e. e ≡ NoMemory };

    fn from(_: AllocError) -> X509Error {
        X509Error::NoMemory
    }
}

impl<T: Drop> From<AllocFailed<T>> for X509Error {
    ghost from_gives = { λ _ e. e ≡ NoMemory };

    fn from(_: AllocFailed<T>) -> X509Error {
        X509Error::NoMemory
    }
}

impl fmt::Display for X509Error {
    fn fmt<W: fmt::Write>(&self, f: &mut fmt::Formatter<W>) -> fmt::Result {
        f.write_str(match self {
            X509Error::Der(_) => "Der",
            X509Error::Version => "Version",
            X509Error::Algorithms => "Algorithms",
            X509Error::Time => "Time",
            X509Error::Extension => "Extension",
            X509Error::SctList => "SctList",
            X509Error::NoMemory => "NoMemory",
        })
    }
}

impl error::Error for X509Error {}
