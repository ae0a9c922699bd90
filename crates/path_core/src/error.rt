// Why no path or no anchor is given.
ghost use Rattle.std.specs.Prelude.{◌≡◌};
ghost use Rattle.path_core.specs.Error.{number_of};
ghost use Rattle.path_core.specs.declared.error.PathError.TheVariants.{NoMemory};

use foundation::NoMemory;
use std::{error, fmt};

/// The first property of a leaf that a certificate lacks, in the order in which they are asked.
#[derive(Clone, Copy, Debug, PartialEq, Eq, Drop)]
pub enum LeafFault {
    /// It is no certificate (RFC 5280, 4.1).
    Unreadable,
    /// It isn't of the third version (4.1.2.1).
    Version,
    /// It has a critical extension that isn't known (4.2).
    CriticalExtension,
    /// It may issue certificates, or its basic constraints (4.2.1.9) aren't read.
    IsCa,
    /// Its extended key usage (4.2.1.12) is left out, isn't read, or is without the purpose.
    Purpose,
}

/// Why no path or no anchor is given.
#[derive(Clone, Copy, Debug, PartialEq, Eq, Drop)]
pub enum PathError {
    /// The leaf lacks a property of its own.
    Leaf(LeafFault),
    /// No path leads from the leaf to an anchor.
    NoPath,
    /// An anchor's certificate has name constraints (RFC 5280, 4.2.1.10).
    NameConstraints,
    /// An anchor's bytes are no certificate.
    Certificate,
    /// An allocation was refused.
    NoMemory,
}

impl PathError {
    /// The number of this refusal.
    pub fn number(&self) -> u8
        ensures { result ≡ number_of self.now }
    {
        match self {
            PathError::Leaf(_) => 1,
            PathError::NoPath => 2,
            PathError::NameConstraints => 3,
            PathError::Certificate => 4,
            PathError::NoMemory => 5,
        }
    }
}

impl From<NoMemory> for PathError {
    ghost from_gives = { λ _ e. e ≡ NoMemory };

    fn from(_: NoMemory) -> PathError {
        PathError::NoMemory
    }
}

impl fmt::Display for LeafFault {
    fn fmt<W: fmt::Write>(&self, f: &mut fmt::Formatter<W>) -> fmt::Result {
        f.write_str(match self {
            LeafFault::Unreadable => "Unreadable",
            LeafFault::Version => "Version",
            LeafFault::CriticalExtension => "CriticalExtension",
            LeafFault::IsCa => "IsCa",
            LeafFault::Purpose => "Purpose",
        })
    }
}

impl fmt::Display for PathError {
    fn fmt<W: fmt::Write>(&self, f: &mut fmt::Formatter<W>) -> fmt::Result {
        f.write_str(match self {
            PathError::Leaf(_) => "Leaf",
            PathError::NoPath => "NoPath",
            PathError::NameConstraints => "NameConstraints",
            PathError::Certificate => "Certificate",
            PathError::NoMemory => "NoMemory",
        })
    }
}

impl error::Error for PathError {}
