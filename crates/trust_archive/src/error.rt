// Why an archive is refused, or a chain isn't written.
ghost use Rattle.std.specs.Prelude.{◌≡◌};
ghost use Rattle.trust_archive.specs.Error.{number_of, name_of};
ghost use Rattle.trust_archive.specs.declared.error.ArchiveError.TheVariants.{NoMemory};
ghost use Rattle.trust_archive.specs.declared.error.Unread.TheVariants.{NoMemory as Wanting};

use foundation::NoMemory;
use sigstore_tuf_parts::Error;
use std::alloc::{AllocError, AllocFailed};
use std::{error, fmt};

/// Why an archive is refused, or a chain isn't written. Positions count from 0.
#[derive(Debug, Drop)]
pub enum ArchiveError {
    /// The bytes aren't in the format; so many stand before the first part that can't be read.
    Format { at: u64 },
    /// The first root isn't the given one.
    FirstRoot,
    /// A root is refused.
    Root { position: u64, fault: Error },
    /// The timestamp is refused.
    Timestamp { fault: Error },
    /// The snapshot is refused.
    Snapshot { fault: Error },
    /// A role's document is refused.
    Role { position: u64, fault: Error },
    /// The visit there isn't the next one of the search; or the list ends where the search doesn't, or
    /// without a document that lists the path.
    Order { position: u64 },
    /// The file isn't the one that is listed.
    File,
    /// A part of a chain or a number of parts reaches 2^32.
    TooLong { length: u64 },
    /// An allocation was refused.
    NoMemory,
}

// Why a part isn't read: so many octets are left where it begins.
#[derive(Debug, Drop)]
pub(crate) enum Unread {
    Left(usize),
    NoMemory,
}

impl ArchiveError {
    /// The number of this refusal.
    pub fn number(&self) -> u8
        ensures { result ≡ number_of self.now }
    {
        match self {
            ArchiveError::Format { .. } => 1,
            ArchiveError::FirstRoot => 2,
            ArchiveError::Root { .. } => 3,
            ArchiveError::Timestamp { .. } => 4,
            ArchiveError::Snapshot { .. } => 5,
            ArchiveError::Role { .. } => 6,
            ArchiveError::Order { .. } => 7,
            ArchiveError::File => 8,
            ArchiveError::TooLong { .. } => 9,
            ArchiveError::NoMemory => 10,
        }
    }

    /// The name of this refusal, which is its Display text too.
    pub fn name(&self) -> &'static str
        ensures { result.now ≡ name_of self.now }
    {
        match self {
            ArchiveError::Format { .. } => "Format",
            ArchiveError::FirstRoot => "FirstRoot",
            ArchiveError::Root { .. } => "Root",
            ArchiveError::Timestamp { .. } => "Timestamp",
            ArchiveError::Snapshot { .. } => "Snapshot",
            ArchiveError::Role { .. } => "Role",
            ArchiveError::Order { .. } => "Order",
            ArchiveError::File => "File",
            ArchiveError::TooLong { .. } => "TooLong",
            ArchiveError::NoMemory => "NoMemory",
        }
    }
}

impl From<NoMemory> for ArchiveError {
    ghost from_gives = { λ _ e. e ≡ NoMemory };

    fn from(_: NoMemory) -> ArchiveError {
        ArchiveError::NoMemory
    }
}

impl From<AllocError> for ArchiveError {
    ghost from_gives = { λ _ e. e ≡ NoMemory };

    fn from(_: AllocError) -> ArchiveError {
        ArchiveError::NoMemory
    }
}

impl<T: Drop> From<AllocFailed<T>> for ArchiveError {
    ghost from_gives = { λ _ e. e ≡ NoMemory };

    fn from(_: AllocFailed<T>) -> ArchiveError {
        ArchiveError::NoMemory
    }
}

impl From<NoMemory> for Unread {
    ghost from_gives = { λ _ e. e ≡ Wanting };

    fn from(_: NoMemory) -> Unread {
        Unread::NoMemory
    }
}

impl fmt::Display for ArchiveError {
    fn fmt<W: fmt::Write>(&self, f: &mut fmt::Formatter<W>) -> fmt::Result {
        f.write_str(self.name())
    }
}

impl error::Error for ArchiveError {}
