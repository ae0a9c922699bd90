// Why an entry doesn't count as logged.
ghost use Rattle.std.specs.Prelude.{◌≡◌};
ghost use Rattle.sigstore_log.specs.Error.{number_of};
ghost use Rattle.sigstore_log.specs.declared.error.LogError.TheVariants.{NoMemory};

use foundation::NoMemory;
use sigstore_types_parts::Sha256Hash;
use std::{error, fmt};

/// Why an entry doesn't count as logged.
#[derive(Debug, PartialEq, Drop)]
pub enum LogError {
    /// The entry has no proof, or its proof doesn't lead to the tree's root (RFC 6962, section 2.1.1).
    InclusionProof,
    /// The proof has no checkpoint, or one of another tree, or one that no trusted log signed.
    Checkpoint,
    /// The log's id isn't a SHA-256 value (RFC 6962, section 3.2).
    MalformedEntry,
    /// No trusted log of this id has started.
    UnknownLog { log_id: Sha256Hash },
    /// The promise isn't the log's: no key of the log is used at its time, the entry has no payload, or the
    /// signature isn't good.
    InclusionPromise,
    /// The promised time is after now.
    IntegratedTime,
    /// An allocation was refused.
    NoMemory,
}

impl LogError {
    /// The number of this refusal.
    pub fn number(&self) -> u8
        ensures { result ≡ number_of self.now }
    {
        match self {
            LogError::InclusionProof => 1,
            LogError::Checkpoint => 2,
            LogError::MalformedEntry => 3,
            LogError::UnknownLog { .. } => 4,
            LogError::InclusionPromise => 5,
            LogError::IntegratedTime => 6,
            LogError::NoMemory => 7,
        }
    }
}

impl From<NoMemory> for LogError {
    ghost from_gives = { λ _ e. e ≡ NoMemory };

    fn from(_: NoMemory) -> LogError {
        LogError::NoMemory
    }
}

impl fmt::Display for LogError {
    fn fmt<W: fmt::Write>(&self, f: &mut fmt::Formatter<W>) -> fmt::Result {
        f.write_str(match self {
            LogError::InclusionProof => "InclusionProof",
            LogError::Checkpoint => "Checkpoint",
            LogError::MalformedEntry => "MalformedEntry",
            LogError::UnknownLog { .. } => "UnknownLog",
            LogError::InclusionPromise => "InclusionPromise",
            LogError::IntegratedTime => "IntegratedTime",
            LogError::NoMemory => "NoMemory",
        })
    }
}

impl error::Error for LogError {}
