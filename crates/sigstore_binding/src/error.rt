// Why an entry isn't of a signature.
ghost use Rattle.std.specs.Prelude.{◌≡◌};
ghost use Rattle.sigstore_binding.specs.declared.error.BindingError.TheVariants.{NoMemory};

use foundation::NoMemory;
use std::{error, fmt};

/// Why an entry isn't of a signature.
#[derive(Clone, Copy, Debug, PartialEq, Eq, Drop)]
pub enum BindingError {
    /// Entries of this kind aren't compared with what was signed, or the entry's digest is by another algorithm
    /// than SHA-256.
    Unsupported,
    /// The entry's body isn't read, or a hash, a verifier or a signature in it.
    MalformedEntry,
    /// The entry is of another artifact or another envelope.
    ArtifactMismatch,
    /// The entry has another verifier, signature, payload or payload type, or another number of signatures than
    /// one.
    EntryMismatch,
    /// The entry was logged outside the window of the signer's certificate.
    IntegratedTime,
    /// An allocation was refused.
    NoMemory,
}

impl From<NoMemory> for BindingError {
    ghost from_gives = { λ _ e. e ≡ NoMemory };

    fn from(_: NoMemory) -> BindingError {
        BindingError::NoMemory
    }
}

impl fmt::Display for BindingError {
    fn fmt<W: fmt::Write>(&self, f: &mut fmt::Formatter<W>) -> fmt::Result {
        f.write_str(match self {
            BindingError::Unsupported => "Unsupported",
            BindingError::MalformedEntry => "MalformedEntry",
            BindingError::ArtifactMismatch => "ArtifactMismatch",
            BindingError::EntryMismatch => "EntryMismatch",
            BindingError::IntegratedTime => "IntegratedTime",
            BindingError::NoMemory => "NoMemory",
        })
    }
}

impl error::Error for BindingError {}
