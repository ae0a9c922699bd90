// Why an inclusion is refused.
ghost use Rattle.std.specs.Prelude.{◌≡◌};
ghost use Rattle.sigstore_merkle.specs.Error.{number_of};
ghost use Rattle.sigstore_merkle.specs.declared.error.MerkleError.TheVariants.{NoMemory as Want};

use foundation::NoMemory;
use sigstore_types_parts::Sha256Hash;
use std::{error, fmt};

/// Why an inclusion is refused.
#[derive(Debug, PartialEq, Eq, Drop)]
pub enum MerkleError {
    /// The index isn't below the size of the tree.
    IndexOutOfTree { index: u64, size: u64 },
    /// A path to that place has another number of hashes.
    PathLength { expected: u64, actual: u64 },
    /// The leaf and its path give another root, this one.
    RootMismatch { computed: Sha256Hash },
    /// An allocation was refused.
    NoMemory,
}

impl MerkleError {
    /// The number of this refusal.
    pub fn number(&self) -> u8
        ensures { result ≡ number_of self.now }
    {
        match self {
            MerkleError::IndexOutOfTree { .. } => 1,
            MerkleError::PathLength { .. } => 2,
            MerkleError::RootMismatch { .. } => 3,
            MerkleError::NoMemory => 4,
        }
    }
}

impl From<NoMemory> for MerkleError {
    ghost from_gives = { λ _ e. e ≡ Want };

    fn from(_: NoMemory) -> MerkleError {
        MerkleError::NoMemory
    }
}

impl fmt::Display for MerkleError {
    fn fmt<W: fmt::Write>(&self, f: &mut fmt::Formatter<W>) -> fmt::Result {
        f.write_str(match self {
            MerkleError::IndexOutOfTree { .. } => "IndexOutOfTree",
            MerkleError::PathLength { .. } => "PathLength",
            MerkleError::RootMismatch { .. } => "RootMismatch",
            MerkleError::NoMemory => "NoMemory",
        })
    }
}

impl error::Error for MerkleError {}
