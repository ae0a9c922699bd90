// Why a log isn't shown to be one growing tree.
ghost use Rattle.std.specs.Prelude.{◌≡◌};
ghost use Rattle.log_tiles.specs.Error.{number_of, name_of};
ghost use Rattle.log_tiles.specs.declared.error.TileError.TheVariants.{NoMemory as Want};

use foundation::NoMemory;
use sigstore_types_parts::Sha256Hash;
use std::{error, fmt};

/// One of two trees, or of two checkpoints.
#[derive(Clone, Copy, Debug, PartialEq, Eq, Drop)]
pub enum WhichTree {
    /// The older one.
    First,
    /// The newer one.
    Second,
}

/// Why a log isn't shown to be one growing tree.
#[derive(Debug, PartialEq, Eq, Drop)]
pub enum TileError {
    /// Between these sizes there is no proof.
    Sizes {
        first: u64,
        second: u64,
    },
    /// The source hasn't this tile, whose leaves are in the tree.
    TileAbsent {
        level: u32,
        index: u64,
    },
    /// A tile couldn't be read.
    TileFailed,
    /// A tile has another number of octets than 32 for each of its hashes.
    TileLength {
        expected: u64,
        actual: u64,
    },
    /// A text is no checkpoint.
    Checkpoint {
        which: WhichTree,
    },
    /// A checkpoint isn't signed under the key.
    Signature {
        which: WhichTree,
    },
    /// The key isn't read.
    Key,
    /// Between these sizes a proof has another number of hashes.
    PathLength,
    /// The proof gives another root for this tree, namely this one.
    RootMismatch {
        which: WhichTree,
        computed: Sha256Hash,
    },
    /// An allocation was refused.
    NoMemory,
    /// Two checkpoints are of different logs, as their first lines name them.
    Origin,
    /// A tree of this size has no leaf at this index.
    IndexOutOfTree {
        index: u64,
        size: u64,
    },
}

impl TileError {
    /// The number of this refusal.
    pub fn number(&self) -> u8
        ensures { result ≡ number_of self.now }
    {
        match self {
            TileError::Sizes { .. } => 1,
            TileError::TileAbsent { .. } => 2,
            TileError::TileFailed => 3,
            TileError::TileLength { .. } => 4,
            TileError::Checkpoint { .. } => 5,
            TileError::Signature { .. } => 6,
            TileError::Key => 7,
            TileError::PathLength => 8,
            TileError::RootMismatch { .. } => 9,
            TileError::NoMemory => 10,
            TileError::Origin => 11,
            TileError::IndexOutOfTree { .. } => 12,
        }
    }

    /// The name of this refusal, which is its Display text too.
    pub fn name(&self) -> &'static str
        ensures { result.now ≡ name_of self.now }
    {
        match self {
            TileError::Sizes { .. } => "Sizes",
            TileError::TileAbsent { .. } => "TileAbsent",
            TileError::TileFailed => "TileFailed",
            TileError::TileLength { .. } => "TileLength",
            TileError::Checkpoint { .. } => "Checkpoint",
            TileError::Signature { .. } => "Signature",
            TileError::Key => "Key",
            TileError::PathLength => "PathLength",
            TileError::RootMismatch { .. } => "RootMismatch",
            TileError::NoMemory => "NoMemory",
            TileError::Origin => "Origin",
            TileError::IndexOutOfTree { .. } => "IndexOutOfTree",
        }
    }
}

impl From<NoMemory> for TileError {
    ghost from_gives = { λ _ e. e ≡ Want };

    fn from(_: NoMemory) -> TileError {
        TileError::NoMemory
    }
}

impl fmt::Display for TileError {
    fn fmt<W: fmt::Write>(&self, f: &mut fmt::Formatter<W>) -> fmt::Result {
        f.write_str(self.name())
    }
}

impl error::Error for TileError {}
