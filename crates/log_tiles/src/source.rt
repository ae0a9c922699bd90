// Where a log's tiles are read.
ghost use Rattle.std.specs.Prelude.{◌≡◌, option_map};
ghost use Rattle.std.specs.Int.NonZero.{non_zero_u8_get};
ghost use Rattle.foundation.specs.Watched.{Watched};
ghost use Rattle.log_tiles.specs.Source.{Leaves, ReadsTile};
ghost use Rattle.log_tiles.specs.declared.source.TileFault.TheVariants.{NoMemory};

use foundation::NoMemory;
use sigstore_rekor::RekorV2Tile;
use std::alloc::Global;
use std::num::NonZeroU8;
use std::{error, fmt};

/// Why no tile is read.
#[derive(Clone, Copy, Debug, PartialEq, Eq, Drop)]
pub enum TileFault {
    /// The call failed.
    Failed,
    /// An allocation was refused.
    NoMemory,
}

impl From<NoMemory> for TileFault {
    ghost from_gives = { λ _ e. e ≡ NoMemory };

    fn from(_: NoMemory) -> TileFault {
        TileFault::NoMemory
    }
}

/// Where a log's tiles are read.
pub trait TileSource {
    /// The hashes of the log's leaves, where they are told, and how often a call failed.
    ghost seen: { Self → Watched Leaves };

    /// The tile of that level and index, a partial one by its width; None where the log hasn't as many leaves. Errors:
    /// `Failed` and `NoMemory`.
    fn tile(
        &mut self,
        alloc: Global,
        level: u32,
        index: u64,
        width: Option<NonZeroU8>,
    ) -> Result<Option<RekorV2Tile>, TileFault>
        ensures { ReadsTile (seen self.old) (seen self.new) level index (option_map non_zero_u8_get width) result };
}

impl fmt::Display for TileFault {
    fn fmt<W: fmt::Write>(&self, f: &mut fmt::Formatter<W>) -> fmt::Result {
        f.write_str(match self {
            TileFault::Failed => "Failed",
            TileFault::NoMemory => "NoMemory",
        })
    }
}

impl error::Error for TileFault {}
