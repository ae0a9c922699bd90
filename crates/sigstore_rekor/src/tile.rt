// Tiles of logs of Rekor's second version.
use foundation::{Duplicate, NoMemory};
use sigstore_types_parts::Bytes;
use std::alloc::Global;
use std::num::NonZeroU8;

/// A tile of hashes, as it was fetched (C2SP tlog-tiles).
#[derive(Debug, PartialEq, Drop)]
pub struct RekorV2Tile {
    /// Its level; level 0 has the hashes of leaves.
    pub level: u32,
    /// Its place within the level.
    pub index: u64,
    /// How many hashes a partial tile has; a full one has no width.
    pub width: Option<NonZeroU8>,
    /// The hashes, one behind the other.
    pub bytes: Bytes,
}

/// A bundle of entries, as it was fetched (C2SP tlog-tiles).
#[derive(Debug, PartialEq, Drop)]
pub struct RekorV2EntryBundle {
    /// Its place.
    pub index: u64,
    /// How many entries a partial bundle has; a full one has no width.
    pub width: Option<NonZeroU8>,
    /// The entries, each behind its length.
    pub bytes: Bytes,
}

impl Duplicate for RekorV2Tile {
    fn duplicate(&self, alloc: Global) -> Result<RekorV2Tile, NoMemory> {
        Ok(RekorV2Tile {
            level: self.level,
            index: self.index,
            width: self.width,
            bytes: self.bytes.duplicate(alloc)?,
        })
    }
}

impl Duplicate for RekorV2EntryBundle {
    fn duplicate(&self, alloc: Global) -> Result<RekorV2EntryBundle, NoMemory> {
        Ok(RekorV2EntryBundle {
            index: self.index,
            width: self.width,
            bytes: self.bytes.duplicate(alloc)?,
        })
    }
}
