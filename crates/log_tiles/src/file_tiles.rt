// Tiles of a log in a folder.
ghost use Rattle.std.specs.Prelude.{◌≡◌, IfOk, string_bytes, option_map};
ghost use Rattle.std.specs.Int.NonZero.{non_zero_u8_get};
ghost use Rattle.log_tiles.specs.Tiles.{file_path_of};
ghost use Rattle.log_tiles.specs.Source.{ReadsTile};
ghost use Rattle.foundation.specs.Watched.{untold};

use crate::source::{TileFault, TileSource};
use foundation::NoMemory;
use sigstore_rekor::{RekorV2Tile, tile_path};
use sigstore_types_parts::{FileFault, Text, read_file};
use std::alloc::Global;
use std::num::NonZeroU8;
use std::rt::Files;

/// As many octets as a full tile has.
const FULL: u64 = 8192;

/// The tiles of a log under `tile/` of a folder (C2SP tlog-tiles); it tells nothing. A file that is longer than a full tile
/// counts as one that couldn't be read.
#[derive(Drop)]
pub struct FileTiles<'r, X: Files + AllocGlobal> {
    rt: &'r X,
    dir: Text,
    faults: u64,
}

impl<'r, X: Files + AllocGlobal> FileTiles<'r, X> {
    /// The tiles of a folder.
    pub fn new(rt: &'r X, dir: Text) -> FileTiles<'r, X>
        ensures dir { result.dir ≡ dir }
        ensures faults { result.faults ≡ 0 }
    {
        FileTiles { rt, dir, faults: 0 }
    }
}

/// The file of a tile below a folder (C2SP tlog-tiles).
pub fn tile_file(
    alloc: Global,
    dir: &str,
    level: u32,
    index: u64,
    width: Option<NonZeroU8>,
) -> Result<String, NoMemory>
    ensures named { IfOk result (λ path. string_bytes path ≡ file_path_of dir.now level index (option_map non_zero_u8_get width)) }
{
    let path = tile_path(alloc, index, width)?;
    let path = path.as_str();
    Ok(format!(in alloc; "{dir}/tile/{level}/{path}")?)
}

// The tile of a file.
fn read<X: Files + AllocGlobal>(
    rt: &X,
    alloc: Global,
    path: &str,
    level: u32,
    index: u64,
    width: Option<NonZeroU8>,
) -> Result<Option<RekorV2Tile>, TileFault> {
    match read_file(rt, alloc, path, FULL) {
        Ok(bytes) => Ok(Some(RekorV2Tile {
            level,
            index,
            width,
            bytes,
        })),
        Err(FileFault::Absent) => Ok(None),
        Err(FileFault::NoMemory) => Err(TileFault::NoMemory),
        Err(_) => Err(TileFault::Failed),
    }
}

impl<X: Files + AllocGlobal> TileSource for FileTiles<'_, X> {
    ghost seen = { λ t. untold t.faults };

    fn tile(
        &mut self,
        alloc: Global,
        level: u32,
        index: u64,
        width: Option<NonZeroU8>,
    ) -> Result<Option<RekorV2Tile>, TileFault>
        ensures reads { ReadsTile (untold self.old.faults) (untold self.new.faults)
            level index (option_map non_zero_u8_get width) result }
        ensures dir { self.new.dir ≡ self.old.dir }
    {
        let answer = match tile_file(alloc, self.dir.as_str(), level, index, width) {
            Ok(path) => read(self.rt, alloc, path.as_str(), level, index, width),
            Err(NoMemory) => Err(TileFault::NoMemory),
        };
        if answer.is_err() {
            self.faults = self.faults.saturating_add(1);
        }
        answer
    }
}
