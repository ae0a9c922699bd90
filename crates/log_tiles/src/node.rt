// The hash of a part of a log's tree, from its tiles.
ghost use Rattle.std.specs.Prelude.{All};
ghost use Rattle.log_tiles.specs.Asked.{IsTileOf, OfParts};
ghost use Rattle.log_tiles.specs.Reading.{AreRead, IsInside, Computes, IsPartHash, ArePartHashes};

use crate::error::TileError;
use crate::place::{Part, halves, place_of};
use crate::reading::{ReadTile, in_tile};
use crate::source::TileSource;
use foundation::Sequence;
use sigstore_merkle::hash_node;
use sigstore_types_parts::Sha256Hash;
use std::alloc::Global;

// The hash of the tree over some of the first leaves: from one tile where it stands over hashes of one, else from its parts.
fn node<T: TileSource>(
    alloc: Global,
    tiles: &mut T,
    read: &mut Sequence<ReadTile>,
    size: u64,
    part: Part,
) -> Result<Sha256Hash, TileError>
    requires part { IsInside size part }
    requires read { AreRead (T.seen tiles.old).told size read.old }
    ensures read { AreRead (T.seen tiles.new).told size read.new }
    ensures hash { Computes (IsTileOf part) size (T.seen tiles.old) (T.seen tiles.new) (IsPartHash part) result }
{
    let place = place_of(part.start, part.count);
    if place.count <= 256 - place.at {
        return in_tile(alloc, tiles, read, size, &place);
    }
    let (left, right) = halves(part);
    match node(alloc, tiles, read, size, left) {
        Ok(older) => match node(alloc, tiles, read, size, right) {
            Ok(newer) => Ok(hash_node(&older, &newer)),
            Err(e) => Err(e),
        },
        Err(e) => Err(e),
    }
}

/// The hashes of the trees over some parts of the first leaves, each tile read once.
pub fn part_hashes<T: TileSource>(
    alloc: Global,
    tiles: &mut T,
    size: u64,
    parts: &[Part],
) -> Result<Sequence<Sha256Hash>, TileError>
    requires parts { All (IsInside size) parts.now }
    ensures { Computes (OfParts parts.now) size (T.seen tiles.old) (T.seen tiles.new) (ArePartHashes parts.now) result }
{
    let mut read = Sequence::new(alloc);
    let mut hashes = Sequence::new(alloc);
    'parts: for part in parts {
        let hash = node(alloc, tiles, &mut read, size, *part)?;
        hashes.push(hash)?;
    }
    Ok(hashes)
}
