// The tiles that a call reads, each once.
ghost use Rattle.std.specs.Prelude.{◌≡◌, ◌<◌, ◌≤◌, ◌+◌, ◌*◌, Option, IfOk, OnOk, IfErr, IfSome, length, ℕ, option_map};
ghost use Rattle.std.specs.Int.NonZero.{non_zero_u8_get};
ghost use Rattle.log_tiles.specs.Tiles.{count_of, hashes_in};
ghost use Rattle.log_tiles.specs.Source.{Leaves};
ghost use Rattle.log_tiles.specs.declared.error.TileError.TheVariants.{NoMemory as Want};
ghost use Rattle.log_tiles.specs.Reading.{IsPlace, IsRead, AreRead, LengthRefused, Fetches, Computes, IsThis, IsPlaceHash, place_hash};

use crate::error::TileError;
use crate::place::{Place, width_in};
use crate::source::{TileFault, TileSource};
use crate::whole::tree_hash;
use foundation::{NoMemory, Sequence};
use sigstore_rekor::RekorV2Tile;
use sigstore_types_parts::{Hash, Sha256Hash};
use std::alloc::Global;
use std::num::NonZeroU8;

/// A tile that was read.
#[derive(Drop)]
pub struct ReadTile {
    pub level: u32,
    pub index: u64,
    pub hashes: Sequence<Sha256Hash>,
}

// The hashes that stand in octets, 32 for each.
fn hashes_in(alloc: Global, octets: &[u8]) -> Result<Sequence<Sha256Hash>, NoMemory>
    ensures { IfOk result (λ hashes. (count : ℕ) → length octets.now ≡ 32 * count → hashes ≡ hashes_in count octets.now) }
{
    let mut hashes = Sequence::new(alloc);
    let mut rest = octets;
    'hashes: while let Some((hash, behind)) = rest.split_first_chunk::<32>() {
        hashes.push(Hash::new(*hash))?;
        rest = behind;
    }
    Ok(hashes)
}

// The tile that was asked for by a place.
fn read_tile(
    alloc: Global,
    place: &Place,
    width: Option<NonZeroU8>,
    tile: &RekorV2Tile,
) -> Result<ReadTile, TileError>
    ensures level { IfOk result (λ read. read.level ≡ place.now.level) }
    ensures index { IfOk result (λ read. read.index ≡ place.now.index) }
    ensures whole { OnOk result (length tile.now.bytes ≡ 32 * count_of (option_map non_zero_u8_get width)) }
    ensures hashes { IfOk result (λ read. read.hashes ≡ hashes_in (count_of (option_map non_zero_u8_get width)) tile.now.bytes) }
    ensures refused { IfErr result (LengthRefused (32 * count_of (option_map non_zero_u8_get width)) (length tile.now.bytes)) }
{
    let octets = tile.bytes.as_bytes();
    let count = match width {
        Some(width) => width.get() as u64,
        None => 256,
    };
    let expected = 32 * count;
    let actual = octets.len() as u64;
    if actual != expected {
        return Err(TileError::TileLength { expected, actual });
    }
    Ok(ReadTile {
        level: place.level,
        index: place.index,
        hashes: hashes_in(alloc, octets)?,
    })
}

// Reads a place's tile in the tree of the first leaves.
fn fetch<T: TileSource>(
    alloc: Global,
    tiles: &mut T,
    size: u64,
    place: &Place,
) -> Result<ReadTile, TileError>
    requires { IsPlace size place.now }
    ensures { Fetches size place.now.level place.now.index (T.seen tiles.old) (T.seen tiles.new) result }
{
    let width = width_in(size, place);
    match tiles.tile(alloc, place.level, place.index, width) {
        Ok(Some(tile)) => read_tile(alloc, place, width, &tile),
        Ok(None) => Err(TileError::TileAbsent {
            level: place.level,
            index: place.index,
        }),
        Err(TileFault::Failed) => Err(TileError::TileFailed),
        Err(TileFault::NoMemory) => Err(TileError::NoMemory),
    }
}

// The tile of a place among those that were read.
fn find<'a>(read: &'a [ReadTile], place: &Place) -> Option<&'a ReadTile>
    ensures among { (told : Option Leaves) (size : ℕ) → AreRead told size read.now → IfSome result (λ tile. IsRead told size tile.now) }
    ensures level { IfSome result (λ tile. tile.now.level ≡ place.now.level) }
    ensures index { IfSome result (λ tile. tile.now.index ≡ place.now.index) }
{
    let (tile, others) = read.split_first()?;
    if tile.level == place.level && tile.index == place.index {
        return Some(tile);
    }
    find(others, place)
}

// The tile of a place, where it was read.
fn find_in<'a>(read: &'a Sequence<ReadTile>, place: &Place) -> Option<&'a ReadTile>
    ensures among { (told : Option Leaves) (size : ℕ) → AreRead told size read.now → IfSome result (λ tile. IsRead told size tile.now) }
    ensures level { IfSome result (λ tile. tile.now.level ≡ place.now.level) }
    ensures index { IfSome result (λ tile. tile.now.index ≡ place.now.index) }
{
    find(read.as_slice(), place)
}

// The hash of the tree over a place's hashes.
fn hash_in(tile: &ReadTile, place: &Place) -> Sha256Hash
    requires some { 0 < place.now.count }
    requires within { place.now.at + place.now.count ≤ length tile.now.hashes }
    ensures { result ≡ place_hash place.now tile.now.hashes }
{
    let (_, behind) = tile.hashes.as_slice().split_at(place.at as usize);
    let (hashes, _) = behind.split_at(place.count as usize);
    tree_hash(hashes)
}

// Keeps a tile, and gives the hash of the tree over a place's hashes.
fn keep(
    read: &mut Sequence<ReadTile>,
    tile: ReadTile,
    place: &Place,
) -> Result<Sha256Hash, TileError>
    requires some { 0 < place.now.count }
    requires within { place.now.at + place.now.count ≤ length tile.hashes }
    ensures kept { (told : Option Leaves) (size : ℕ) → AreRead told size read.old → IsRead told size tile → AreRead told size read.new }
    ensures hash { IfOk result (λ hash. hash ≡ place_hash place.now tile.hashes) }
    ensures want { IfErr result (λ e. e ≡ Want) }
{
    let hash = hash_in(&tile, place);
    match read.push(tile) {
        Ok(()) => Ok(hash),
        Err(NoMemory) => Err(TileError::NoMemory),
    }
}

/// The hash of the tree over the hashes of a place, in the tree of the first leaves.
pub fn in_tile<T: TileSource>(
    alloc: Global,
    tiles: &mut T,
    read: &mut Sequence<ReadTile>,
    size: u64,
    place: &Place,
) -> Result<Sha256Hash, TileError>
    requires place { IsPlace size place.now }
    requires read { AreRead (T.seen tiles.old).told size read.old }
    ensures read { AreRead (T.seen tiles.new).told size read.new }
    ensures hash { Computes (IsThis place.now.level place.now.index) size (T.seen tiles.old) (T.seen tiles.new)
        (IsPlaceHash place.now) result }
{
    if let Some(tile) = find_in(read, place) {
        return Ok(hash_in(tile, place));
    }
    match fetch(alloc, tiles, size, place) {
        Ok(tile) => keep(read, tile, place),
        Err(e) => Err(e),
    }
}
