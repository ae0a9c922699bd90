// Tiles over a log's leaves in memory.
ghost use Rattle.std.specs.Prelude.{◌≡◌, ◌≢◌, ◌<◌, ◌≤◌, ◌+◌, ◌-◌, ◌*◌, ◌^◌, [], ◌++◌, min, true, false, Some, Err, IsNone};
ghost use Rattle.std.specs.Prelude.{IfSome, IfOk, Ok, OnOk, length, drop, option_map};
ghost use Rattle.std.specs.Int.NonZero.{non_zero_u8_get};
ghost use Rattle.foundation.specs.Watched.{Rose};
ghost use Rattle.sigstore_types_parts.specs.Calls.{fails_next};
ghost use Rattle.log_tiles.specs.Tiles.{run_of, reach_of, run_hashes, hashes_in};
ghost use Rattle.log_tiles.specs.Source.{IsAnswer, ReadsTile, told_leaves};
ghost use Rattle.log_tiles.specs.declared.source.TileFault.TheVariants.{Failed};

use crate::source::{TileFault, TileSource};
use crate::whole::tree_hash;
use foundation::NoMemory;
use sigstore_rekor::RekorV2Tile;
use sigstore_types_parts::{Bytes, Calls, FailList, Sha256Hash};
use std::alloc::Global;
use std::num::NonZeroU8;

/// The tiles over leaves in memory, which it tells; the calls that its list names fail.
#[derive(Drop)]
pub struct MemoryTiles {
    leaves: Vec<Sha256Hash>,
    calls: Calls,
}

impl MemoryTiles {
    /// The tiles over these hashes of leaves.
    pub fn new(leaves: Vec<Sha256Hash>, failures: FailList) -> MemoryTiles
        ensures leaves { result.leaves.items ≡ leaves.items }
        ensures failures { result.calls.failures ≡ failures }
        ensures made { result.calls.made ≡ 0 }
        ensures faults { result.calls.faults ≡ 0 }
    {
        MemoryTiles {
            leaves,
            calls: Calls::new(failures),
        }
    }
}

// The leaves below the first hashes of a tile, where so many are held, and how many stand below a hash.
fn leaves_below(
    leaves: &[Sha256Hash],
    level: u32,
    index: u64,
    count: u64,
) -> Option<(&[Sha256Hash], usize)>
    requires { 0 < count }
    ensures some { IfSome result (λ found. (found.0.now ≡ drop (index * 256 * run_of level) leaves.now)
        × (found.1 ≡ run_of level) × (reach_of level index count ≤ length leaves.now)) }
    ensures none { IsNone result → length leaves.now < reach_of level index count }
{
    let held = leaves.len() as u64;
    let run = 256u64.checked_pow(level)?;
    let first = index.checked_mul(256)?;
    let reach = first.checked_add(count)?.checked_mul(run)?;
    if reach > held {
        return None;
    }
    let (_, below) = leaves.split_at((first * run) as usize);
    Some((below, run as usize))
}

// A hash has 32 octets; the view of a hash doesn't tell it.
fn octets_of(hash: &[u8; 32]) -> &[u8]
    ensures octets { result.now ≡ hash.now }
    ensures count { length result.now ≡ 32 }
{
    hash.as_slice()
}

// Adds a hash to the octets of a tile.
fn add_hash(octets: &mut Vec<u8>, hash: &Sha256Hash) -> Result<(), NoMemory>
    ensures added { OnOk result (octets.new.items ≡ octets.old.items ++ hash.now) }
    ensures count { OnOk result (length octets.new.items ≡ length octets.old.items + 32) }
{
    octets.extend_from_slice(octets_of(hash.as_array()))?;
    Ok(())
}

// The octets of a tile: the hashes of so many runs of leaves, one behind the other.
fn tile_octets(
    alloc: Global,
    leaves: &[Sha256Hash],
    run: usize,
    count: usize,
) -> Result<Bytes, NoMemory>
    requires some { 0 < run }
    requires held { count * run ≤ length leaves.now }
    ensures whole { IfOk result (λ octets. length octets ≡ 32 * count) }
    ensures hashes { IfOk result (λ octets. hashes_in count octets ≡ run_hashes count run leaves.now) }
{
    let mut octets = Vec::new(alloc);
    let mut rest = leaves;
    'runs: for _ in 0..count {
        let (first, behind) = rest.split_at(run);
        add_hash(&mut octets, &tree_hash(first))?;
        rest = behind;
    }
    Ok(Bytes::from_vec(octets))
}

// The tile of these leaves, where so many are held.
fn tile_of(
    alloc: Global,
    leaves: &[Sha256Hash],
    level: u32,
    index: u64,
    width: Option<NonZeroU8>,
) -> Result<Option<RekorV2Tile>, NoMemory>
    ensures { IfOk result (λ answer. IsAnswer leaves.now level index (option_map non_zero_u8_get width) (Ok answer)) }
{
    let count = match width {
        Some(width) => width.get() as u64,
        None => 256,
    };
    let Some((below, run)) = leaves_below(leaves, level, index, count) else {
        return Ok(None);
    };
    let bytes = tile_octets(alloc, below, run, count as usize)?;
    Ok(Some(RekorV2Tile {
        level,
        index,
        width,
        bytes,
    }))
}

impl TileSource for MemoryTiles {
    ghost seen = { λ t. told_leaves t.leaves.items t.calls.faults };

    fn tile(
        &mut self,
        alloc: Global,
        level: u32,
        index: u64,
        width: Option<NonZeroU8>,
    ) -> Result<Option<RekorV2Tile>, TileFault>
        ensures reads { ReadsTile (told_leaves self.old.leaves.items self.old.calls.faults)
            (told_leaves self.new.leaves.items self.new.calls.faults)
            level index (option_map non_zero_u8_get width) result }
        ensures failures { self.new.calls.failures ≡ self.old.calls.failures }
        ensures made { self.new.calls.made ≡ min (self.old.calls.made + 1) (2 ^ 64 - 1) }
        ensures fails { fails_next self.old.calls.failures self.old.calls.made ≡ true
            → (result ≡ Err Failed) × Rose self.old.calls.faults self.new.calls.faults }
        ensures serves { fails_next self.old.calls.failures self.old.calls.made ≡ false
            → (result ≢ Err Failed) × (self.new.calls.faults ≡ self.old.calls.faults) }
        ensures never { self.old.calls.failures ≡ [] → (result ≢ Err Failed) × (self.new.calls.faults ≡ self.old.calls.faults) }
    {
        if self.calls.next_fails() {
            return Err(TileFault::Failed);
        }
        match tile_of(alloc, self.leaves.as_slice(), level, index, width) {
            Ok(answer) => Ok(answer),
            Err(NoMemory) => Err(TileFault::NoMemory),
        }
    }
}
