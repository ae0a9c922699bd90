// Where the tiles of a log have the hash of a part of its tree (C2SP tlog-tiles).
ghost use Rattle.std.specs.Prelude.{◌≡◌, ◌↔◌, IsTrue, ◌<◌, ◌+◌, ◌^◌, option_map};
ghost use Rattle.std.specs.Int.NonZero.{non_zero_u8_get};
ghost use Rattle.log_tiles.specs.Tiles.{count_of};
ghost use Rattle.log_tiles.specs.Cause.{count_in};
ghost use Rattle.log_tiles.specs.Asked.{IsPlaceOf, AreHalves};
ghost use Rattle.log_tiles.specs.Reading.{IsPlace, StandsHigher};

use crate::split::split;
use std::num::NonZeroU8;

/// Some leaves, from the first one on.
#[derive(Clone, Copy, Debug, PartialEq, Eq, Drop)]
pub struct Part {
    pub start: u64,
    pub count: u64,
}

/// Hashes of one tile that stand one behind the other.
#[derive(Clone, Copy, Debug, PartialEq, Eq, Drop)]
pub struct Place {
    /// The tile's level.
    pub level: u32,
    /// Over how many leaves a hash of this level stands.
    pub run: u64,
    /// The tile's index.
    pub index: u64,
    /// Where in the tile the first hash stands.
    pub at: u64,
    /// The number of hashes, which may be more than the tile has.
    pub count: u64,
}

// Whether hashes of the next level stand over these leaves and no others.
fn stands_higher(start: u64, count: u64, level: u32, run: u64) -> bool
    requires { 0 < run }
    ensures { IsTrue result ↔ StandsHigher start count level run }
{
    level < 7 && run <= count / 256 && start % (run * 256) == 0 && count % (run * 256) == 0
}

/// The hashes of the highest level that stand over these leaves and no others.
pub fn place_of(start: u64, count: u64) -> Place
    requires { 0 < count }
    ensures { IsPlaceOf start count result }
{
    let mut level = 0;
    let mut run = 1;
    'levels: while stands_higher(start, count, level, run) {
        run *= 256;
        level += 1;
    }
    let first = start / run;
    Place {
        level,
        run,
        index: first / 256,
        at: first % 256,
        count: count / run,
    }
}

/// The width of a place's tile in the tree of the first leaves.
pub fn width_in(size: u64, place: &Place) -> Option<NonZeroU8>
    requires { IsPlace size place.now }
    ensures { count_of (option_map non_zero_u8_get result) ≡ count_in size place.now.level place.now.index }
{
    let count = size / place.run - place.index * 256;
    if count < 256 {
        NonZeroU8::new(count as u8)
    } else {
        None
    }
}

/// The parts of a tree of more than one leaf.
pub fn halves(part: Part) -> (Part, Part)
    requires many { 1 < part.count }
    requires fits { part.start + part.count < 2 ^ 64 }
    ensures { AreHalves part result.0 result.1 }
{
    let count = split(part.count);
    let left = Part {
        start: part.start,
        count,
    };
    let right = Part {
        start: part.start + count,
        count: part.count - count,
    };
    (left, right)
}
