// Paths and proofs from the tiles over a log's first leaves, which are the octets of their indices, two for each. The rows were
// printed by a script of RFC 6962's recursions, which knows nothing of the program.
use crate::grown::refusal;
use crate::inclusions::shown;
use crate::tables::{good, halves, hold, number, place, string, there};
use log_tiles::{MemoryTiles, TileError, consistency, inclusion, tile_file};
use sigstore_merkle::hash_leaf;
use sigstore_types_parts::{FailList, Sha256Hash};
use std::num::NonZeroU8;
use std::process::Abort;

/// An index and a size, or two sizes, and how many leaves the tiles have; of a source that fails the first call is refused. Of
/// a file the level, the index and the width of its tile.
const TILES: &str = "\
path 2 7 7 => f31b2b6ef48dff580eca633d0a0cfb15adb7c3bdbc2a1d966a1e10eaaefad3c4,319dd25400276a78b435a7c0f87afbdc29b3a8029915a385b6b302c932321e31,1512123f8151c7e95a4823a2350f9fd195642812f64b06fc5fa7069f0fd83f63
path 299 300 300 => e5d8594f7b3e3d1e734d22cc9b995c1b4a8a7386b74beb77d8f64f3b1ad518ee,ca36ae29a3c3bd2ab13c6cfec3005f2aaf37acef5c0c4cccfd71b543cd146c4c,c7c91c5bf3bae94e4170f86d47067b32bc28fe293167cb61dc585f47c0601ea9,7f02574a6d9df8be915f58c90ec776b60688121f192eaf7352aeb746dbb8ba1f,16284532241f522a3fba7a0ae0863cb456ad381219176c2d424516ac230e3110
path 255 300 600 => 91147ecbd5b9324a18f381688ca3b992bdc0a7b920f99f5732eb9d5f4245f727,eb79b4a94f5dcee41d3c702b868c95152b2d94889c1ae086d853c8a46f79cafa,2bf5fc87923af9ac72019bb3e2f2bca809e42cb752247ac41475daa544b83961,247684f0a2d1c66571b6ad62c90294648d9d6b9a62638ddfd1e4d8b8e9a90899,484387dfea795a96751db64f0fe51b7542e7f2c8502c9d8eaceb41a8c5807d5b,ee785f78541adafeedc600a009ff50e71bc7a92dc9b9891b56aff7cd455c4204,e2f957da200b37165437bb2d52ae5733db7aa6008d41b57043954b32ac9af0a9,083f7b3a4a1798ecd46353003f7b477dca849242f9f083dc884861603fa0adcd,65ad0776b3cfa37eee84032515feaf4e39cde1980aed9de44124ea02920ad2db
proof 3 7 7 => 65d27a48dfef406db8f5f437423bfa5f9c83d77bfc12f8a14b8ce3ede5892fb5,f31b2b6ef48dff580eca633d0a0cfb15adb7c3bdbc2a1d966a1e10eaaefad3c4,319dd25400276a78b435a7c0f87afbdc29b3a8029915a385b6b302c932321e31,1512123f8151c7e95a4823a2350f9fd195642812f64b06fc5fa7069f0fd83f63
proof 4 7 7 => 1512123f8151c7e95a4823a2350f9fd195642812f64b06fc5fa7069f0fd83f63
proof 6 7 7 => 5e45d9ddacc00780c2f0d59d4bf2af4a0acd740c63266bc2066ee141beae5508,7468edd8a96099b99f21582ed155b4287dca0d5712bf989b52decc0380ce97a1,3c81285f889a395556e0be5aa2a184af5d962a80dc094ae43c43c7b26a00f7f4
proof 7 7 7 => -
proof 256 300 300 => 65ad0776b3cfa37eee84032515feaf4e39cde1980aed9de44124ea02920ad2db
proof 255 300 600 => 91147ecbd5b9324a18f381688ca3b992bdc0a7b920f99f5732eb9d5f4245f727,ae974d4a74c2371d8cfe842b7aa4f6698de8570526eeb3db1941b0b72311d470,eb79b4a94f5dcee41d3c702b868c95152b2d94889c1ae086d853c8a46f79cafa,2bf5fc87923af9ac72019bb3e2f2bca809e42cb752247ac41475daa544b83961,247684f0a2d1c66571b6ad62c90294648d9d6b9a62638ddfd1e4d8b8e9a90899,484387dfea795a96751db64f0fe51b7542e7f2c8502c9d8eaceb41a8c5807d5b,ee785f78541adafeedc600a009ff50e71bc7a92dc9b9891b56aff7cd455c4204,e2f957da200b37165437bb2d52ae5733db7aa6008d41b57043954b32ac9af0a9,083f7b3a4a1798ecd46353003f7b477dca849242f9f083dc884861603fa0adcd,65ad0776b3cfa37eee84032515feaf4e39cde1980aed9de44124ea02920ad2db
file 0 1234067 0 => log/tile/0/x001/x234/067
file 1 1234 7 => log/tile/1/x001/234.p/7
path 7 7 7 => 12 IndexOutOfTree 7 7
proof 0 7 7 => 1 Sizes 0 7
proof 8 7 8 => 1 Sizes 8 7
path 6 7 6 => 2 TileAbsent 0 0
proof 3 7 6 => 2 TileAbsent 0 0
proof 3 300 299 => 2 TileAbsent 0 1
failing proof 3 7 7 => 3 TileFailed
failing path 3 7 7 => 3 TileFailed";

/// The tiles over so many leaves.
fn tiles<X: AllocGlobal + Abort>(rt: &X, count: u64, fails: bool) -> MemoryTiles {
    let mut leaves = Vec::new(rt.alloc());
    for index in 0..good(rt, u16::try_from(count)) {
        there(
            rt,
            leaves.push(hash_leaf(index.to_be_bytes().as_slice())).ok(),
        );
    }
    let mut calls = Vec::new(rt.alloc());
    if fails {
        there(rt, calls.push(1).ok());
    }
    MemoryTiles::new(leaves, there(rt, FailList::new(calls)))
}

/// The hashes, or the refusal.
fn told<X: AllocGlobal + Abort>(rt: &X, made: Result<Vec<Sha256Hash>, TileError>) -> String {
    let hashes = match made {
        Ok(hashes) => hashes,
        Err(error) => return refusal(rt, error),
    };
    let mut text = string(rt, if hashes.is_empty() { "-" } else { "" });
    for hash in &hashes {
        if !text.is_empty() {
            good(rt, text.push(','));
        }
        let hash = shown(rt, hash);
        good(rt, text.push_str(hash.as_str()));
        drop(hash);
    }
    drop(hashes);
    text
}

/// The file of the tile that words name.
fn file<X: AllocGlobal + Abort>(rt: &X, words: &str) -> String {
    let (level, words) = halves(rt, words, " ");
    let (index, width) = halves(rt, words, " ");
    let level = good(rt, level.parse::<u32>());
    let width = NonZeroU8::new(good(rt, width.parse::<u8>()));
    let index = number(rt, index);
    good(rt, tile_file(rt.alloc(), "log", level, index, width))
}

/// The path or the proof that words ask for.
pub fn answer<X: AllocGlobal + Abort>(rt: &X, given: &str) -> String {
    let (given, fails) = match given.strip_prefix("failing ") {
        Some(given) => (given, true),
        None => (given, false),
    };
    if let Some(words) = given.strip_prefix("file ") {
        return file(rt, words);
    }
    let (call, words) = halves(rt, given, " ");
    let (first, words) = halves(rt, words, " ");
    let (second, count) = halves(rt, words, " ");
    let (first, second) = (number(rt, first), number(rt, second));
    let mut tiles = tiles(rt, number(rt, count), fails);
    let made = match place(call, "path proof") {
        0 => inclusion(rt.alloc(), &mut tiles, first, second),
        _ => consistency(rt.alloc(), &mut tiles, first, second),
    };
    drop(tiles);
    told(rt, made)
}

#[test]
fn tiles_give_paths_and_proofs(rt: HostRuntime) {
    hold(&rt, "tiles", TILES);
}
