// Proofs from a log's tiles (C2SP tlog-tiles; RFC 6962, sections 2.1.1 and 2.1.2).
ghost use Rattle.std.specs.Prelude.{◌<◌, OnOk};
ghost use Rattle.log_tiles.specs.Consistency.{AreSizes};
ghost use Rattle.log_tiles.specs.Source.{Leaves};
ghost use Rattle.log_tiles.specs.Asked.{OfPath, OfProof};
ghost use Rattle.log_tiles.specs.Reading.{Computes};
ghost use Rattle.log_tiles.specs.Proving.{IsPath, IsProof, Proves, Serves, Gives};
ghost use Rattle.log_tiles.specs.declared.error.TileError.TheVariants as refusal;

use crate::error::TileError;
use crate::judge::are_sizes;
use crate::node::part_hashes;
use crate::parts::{path_parts, proof_parts};
use crate::place::Part;
use crate::source::TileSource;
use sigstore_types_parts::Sha256Hash;
use std::alloc::Global;

// The path of a leaf of the tree.
fn leaf_path<T: TileSource>(
    alloc: Global,
    tiles: &mut T,
    index: u64,
    size: u64,
) -> Result<Vec<Sha256Hash>, TileError>
    requires { index < size }
    ensures { Computes (OfPath index size) size (T.seen tiles.old) (T.seen tiles.new)
        (λ leaves path. IsPath index size leaves path.items) result }
{
    let parts = path_parts(
        alloc,
        index,
        Part {
            start: 0,
            count: size,
        },
    )?;
    let hashes = part_hashes(alloc, tiles, size, parts.as_slice())?;
    Ok(hashes.into_vec())
}

// The proof between two sizes of the tree.
fn growth_proof<T: TileSource>(
    alloc: Global,
    tiles: &mut T,
    first: u64,
    second: u64,
) -> Result<Vec<Sha256Hash>, TileError>
    requires { AreSizes first second }
    ensures { Computes (OfProof first second) second (T.seen tiles.old) (T.seen tiles.new)
        (λ leaves proof. IsProof first second leaves proof.items) result }
{
    let parts = proof_parts(
        alloc,
        first,
        true,
        Part {
            start: 0,
            count: second,
        },
    )?;
    let hashes = part_hashes(alloc, tiles, second, parts.as_slice())?;
    Ok(hashes.into_vec())
}

/// The path of the leaf at an index in the tree of the first `size` leaves, from the leaf up (RFC 6962, section 2.1.1). Each
/// tile is read once.
/// Errors, in order: `IndexOutOfTree` where the index isn't below the size; then what reading the tiles answers (`TileAbsent`,
/// `TileFailed`, `TileLength`), and `NoMemory`.
pub fn inclusion<T: TileSource>(
    alloc: Global,
    tiles: &mut T,
    index: u64,
    size: u64,
) -> Result<Vec<Sha256Hash>, TileError>
    ensures inside { OnOk result (index < size) }
    ensures path { Proves (index < size) (refusal.IndexOutOfTree index size) (OfPath index size) size (T.seen tiles.old) (T.seen tiles.new)
        (λ leaves path. IsPath index size leaves path.items) result }
    ensures served { (leaves : Leaves) → index < size → Serves leaves size (T.seen tiles.old) (T.seen tiles.new)
        → Gives (λ path. IsPath index size leaves path.items) result }
{
    if index >= size {
        return Err(TileError::IndexOutOfTree { index, size });
    }
    leaf_path(alloc, tiles, index, size)
}

/// The proof that the tree of the first `second` leaves grew from that of the first `first` ones (RFC 6962, section 2.1.2). Each
/// tile is read once.
/// Errors, in order: `Sizes` where the first size is 0 or above the second; then what reading the tiles answers (`TileAbsent`,
/// `TileFailed`, `TileLength`), and `NoMemory`.
pub fn consistency<T: TileSource>(
    alloc: Global,
    tiles: &mut T,
    first: u64,
    second: u64,
) -> Result<Vec<Sha256Hash>, TileError>
    ensures sizes { OnOk result (AreSizes first second) }
    ensures proof { Proves (AreSizes first second) (refusal.Sizes first second) (OfProof first second) second (T.seen tiles.old)
        (T.seen tiles.new)
        (λ leaves proof. IsProof first second leaves proof.items) result }
    ensures served { (leaves : Leaves) → AreSizes first second → Serves leaves second (T.seen tiles.old) (T.seen tiles.new)
        → Gives (λ proof. IsProof first second leaves proof.items) result }
{
    if !are_sizes(first, second) {
        return Err(TileError::Sizes { first, second });
    }
    growth_proof(alloc, tiles, first, second)
}
