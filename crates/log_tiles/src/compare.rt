// Two lists of leaves between which a consistency proof stands.
ghost use Rattle.std.specs.Prelude.{◌↔◌, IsTrue, IfOk, OnOk, IfErr, length};
ghost use Rattle.log_tiles.specs.Consistency.{AreSizes};
ghost use Rattle.log_tiles.specs.Compared.{IsCompared, ComparedFault, AreProved, IsPrefix};

use crate::error::TileError;
use crate::grown::grown_apart;
use crate::judge::{are_sizes, verify_consistency};
use crate::whole::tree_hash;
use sigstore_merkle::{Collision, Difference};
use sigstore_types_parts::Sha256Hash;
use std::alloc::Global;

/// What the leaves of two trees show, with a consistency proof.
#[derive(Debug, PartialEq, Eq, Drop)]
pub enum Compared {
    /// The proof doesn't join these trees.
    Unproved,
    /// The older tree's leaves are the first ones of the newer tree.
    Prefix,
    /// They aren't, and these two different byte strings have one SHA-256 value.
    Collision(Collision),
}

// Whether the proof joins the trees over these leaves.
fn are_proved(first: &[Sha256Hash], second: &[Sha256Hash], hashes: &[Sha256Hash]) -> bool
    requires sizes { AreSizes (length first.now) (length second.now) }
    ensures { IsTrue result ↔ AreProved first.now second.now hashes.now }
{
    let older = tree_hash(first);
    let newer = tree_hash(second);
    verify_consistency(
        first.len() as u64,
        &older,
        second.len() as u64,
        &newer,
        hashes,
    )
    .is_ok()
}

// Whether the newer tree begins with the older one's leaves.
fn is_prefix(first: &[Sha256Hash], second: &[Sha256Hash]) -> bool
    ensures { IsTrue result ↔ IsPrefix first.now second.now }
{
    second.starts_with(first)
}

/// What the leaves of an older and of a newer tree show with a consistency proof: nothing, where it doesn't give the hashes
/// of both trees; that the older tree's leaves are the first ones of the newer tree; or else two different byte strings
/// with one SHA-256 value, which are found on the way down the trees.
/// Errors, in order: `Sizes`, by the numbers of leaves; `NoMemory`.
pub fn compare_trees(
    alloc: Global,
    first: &[Sha256Hash],
    second: &[Sha256Hash],
    hashes: &[Sha256Hash],
) -> Result<Compared, TileError>
    ensures compared { IfOk result (IsCompared first.now second.now hashes.now) }
    ensures sizes { OnOk result (AreSizes (length first.now) (length second.now)) }
    ensures refused { IfErr result (ComparedFault first.now second.now) }
{
    if !are_sizes(first.len() as u64, second.len() as u64) {
        return Err(TileError::Sizes {
            first: first.len() as u64,
            second: second.len() as u64,
        });
    }
    if !are_proved(first, second, hashes) {
        return Ok(Compared::Unproved);
    }
    if is_prefix(first, second) {
        return Ok(Compared::Prefix);
    }
    match grown_apart(first, second, true, hashes, &tree_hash(first)) {
        Some(pair) => {
            let difference = Difference { nodes: Some(pair) };
            Ok(Compared::Collision(difference.hashed(alloc, &[], &[])?))
        }
        None => Ok(Compared::Prefix),
    }
}
