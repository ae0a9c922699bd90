// The judge of consistency proofs (RFC 6962, section 2.1.2).
ghost use Rattle.std.specs.Prelude.{◌≡◌, ◌<◌, ◌≤◌, ◌↔◌, IsTrue, is_ok, IfErr};
ghost use Rattle.log_tiles.specs.Consistency.{roots_from, roots_alike, with_left, with_right, AreConsistent, AreSizes};
ghost use Rattle.log_tiles.specs.Fault.{ConsistencyFault};

use crate::error::{TileError, WhichTree};
use crate::split::split;
use crate::whole::copied;
use sigstore_merkle::hash_node;
use sigstore_types_parts::Sha256Hash;

/// The roots of an older and of a newer tree.
type Roots = (Sha256Hash, Sha256Hash);

// The roots of two trees of one size.
fn roots_alike(whole: bool, hashes: &[Sha256Hash], root: &Sha256Hash) -> Option<Roots>
    ensures { result ≡ roots_alike whole hashes.now root.now }
{
    match hashes {
        [] if whole => Some((copied(root), copied(root))),
        [hash] if !whole => Some((copied(hash), copied(hash))),
        _ => None,
    }
}

// The roots above these, where the older tree stands in the left part.
fn with_right(hash: &Sha256Hash, below: Option<Roots>) -> Option<Roots>
    ensures { result ≡ with_right hash.now below }
{
    let (first, second) = below?;
    let second = hash_node(&second, hash);
    Some((first, second))
}

// The roots above these, where both trees have one left part.
fn with_left(hash: &Sha256Hash, below: Option<Roots>) -> Option<Roots>
    ensures { result ≡ with_left hash.now below }
{
    let (first, second) = below?;
    Some((hash_node(hash, &first), hash_node(hash, &second)))
}

/// The roots that a proof gives: a call for each hash.
pub fn roots_of(
    first: u64,
    second: u64,
    whole: bool,
    hashes: &[Sha256Hash],
    root: &Sha256Hash,
) -> Option<Roots>
    requires some { 0 < first }
    requires grown { first ≤ second }
    ensures { result ≡ roots_from first second whole hashes.now root.now }
{
    if first == second {
        return roots_alike(whole, hashes, root);
    }
    let (hash, others) = hashes.split_last()?;
    let part = split(second);
    if part < first {
        with_left(
            hash,
            roots_of(first - part, second - part, false, others, root),
        )
    } else {
        with_right(hash, roots_of(first, part, whole, others, root))
    }
}

/// Whether there are proofs between trees of these sizes.
pub fn are_sizes(first: u64, second: u64) -> bool
    ensures { IsTrue result ↔ AreSizes first second }
{
    0 < first && first <= second
}

/// Whether the tree of the second size and root grew from that of the first, by the hashes of a consistency proof (RFC
/// 6962, section 2.1.2): the first is the tree of the second's first leaves, or whoever has both lists of leaves finds a
/// collision of SHA-256. Takes no memory.
/// Errors, in order: `Sizes` where the first size is 0 or above the second; `PathLength` where the proof has another number
/// of hashes than lead from one to the other; `RootMismatch` where it gives another first root, without which any tree
/// would pass for the older one, then where it gives another second root.
pub fn verify_consistency(
    first: u64,
    first_root: &Sha256Hash,
    second: u64,
    second_root: &Sha256Hash,
    hashes: &[Sha256Hash],
) -> Result<(), TileError>
    ensures accepted { IsTrue (is_ok result) ↔ AreConsistent first first_root.now second second_root.now hashes.now }
    ensures refused { IfErr result (ConsistencyFault first first_root.now second second_root.now hashes.now) }
{
    if !are_sizes(first, second) {
        return Err(TileError::Sizes { first, second });
    }
    let Some((older, newer)) = roots_of(first, second, true, hashes, first_root) else {
        return Err(TileError::PathLength);
    };
    if older != *first_root {
        return Err(TileError::RootMismatch {
            which: WhichTree::First,
            computed: older,
        });
    }
    if newer != *second_root {
        return Err(TileError::RootMismatch {
            which: WhichTree::Second,
            computed: newer,
        });
    }
    Ok(())
}
