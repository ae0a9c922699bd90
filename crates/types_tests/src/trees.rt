// All leaves of all trees of up to 70 leaves, of which each is the octet of its index.
use crate::inclusion_data::JOINED;
use crate::inclusions::shown;
use crate::tables::{good, holds, there};
use foundation::Sequence;
use sigstore_merkle::{hash_leaf, hash_node, split_is_largest, verify_inclusion_proof};
use sigstore_types_parts::{Hash, Sha256Hash};
use std::process::Abort;

/// The levels of a tree of 70 leaves.
const LEVELS: u8 = 7;

/// The hashes of leaves.
pub fn leaves<X: AllocGlobal + Abort>(rt: &X, size: u8) -> Sequence<Sha256Hash> {
    let mut leaves = Sequence::new(rt.alloc());
    for octet in 0..size {
        good(rt, leaves.push(hash_leaf([octet].as_slice())));
    }
    leaves
}

/// The two parts of a tree of more than one leaf: the left one is the largest power of two below its size.
fn halves<'a, X: Abort>(rt: &X, leaves: &'a [Sha256Hash]) -> (&'a [Sha256Hash], &'a [Sha256Hash]) {
    let whole = there(rt, leaves.len().checked_next_power_of_two());
    there(rt, leaves.split_at_checked(whole / 2))
}

/// Adds to a path for each leaf what it needs in a tree of at most that many levels, and gives the root (RFC 6962,
/// sections 2.1 and 2.1.1): a leaf's path is that in its part, and then the root of the other part.
fn add_paths<X: AllocGlobal + Abort>(
    rt: &X,
    leaves: &[Sha256Hash],
    paths: &mut [Sequence<Sha256Hash>],
    levels: u8,
) -> Sha256Hash {
    match leaves {
        [leaf] => Hash::new(*leaf.as_array()),
        _ => {
            assert!(rt; levels > 0);
            let (left, right) = halves(rt, leaves);
            let (left_paths, right_paths) = there(rt, paths.split_at_mut_checked(left.len()));
            let left_root = add_paths(rt, left, left_paths, levels - 1);
            let right_root = add_paths(rt, right, right_paths, levels - 1);
            push_each(rt, left_paths, &right_root);
            push_each(rt, right_paths, &left_root);
            hash_node(&left_root, &right_root)
        }
    }
}

/// Adds a hash to paths.
fn push_each<X: AllocGlobal + Abort>(
    rt: &X,
    paths: &mut [Sequence<Sha256Hash>],
    hash: &Sha256Hash,
) {
    for path in paths {
        good(rt, path.push(Hash::new(*hash.as_array())));
    }
}

/// A path of no hashes for each leaf.
fn empty_paths<X: AllocGlobal + Abort>(rt: &X, count: usize) -> Vec<Sequence<Sha256Hash>> {
    let mut paths = Vec::new(rt.alloc());
    for _ in 0..count {
        good(rt, paths.push(Sequence::new(rt.alloc())));
    }
    paths
}

/// Judges each leaf of a tree by its path, and gives the root.
fn judge_each<X: AllocGlobal + Abort>(rt: &X, leaves: &[Sha256Hash]) -> Sha256Hash {
    let mut paths = empty_paths(rt, leaves.len());
    let root = add_paths(rt, leaves, &mut paths, LEVELS);
    judge(rt, leaves, &paths, &root);
    drop(paths);
    root
}

fn judge<X: Abort>(
    rt: &X,
    leaves: &[Sha256Hash],
    paths: &[Sequence<Sha256Hash>],
    root: &Sha256Hash,
) {
    let size = leaves.len() as u64;
    for (index, (leaf, path)) in leaves.iter().zip(paths.iter()).enumerate() {
        let index = index as u64;
        good(
            rt,
            verify_inclusion_proof(leaf, index, size, path.as_slice(), root),
        );
    }
}

#[test]
fn each_leaf_of_each_tree_has_its_path(rt: HostRuntime) {
    split_is_largest(70);
    let leaves = leaves(&rt, 70);
    let mut joined = hash_leaf(b"");
    for size in 1..=leaves.len() {
        let tree = there(&rt, leaves.as_slice().get(..size));
        joined = hash_node(&joined, &judge_each(&rt, tree));
    }
    holds(&rt, shown(&rt, &joined).as_str() == JOINED);
}
