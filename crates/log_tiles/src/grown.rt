// The collision that two trees show which a proof joins and whose leaves aren't those of one.
ghost use Rattle.std.specs.Prelude.{◌≡◌, ◌↔◌, IsTrue, ◌<◌, ◌≤◌, length};
ghost use Rattle.sigstore_merkle.specs.Tree.{node_hash};
ghost use Rattle.log_tiles.specs.Whole.{tree_hash};
ghost use Rattle.log_tiles.specs.Compared.{OrCollision, IsPrefix, GivesBoth};

use crate::judge::roots_of;
use crate::split::split_len;
use crate::whole::{copied, tree_hash};
use sigstore_merkle::{NodePair, Side};
use sigstore_types_parts::Sha256Hash;

// A hash of 32 octets has 32; the view of a hash doesn't tell it.
fn count(octets: &[u8; 32]) -> usize
    ensures { length octets.now ≡ 32 }
{
    let all = octets.as_slice();
    all.len()
}

// Whether the same is hashed for two nodes.
fn are_same(
    left: &Sha256Hash,
    right: &Sha256Hash,
    other_left: &Sha256Hash,
    other_right: &Sha256Hash,
) -> bool
    ensures { IsTrue result ↔ ((left.now ≡ other_left.now) × (right.now ≡ other_right.now)) }
{
    left == other_left && right == other_right
}

// Two nodes of one hash: what they stand over is the same, or what was hashed is a collision.
fn over_same(
    left: &Sha256Hash,
    right: &Sha256Hash,
    other_left: &Sha256Hash,
    other_right: &Sha256Hash,
) -> Option<NodePair>
    requires { node_hash left.now right.now ≡ node_hash other_left.now other_right.now }
    ensures { OrCollision ((left.now ≡ other_left.now) × (right.now ≡ other_right.now)) result }
{
    let _ = count(left.as_array());
    let _ = count(other_left.as_array());
    if are_same(left, right, other_left, other_right) {
        return None;
    }
    Some(NodePair {
        side: Side::Right,
        a: copied(left),
        a_sibling: copied(right),
        b: copied(other_left),
        b_sibling: copied(other_right),
    })
}

// Two trees of one size and one hash.
fn same_trees(first: &[Sha256Hash], second: &[Sha256Hash]) -> Option<NodePair>
    requires some { 0 < length first.now }
    requires size { length first.now ≡ length second.now }
    requires hash { tree_hash first.now ≡ tree_hash second.now }
    ensures { OrCollision (first.now ≡ second.now) result }
{
    if first.len() == 1 {
        return None;
    }
    let part = split_len(first.len());
    let (left, right) = first.split_at(part);
    let (other_left, other_right) = second.split_at(part);
    if let Some(pair) = over_same(
        &tree_hash(left),
        &tree_hash(right),
        &tree_hash(other_left),
        &tree_hash(other_right),
    ) {
        return Some(pair);
    }
    if let Some(pair) = same_trees(left, other_left) {
        return Some(pair);
    }
    same_trees(right, other_right)
}

/// The trees of a list of leaves and of one that is as long or longer, of which a proof gives both hashes.
pub fn grown_apart(
    first: &[Sha256Hash],
    second: &[Sha256Hash],
    whole: bool,
    hashes: &[Sha256Hash],
    root: &Sha256Hash,
) -> Option<NodePair>
    requires some { 0 < length first.now }
    requires grown { length first.now ≤ length second.now }
    requires roots { GivesBoth first.now second.now whole hashes.now root.now }
    ensures { OrCollision (IsPrefix first.now second.now) result }
{
    if first.len() == second.len() {
        return same_trees(first, second);
    }
    let (hash, others) = hashes.split_last()?;
    let part = split_len(second.len());
    let (left, right) = second.split_at(part);
    if first.len() <= part {
        let (_, newer) = roots_of(first.len() as u64, part as u64, whole, others, root)?;
        if let Some(pair) = over_same(&newer, hash, &tree_hash(left), &tree_hash(right)) {
            return Some(pair);
        }
        return grown_apart(first, left, whole, others, root);
    }
    let (first_left, first_right) = first.split_at(part);
    let sizes = (first_right.len() as u64, right.len() as u64);
    let (older, newer) = roots_of(sizes.0, sizes.1, false, others, root)?;
    if let Some(pair) = over_same(
        hash,
        &older,
        &tree_hash(first_left),
        &tree_hash(first_right),
    ) {
        return Some(pair);
    }
    if let Some(pair) = over_same(hash, &newer, &tree_hash(left), &tree_hash(right)) {
        return Some(pair);
    }
    if let Some(pair) = same_trees(first_left, left) {
        return Some(pair);
    }
    grown_apart(first_right, right, false, others, root)
}
