// The collision that two inclusions at one place with one root and different bodies show.
ghost use Rattle.std.specs.Prelude.{◌≡◌, ◌≢◌, ◌↔◌, IsTrue, IfOk, OnOk, IfErr, ◌<◌, length};
ghost use Rattle.sigstore_merkle.specs.Tree.{IsPathLength, leaf_input};
ghost use Rattle.sigstore_merkle.specs.Climb.{input_at};
ghost use Rattle.sigstore_merkle.specs.Collision.{IsComparable, HasRoot, IsCollisionAnswer, IsDifferenceAnswer, CollisionFault, DifferAtFirst, hashed_at};

use crate::error::MerkleError;
use crate::hashing::hash_leaf;
use crate::shape::check_shape;
use crate::side::{Side, side_at};
use crate::together::{NodePair, Together};
use foundation::{Duplicate, NoMemory, Sequence};
use sigstore_types_parts::{Bytes, Sha256Hash};
use std::alloc::Global;

/// A leaf's body with its place in a tree and its path.
#[derive(PartialEq, Drop)]
pub struct Inclusion {
    /// What the leaf is the hash of, behind its octet 00.
    pub body: Bytes,
    /// The leaf's index in the tree, counted from 0.
    pub index: u64,
    /// The number of leaves of the tree.
    pub size: u64,
    /// The siblings' hashes from the leaf up (RFC 6962, section 2.1.1).
    pub hashes: Sequence<Sha256Hash>,
}

/// Two byte strings; what `extract_collision` gives are two different ones with one SHA-256 value.
#[derive(Debug, PartialEq, Eq, Drop)]
pub struct Collision {
    pub left: Bytes,
    pub right: Bytes,
}

impl Duplicate for Inclusion {
    fn duplicate(&self, alloc: Global) -> Result<Inclusion, NoMemory> {
        Ok(Inclusion {
            body: self.body.duplicate(alloc)?,
            index: self.index,
            size: self.size,
            hashes: self.hashes.duplicate(alloc)?,
        })
    }
}

impl Duplicate for Collision {
    fn duplicate(&self, alloc: Global) -> Result<Collision, NoMemory> {
        Ok(Collision {
            left: self.left.duplicate(alloc)?,
            right: self.right.duplicate(alloc)?,
        })
    }
}

/// Whether two inclusions are at one index of trees of one size and have different bodies.
fn are_comparable(a: &Inclusion, b: &Inclusion) -> bool
    ensures { IsTrue result ↔ IsComparable a.now b.now }
{
    a.index == b.index && a.size == b.size && a.body != b.body
}

/// The two roots, and the inputs of the highest nodes that differ.
fn climbed_together(a: &Inclusion, b: &Inclusion) -> Together
    requires comparable { IsComparable a.now b.now }
    requires inside { a.now.index < a.now.size }
    requires fits_a { IsPathLength a.now.index a.now.size (length a.now.hashes) }
    requires fits_b { IsPathLength b.now.index b.now.size (length b.now.hashes) }
    ensures { DifferAtFirst a.now b.now result }
{
    let a_hashes = a.hashes.as_slice();
    let b_hashes = b.hashes.as_slice();
    let mut climb = Together {
        a: hash_leaf(a.body.as_bytes()),
        b: hash_leaf(b.body.as_bytes()),
        differing: None,
    };
    let mut next = 0usize;
    let mut at = a.index;
    let mut last = a.size - 1;
    'levels: while last > 0 {
        if let Some(side) = side_at(at, last) {
            climb.rise(side, &a_hashes[next], &b_hashes[next]);
            next += 1;
        }
        at /= 2;
        last /= 2;
    }
    climb
}

/// Where two inclusions with one root differ first on the way down from it: in these nodes, or, where there are
/// none, in the leaves.
#[derive(Debug, PartialEq, Eq, Drop)]
pub struct Difference {
    /// The highest nodes in which the paths differ.
    pub nodes: Option<NodePair>,
}

impl Difference {
    /// What was hashed there for two inclusions with these bodies.
    pub fn hashed(&self, alloc: Global, a: &[u8], b: &[u8]) -> Result<Collision, NoMemory>
        ensures { IfOk result (λ c. c ≡ hashed_at a.now b.now self.now) }
    {
        match &self.nodes {
            Some(pair) => Ok(Collision {
                left: node_bytes(alloc, pair.side, &pair.a, &pair.a_sibling)?,
                right: node_bytes(alloc, pair.side, &pair.b, &pair.b_sibling)?,
            }),
            None => Ok(Collision {
                left: leaf_bytes(alloc, a)?,
                right: leaf_bytes(alloc, b)?,
            }),
        }
    }
}

/// What is hashed for a leaf.
fn leaf_bytes(alloc: Global, body: &[u8]) -> Result<Bytes, NoMemory>
    ensures { IfOk result (λ bytes. bytes ≡ leaf_input body.now) }
{
    let mut bytes = Vec::new(alloc);
    bytes.push(0u8)?;
    bytes.extend_from_slice(body)?;
    Ok(Bytes::from_vec(bytes))
}

/// What is hashed for the node above a hash and its sibling.
fn node_bytes(
    alloc: Global,
    side: Side,
    computed: &Sha256Hash,
    sibling: &Sha256Hash,
) -> Result<Bytes, NoMemory>
    ensures { IfOk result (λ bytes. bytes ≡ input_at side computed.now sibling.now) }
{
    let (left, right) = match side {
        Side::Left => (sibling, computed),
        Side::Right => (computed, sibling),
    };
    let mut bytes = Vec::new(alloc);
    bytes.push(1u8)?;
    bytes.extend_from_slice(left.as_bytes())?;
    bytes.extend_from_slice(right.as_bytes())?;
    Ok(Bytes::from_vec(bytes))
}

/// Where two inclusions with one index, size and root and different bodies differ: what was hashed there is two
/// different byte strings with one SHA-256 value. None in every other case, also for equal bodies, whatever
/// their paths. So who shows two bodies at one place of one tree has shown a break of SHA-256, and without the
/// comparison of roots two honest trees would pass for one. No memory is taken.
/// Errors, in order: `IndexOutOfTree` and `PathLength` for the first inclusion, then for the second.
pub fn find_difference(a: &Inclusion, b: &Inclusion) -> Result<Option<Difference>, MerkleError>
    ensures found { IfOk result (IsDifferenceAnswer a.now b.now) }
    ensures rooted { OnOk result (HasRoot a.now) }
    ensures rooted_too { OnOk result (HasRoot b.now) }
    ensures refused { IfErr result (λ e. (e ≢ MerkleError.NoMemory) × CollisionFault a.now b.now e) }
{
    check_shape(a.index, a.size, a.hashes.len())?;
    check_shape(b.index, b.size, b.hashes.len())?;
    if !are_comparable(a, b) {
        return Ok(None);
    }
    let climb = climbed_together(a, b);
    if climb.a != climb.b {
        return Ok(None);
    }
    let Together { differing, .. } = climb;
    Ok(Some(Difference { nodes: differing }))
}

/// What was hashed where two inclusions differ (`find_difference`): two different byte strings with one SHA-256
/// value, or none. Errors: as there, then `NoMemory`.
pub fn extract_collision(
    alloc: Global,
    a: &Inclusion,
    b: &Inclusion,
) -> Result<Option<Collision>, MerkleError>
    ensures found { IfOk result (IsCollisionAnswer a.now b.now) }
    ensures rooted { OnOk result (HasRoot a.now) }
    ensures rooted_too { OnOk result (HasRoot b.now) }
    ensures refused { IfErr result (CollisionFault a.now b.now) }
{
    match find_difference(a, b)? {
        Some(difference) => {
            let collision = difference.hashed(alloc, a.body.as_bytes(), b.body.as_bytes());
            drop(difference);
            Ok(Some(collision?))
        }
        None => Ok(None),
    }
}
