// The tree over leaves, with each leaf's path (RFC 6962, section 2.1).
ghost use Rattle.std.specs.Prelude.{◌≡◌, ◌<◌, ◌≤◌, ◌^◌, ◌*◌, ◌++◌, ◌∷◌, [], ℕ, List, map, length, IfOk, OnOk};
ghost use Rattle.sigstore_merkle.specs.Tree.{node_hash};
ghost use Rattle.sigstore_merkle.specs.Whole.{IsTree, with_sibling};

use crate::hashing::hash_node;
use foundation::{Duplicate, NoMemory, Sequence};
use sigstore_types_parts::Sha256Hash;
use std::alloc::Global;

/// The root of a tree, and each leaf's path, which begins at the leaf.
#[derive(Drop)]
pub struct Tree {
    pub root: Sha256Hash,
    pub paths: Sequence<Sequence<Sha256Hash>>,
}

// The largest power of two below a number of leaves.
fn split(size: usize) -> usize
    requires { 1 < size }
    ensures power { (height : ℕ) × (result ≡ 2 ^ height) }
    ensures below { result < size }
    ensures largest { size ≤ 2 * result }
{
    let mut part = 1;
    'doubled: while part < size - part {
        part += part;
    }
    part
}

// Adds a sibling at the end of each path.
fn add_sibling(
    alloc: Global,
    paths: Sequence<Sequence<Sha256Hash>>,
    sibling: &Sha256Hash,
) -> Result<Sequence<Sequence<Sha256Hash>>, NoMemory>
    ensures { IfOk result (λ longer. longer ≡ map (with_sibling sibling.now) paths) }
{
    let mut longer = Sequence::new(alloc);
    'paths: for mut path in paths.into_vec() {
        path.push(sibling.duplicate(alloc)?)?;
        longer.push(path)?;
    }
    Ok(longer)
}

// Adds paths behind others.
fn append(
    front: &mut Sequence<Sequence<Sha256Hash>>,
    back: Sequence<Sequence<Sha256Hash>>,
) -> Result<(), NoMemory>
    ensures { OnOk result (front.new ≡ front.old ++ back) }
{
    'paths: for path in back.into_vec() {
        front.push(path)?;
    }
    Ok(())
}

// The tree of two parts.
fn join(alloc: Global, left: Tree, right: Tree) -> Result<Tree, NoMemory>
    ensures root { IfOk result (λ tree. tree.root ≡ node_hash left.root right.root) }
    ensures paths { IfOk result (λ tree.
        tree.paths ≡ map (with_sibling right.root) left.paths ++ map (with_sibling left.root) right.paths) }
{
    let root = hash_node(&left.root, &right.root);
    let mut paths = add_sibling(alloc, left.paths, &right.root)?;
    let others = add_sibling(alloc, right.paths, &left.root)?;
    append(&mut paths, others)?;
    Ok(Tree { root, paths })
}

fn lone(alloc: Global, leaf: &Sha256Hash) -> Result<Tree, NoMemory>
    ensures root { IfOk result (λ tree. tree.root ≡ leaf.now) }
    ensures paths { IfOk result (λ tree. tree.paths ≡ [] ∷ []) }
{
    let mut paths = Sequence::new(alloc);
    paths.push(Sequence::new(alloc))?;
    Ok(Tree {
        root: leaf.duplicate(alloc)?,
        paths,
    })
}

/// The tree over the hashes of leaves, of which there is one at least. Each part's hash is taken once, so that a tree costs
/// one hash a node.
pub fn build_tree(alloc: Global, leaves: &[Sha256Hash]) -> Result<Tree, NoMemory>
    requires { 0 < length leaves.now }
    ensures { IfOk result (λ tree. IsTree leaves.now tree.root tree.paths) }
{
    if let [leaf] = leaves {
        return lone(alloc, leaf);
    }
    let (left, right) = leaves.split_at(split(leaves.len()));
    let left = build_tree(alloc, left)?;
    let right = build_tree(alloc, right)?;
    join(alloc, left, right)
}
