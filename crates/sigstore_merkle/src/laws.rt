// Laws of the tree's words.
ghost use Rattle.std.specs.Prelude.{◌≡◌, ℕ, ◌*◌, ◌^◌, ◌<◌, ◌≤◌};
ghost use Rattle.sigstore_merkle.specs.Tree.{split};
ghost use Rattle.sigstore_merkle.specs.Collision.{HasRoot, IsOnePlace, root_of, OneOrCollision};

use crate::collision::Inclusion;

/// A tree of more than one leaf is split at the largest power of two below its size (RFC 6962,
/// section 2.1).
pub fn split_is_largest(size: u64)
    requires { 1 < size }
    ensures power { (height : ℕ) × (split size ≡ 2 ^ height) }
    ensures below { split size < size }
    ensures largest { size ≤ 2 * split size }
{
    let _ = size;
}

/// Two inclusions at one place with one root have one body and one path, or show a collision.
pub fn one_root_one_leaf(a: &Inclusion, b: &Inclusion)
    requires place { IsOnePlace a.now b.now }
    requires rooted { HasRoot a.now }
    requires root { root_of a.now ≡ root_of b.now }
    ensures { OneOrCollision a.now b.now }
{
    let _index = a.index;
    let _size = a.size;
}
