// Two climbs at once.
ghost use Rattle.std.specs.Prelude.{◌≡◌, length};
ghost use Rattle.sigstore_merkle.specs.Climb.{node_at};
ghost use Rattle.sigstore_merkle.specs.Differing.{differing_above, higher_of, inputs_of_pair, is_same, pair_of};

use crate::hashing::copied;
use crate::side::{Side, node_at};
use sigstore_types_parts::Sha256Hash;

/// What was hashed at two nodes: on each a hash and its sibling, which stands on one side.
#[derive(Debug, PartialEq, Eq, Drop)]
pub struct NodePair {
    pub side: Side,
    pub a: Sha256Hash,
    pub a_sibling: Sha256Hash,
    pub b: Sha256Hash,
    pub b_sibling: Sha256Hash,
}

/// Two climbs by the same sides: the hashes so far, and what was hashed at the highest two nodes
/// that differ.
#[derive(Drop)]
pub struct Together {
    pub a: Sha256Hash,
    pub b: Sha256Hash,
    pub differing: Option<NodePair>,
}

/// Whether the same was hashed at both nodes.
fn are_same(pair: &NodePair) -> bool
    requires { length pair.now.a ≡ length pair.now.b }
    ensures { result ≡ is_same (inputs_of_pair pair.now) }
{
    pair.a == pair.b && pair.a_sibling == pair.b_sibling
}

/// The higher nodes where they differ, else the lower ones.
fn higher(pair: NodePair, lower: Option<NodePair>) -> Option<NodePair>
    requires { length pair.a ≡ length pair.b }
    ensures { pair_of result ≡ higher_of (inputs_of_pair pair) (pair_of lower) }
{
    if are_same(&pair) { lower } else { Some(pair) }
}

impl Together {
    /// Goes up one level on both paths.
    pub fn rise(&mut self, side: Side, a_sibling: &Sha256Hash, b_sibling: &Sha256Hash)
        requires { length self.old.a ≡ length self.old.b }
        ensures a { self.new.a ≡ node_at side self.old.a a_sibling.now }
        ensures b { self.new.b ≡ node_at side self.old.b b_sibling.now }
        ensures differing { pair_of self.new.differing ≡ differing_above side self.old a_sibling.now b_sibling.now }
    {
        let pair = NodePair {
            side,
            a: copied(&self.a),
            a_sibling: copied(a_sibling),
            b: copied(&self.b),
            b_sibling: copied(b_sibling),
        };
        let lower = self.differing.take();
        self.differing = higher(pair, lower);
        self.a = node_at(side, &self.a, a_sibling);
        self.b = node_at(side, &self.b, b_sibling);
    }
}
