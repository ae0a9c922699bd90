// What the rows of tables mean, and the tests that try them.
use crate::inclusion_data::{DIFFERENCES, MANY, PAIRS, REFERENCE, ROOTS, SHAPES, WORDS};
use crate::tables::{
    copied, good, halves, hexadecimal, hold, number, numbered, place, string, there,
};
use foundation::{NoMemory, Sequence};
use sigstore_merkle::{
    Collision, Difference, Inclusion, MerkleError, NodePair, Side, extract_collision, hash_leaf,
    hash_node, one_root_one_leaf, verify_inclusion_proof,
};
use sigstore_types_parts::{Bytes, Hash, Sha256Hash};
use std::process::Abort;

/// Octets.
fn octets<X: AllocGlobal + Abort>(rt: &X, word: &str) -> Bytes {
    let word = if word == "-" { "" } else { word };
    Bytes::from_vec(good(rt, hex::decode(rt.alloc(), word)))
}

/// A hash: of 64 digits, or of 32 octets of two.
pub fn hash<X: Abort>(rt: &X, word: &str) -> Sha256Hash {
    if word.len() == 2 {
        return Hash::new([good(rt, u8::from_str_radix(word, 16)); 32]);
    }
    let mut all = [0u8; 32];
    good(rt, hex::decode_to_slice(word, &mut all));
    Hash::new(all)
}

/// A path.
pub fn path<X: AllocGlobal + Abort>(rt: &X, word: &str) -> Sequence<Sha256Hash> {
    let mut hashes = Sequence::new(rt.alloc());
    for word in word.split(',') {
        if word != "-" {
            good(rt, hashes.push(hash(rt, word)));
        }
    }
    hashes
}

/// A leaf in its tree.
fn inclusion<X: AllocGlobal + Abort>(rt: &X, words: &str) -> Inclusion {
    let (body, words) = halves(rt, words, " ");
    let (index, words) = halves(rt, words, " ");
    let (size, hashes) = halves(rt, words, " ");
    Inclusion {
        body: octets(rt, body),
        index: number(rt, index),
        size: number(rt, size),
        hashes: path(rt, hashes),
    }
}

/// A hash in hexadecimal.
pub fn shown<X: AllocGlobal + Abort>(rt: &X, hash: &Sha256Hash) -> String {
    hexadecimal(rt, hash.as_bytes())
}

/// Two numbers, each behind a blank.
fn two<X: AllocGlobal + Abort>(rt: &X, first: u64, second: u64) -> String {
    good(rt, format!(in rt.alloc(); " {first} {second}"))
}

/// A refusal's fields.
fn fields<X: AllocGlobal + Abort>(rt: &X, error: &MerkleError) -> String {
    match error {
        MerkleError::IndexOutOfTree { index, size } => two(rt, *index, *size),
        MerkleError::PathLength { expected, actual } => two(rt, *expected as u64, *actual as u64),
        MerkleError::RootMismatch { computed } => {
            let computed = shown(rt, computed);
            good(rt, format!(in rt.alloc(); " {computed}"))
        }
        MerkleError::NoMemory => string(rt, ""),
    }
}

/// A refusal's number, text and fields.
fn refusal<X: AllocGlobal + Abort>(rt: &X, error: MerkleError) -> String {
    let fields = fields(rt, &error);
    let mut told = numbered(rt, error.number(), error);
    good(rt, told.push_str(fields.as_str()));
    told
}

/// The judgement of a leaf under a root.
fn verified<X: AllocGlobal + Abort>(rt: &X, words: &str) -> String {
    let (words, root) = there(rt, words.rsplit_once(" "));
    let leaf = inclusion(rt, words);
    let judged = judged(&leaf, &hash(rt, root));
    drop(leaf);
    match judged {
        Ok(()) => string(rt, "accepted"),
        Err(error) => refusal(rt, error),
    }
}

fn judged(leaf: &Inclusion, root: &Sha256Hash) -> Result<(), MerkleError> {
    verify_inclusion_proof(
        &hash_leaf(leaf.body.as_bytes()),
        leaf.index,
        leaf.size,
        leaf.hashes.as_slice(),
        root,
    )
}

/// What two inclusions show; copies of them show the same.
fn collided<X: AllocGlobal + Abort>(rt: &X, words: &str) -> String {
    let (a, b) = halves(rt, words, " / ");
    let (copy, b) = (copied(rt, inclusion(rt, a)), inclusion(rt, b));
    let collision = extract_collision(rt.alloc(), &copy, &b);
    drop(copy);
    drop(b);
    found(rt, collision)
}

/// What an inclusion shows beside itself, where it has a root: by the law nothing.
fn collided_alone<X: AllocGlobal + Abort>(rt: &X, words: &str) -> String {
    let leaf = inclusion(rt, words);
    let collision = extract_collision(rt.alloc(), &leaf, &leaf);
    if collision.is_ok() {
        one_root_one_leaf(&leaf, &leaf);
    }
    drop(leaf);
    found(rt, collision)
}

fn found<X: AllocGlobal + Abort>(
    rt: &X,
    collision: Result<Option<Collision>, MerkleError>,
) -> String {
    match collision {
        Ok(Some(_)) => string(rt, "a collision"),
        Ok(None) => string(rt, "none"),
        Err(error) => refusal(rt, error),
    }
}

/// Two nodes, each of a hash and its sibling, which stands on this side.
fn pair<X: Abort>(rt: &X, side: Side, a: &str, b: &str) -> NodePair {
    let ((a, a_sibling), (b, b_sibling)) = (halves(rt, a, " "), halves(rt, b, " "));
    NodePair {
        side,
        a: hash(rt, a),
        a_sibling: hash(rt, a_sibling),
        b: hash(rt, b),
        b_sibling: hash(rt, b_sibling),
    }
}

/// What was hashed where two inclusions differ: in two nodes, or in the leaves of two bodies.
fn hashed<X: AllocGlobal + Abort>(rt: &X, words: &str) -> String {
    let (word, words) = halves(rt, words, " ");
    let (a, b) = halves(rt, words, " / ");
    let (nodes, a, b) = match word {
        "left" => (Some(pair(rt, Side::Left, a, b)), "", ""),
        "right" => (Some(pair(rt, Side::Right, a, b)), "", ""),
        _ => (None, a, b),
    };
    let (a, b) = (octets(rt, a), octets(rt, b));
    let difference = Difference { nodes };
    both(
        rt,
        good(
            rt,
            difference.hashed(rt.alloc(), a.as_bytes(), b.as_bytes()),
        ),
    )
}

fn both<X: AllocGlobal + Abort>(rt: &X, collision: Collision) -> String {
    let left = hexadecimal(rt, collision.left.as_bytes());
    let right = hexadecimal(rt, collision.right.as_bytes());
    good(rt, format!(in rt.alloc(); "{left} {right}"))
}

/// The hash of two.
fn node<X: AllocGlobal + Abort>(rt: &X, words: &str) -> String {
    let (left, right) = halves(rt, words, " ");
    shown(rt, &hash_node(&hash(rt, left), &hash(rt, right)))
}

/// The answer of a call that is given words.
pub fn answer<X: AllocGlobal + Abort>(rt: &X, given: &str) -> String {
    let (call, words) = halves(rt, given, " ");
    match place(call, "verify collide alone leaf node memory hashed") {
        0 => verified(rt, words),
        1 => collided(rt, words),
        2 => collided_alone(rt, words),
        3 => shown(rt, &hash_leaf(octets(rt, words).as_bytes())),
        4 => node(rt, words),
        5 => refusal(rt, MerkleError::from(NoMemory)),
        6 => hashed(rt, words),
        _ => string(rt, "no call"),
    }
}

#[test]
fn proofs_are_judged_as_the_tree_says(rt: HostRuntime) {
    hold(&rt, "inclusion", REFERENCE);
    hold(&rt, "inclusion", MANY);
    hold(&rt, "inclusion", ROOTS);
    hold(&rt, "inclusion", SHAPES);
    hold(&rt, "inclusion", WORDS);
    hold(&rt, "inclusion", PAIRS);
    hold(&rt, "inclusion", DIFFERENCES);
}

#[test]
fn collisions_are_copied(rt: HostRuntime) {
    let pair = Collision {
        left: octets(&rt, "61"),
        right: octets(&rt, "62"),
    };
    drop(copied(&rt, pair));
}
