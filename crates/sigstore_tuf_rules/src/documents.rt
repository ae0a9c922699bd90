// The documents in force.

use foundation::Sequence;
use sigstore_tuf_parts::{Metadata, Root, Snapshot, Targets, Timestamp};
use sigstore_types_parts::{Bytes, TextMap};

/// A document that was adopted, with the bytes that it was read of.
#[derive(Drop)]
pub struct Held<T> {
    pub bytes: Bytes,
    pub document: Metadata<T>,
}

/// The documents in force: the roots' bytes from the given root on, the last root, the timestamp and the
/// snapshot where they are there, and the targets documents by their roles.
#[derive(Drop)]
pub struct InForce {
    pub roots: Sequence<Bytes>,
    pub root: Metadata<Root>,
    pub timestamp: Option<Held<Timestamp>>,
    pub snapshot: Option<Held<Snapshot>>,
    pub targets: TextMap<Held<Targets>>,
}
