// What a client adopts.

/// A document that a client adopts: the next root, of this number; the timestamp; the snapshot; or the
/// top-level targets document.
#[derive(Clone, Copy, Debug, PartialEq, Eq, Drop)]
pub enum Kind {
    Root(u64),
    Timestamp,
    Snapshot,
    Targets,
}
