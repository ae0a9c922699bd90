// The steps of a client's calls.

use sigstore_tuf_rules::Kind;

/// A step of a client's call; the first that refuses answers.
#[derive(Clone, Copy, Debug, PartialEq, Eq, Drop)]
pub enum Step {
    /// Next roots of the repository are adopted, until one is absent.
    WalkRoots,
    /// The root in force isn't expired.
    CheckRoot,
    /// The store's document of the kind is put in force, unless one is there or it is refused.
    Seed(Kind),
    /// The repository's document of the kind is put in force, unless the one that is there serves.
    Fetch(Kind),
    /// The timestamp in force pins the snapshot, and isn't expired.
    CheckTimestamp,
    /// The snapshot in force isn't expired, and pins the targets document.
    CheckSnapshot,
}
