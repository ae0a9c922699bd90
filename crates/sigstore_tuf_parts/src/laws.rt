// Laws of the definitions. A call does nothing.
ghost use Rattle.std.specs.Prelude.{codes};
ghost use Rattle.sigstore_tuf_parts.specs.Laws.{MeetsExactly, IntactExactly, FreshExactly, FitsExactly, TellsValues, TellsDocuments, TellsContents, ReadsWithCause, MeetsWithCause, IntactWithCause, FreshWithCause};
ghost use Rattle.sigstore_tuf_parts.specs.Root.{root_of};
ghost use Rattle.sigstore_tuf_parts.specs.Timestamp.{timestamp_of};
ghost use Rattle.sigstore_tuf_parts.specs.Snapshot.{snapshot_of};
ghost use Rattle.sigstore_tuf_parts.specs.Targets.{targets_of};

/// The checks of a threshold fail nowhere exactly where the document meets the role.
pub fn meets_exactly<T>()
    ensures { MeetsExactly T }
{}

/// The checks of lengths and digests, of an expiry and of a pattern's segment hold exactly where the
/// relations of a pinned file, a fresh document and a fitting text do.
pub fn relations_exactly()
    ensures intact { IntactExactly }
    ensures fresh { FreshExactly }
    ensures fits { FitsExactly }
{}

/// Equal canonical texts are of equal values, documents that were read and have one text have one
/// `signed`, and documents of one kind that have one text have one content; `to_canonical_bytes` takes no
/// other values than those of the law, and each document that `Metadata::from_slice` gives is of such a
/// one.
pub fn canonical_text_tells()
    ensures values { TellsValues }
    ensures documents { TellsDocuments }
    ensures root { TellsContents (codes "root") root_of }
    ensures timestamp { TellsContents (codes "timestamp") timestamp_of }
    ensures snapshot { TellsContents (codes "snapshot") snapshot_of }
    ensures targets { TellsContents (codes "targets") targets_of }
{}

/// Bytes that aren't read as a root, timestamp, snapshot or targets document have the cause of their
/// refusal.
pub fn readings_have_causes()
    ensures root { ReadsWithCause (codes "root") root_of }
    ensures timestamp { ReadsWithCause (codes "timestamp") timestamp_of }
    ensures snapshot { ReadsWithCause (codes "snapshot") snapshot_of }
    ensures targets { ReadsWithCause (codes "targets") targets_of }
{}

/// A document that doesn't meet a role has the cause of its refusal.
pub fn roles_have_causes<T>()
    ensures { MeetsWithCause T }
{}

/// A file that isn't the pinned one, and a document that is expired, have the cause of their refusal.
pub fn pins_have_causes()
    ensures intact { IntactWithCause }
    ensures fresh { FreshWithCause }
{}
