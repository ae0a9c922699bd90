// Laws of the definitions. A call does nothing.
ghost use Rattle.sigstore_rekor.specs.ReadAgain.{EnvelopesAreRead, HashedRekordsAreRead, DsseEntriesAreRead, HashedRekordsV2AreRead, SearchesAreRead};
ghost use Rattle.sigstore_rekor.specs.TilePath.{PathsAreDistinct};

/// The law of tile paths: different pairs of an index and a width have different paths.
pub fn paths_are_distinct()
    ensures { PathsAreDistinct }
{}

/// The law of requests: each body is read as the value that it is to send.
pub fn bodies_are_read()
    ensures envelopes { EnvelopesAreRead }
    ensures hashed_rekords { HashedRekordsAreRead }
    ensures dsse_entries { DsseEntriesAreRead }
    ensures hashed_rekords_v2 { HashedRekordsV2AreRead }
    ensures searches { SearchesAreRead }
{}
