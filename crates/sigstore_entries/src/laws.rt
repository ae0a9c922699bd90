// Laws of the definitions. A call does nothing.
ghost use Rattle.sigstore_entries.specs.Laws.{CheckpointsAreParted, EnvelopesAreKept, EntriesAreReadAgain};

/// The law of checkpoints: a text that is read as one is kept, and is what is signed, an empty line and the
/// signature lines.
pub fn checkpoints_are_parted()
    ensures { CheckpointsAreParted }
{}

/// The law of envelopes: what is kept is the text that was read.
pub fn envelopes_are_kept()
    ensures { EnvelopesAreKept }
{}

/// The law of entries: one that is read is read again where it is written.
pub fn entries_are_read_again()
    ensures { EntriesAreReadAgain }
{}
