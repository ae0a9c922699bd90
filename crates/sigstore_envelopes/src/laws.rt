// Laws of the definitions. A call does nothing.
ghost use Rattle.sigstore_envelopes.specs.Laws.{EncodingsAreDistinct, EnvelopesAreReadAgain};

/// The law of encodings: no two pairs of a type and a payload have the same one.
pub fn encodings_are_distinct()
    ensures { EncodingsAreDistinct }
{}

/// The law of envelopes: one that is read is read again where it is written.
pub fn envelopes_are_read_again()
    ensures { EnvelopesAreReadAgain }
{}
