// Laws of the definitions. A call does nothing.
ghost use Rattle.sigstore_tsa_parts.specs.NoBoth.{NoBoth};

/// No bytes are both a time-stamp response and a ContentInfo: the two readings of a bundle's token can't disagree.
pub fn response_is_no_content_info()
    ensures { NoBoth }
{}
