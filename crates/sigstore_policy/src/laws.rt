// Laws of the definitions. A call does nothing.
ghost use Rattle.sigstore_policy.specs.Pattern.{FitsExactly};

/// Pieces of a pattern fit a text exactly where it falls into parts, one for each piece, which stands for it.
pub fn fits_exactly()
    ensures { FitsExactly }
{}
