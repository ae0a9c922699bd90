// Laws of the definitions. A call does nothing.
ghost use Rattle.sigstore_types.specs.Laws.{BundlesAreReadAgain};

/// The law of bundles: one that is read is read again where it is written.
pub fn bundles_are_read_again()
    ensures { BundlesAreReadAgain }
{}
