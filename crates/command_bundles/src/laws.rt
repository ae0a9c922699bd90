// Laws of the definitions. A call does nothing.
ghost use Rattle.command_bundles.specs.Laws.{FirstExactly, VerdictsOverBytes};

/// The law of a list: the bundle that is told is exactly the first that is accepted, and refusals are told exactly where all
/// bundles are refused, each with its own and the number of its line.
pub fn first_bundle_exactly()
    ensures { FirstExactly }
{}

/// The law of one reading: over the digests that are taken once for all bundles, the verdict on each is the one that a run
/// on this bundle alone gives over the artifact's bytes.
pub fn verdicts_over_bytes()
    ensures { VerdictsOverBytes }
{}
