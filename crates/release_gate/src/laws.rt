// Laws of the definitions. A call does nothing.
ghost use Rattle.release_gate.specs.Lines.{LinesAreOne};
ghost use Rattle.release_gate.specs.Verdict.{AdmitsExactly};

/// The law of lines: of one map of files there is one list of lines, in whatever order a folder lists them.
pub fn lines_are_one()
    ensures { LinesAreOne }
{}

/// The law of admission, told without any order of checks: an artifact is admitted exactly where the bundle under its own
/// name is there, has at most 16 MiB and is read, the artifact is within the limit, and that bundle is accepted over its
/// bytes under the policy of some rule. No other file of the folder makes a difference.
pub fn admits_exactly()
    ensures { AdmitsExactly }
{}
