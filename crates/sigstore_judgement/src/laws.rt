// Laws of the definitions. A call does nothing.
ghost use Rattle.sigstore_judgement.specs.Accepts.{AcceptsExactly};
ghost use Rattle.sigstore_judgement.specs.Agree.{BlobAgrees};
ghost use Rattle.sigstore_judgement.specs.OneLog.{OneLogSuffices};
ghost use Rattle.sigstore_judgement.specs.Rules.{FirstExactly};
ghost use Rattle.sigstore_judgement.specs.UnderRules.{OneRule};
ghost use Rattle.sigstore_judgement.specs.Unlogged.{LogRefusals};
ghost use Rattle.sigstore_judgement.specs.Usable.{UsableExactly};

/// The judgement accepts exactly the bundles that are to be accepted, whoever signed them.
pub fn accepts_exactly()
    ensures { AcceptsExactly }
{}

/// The law of blobs and readers: over the same bytes they get one answer, but where the reader's is that
/// the scheme signs the bytes themselves.
pub fn blob_and_reader_agree()
    ensures { BlobAgrees }
{}

/// The law of rules: the number that is given is exactly that of the first rule that accepts, and the refusals are given
/// exactly where all rules refuse, each with its own.
pub fn first_exactly()
    ensures { FirstExactly }
{}

/// The law of refusals of the log: each comes only where an entry of the bundle isn't logged, its promise isn't its
/// log's, the promised time isn't the certificate's, or it isn't of the bundle's signature, and names why.
pub fn log_refusals_have_causes()
    ensures { LogRefusals }
{}

/// The law of one log: where one log is asked for and each entry is logged, the number of logs refuses nothing.
pub fn one_log_suffices()
    ensures { OneLogSuffices }
{}

/// The law of one rule: the verdict under one rule is the verdict under its policy alone.
pub fn one_rule()
    ensures { OneRule }
{}

/// A verifier is made of exactly the trust files that are usable, told without any order of checks: each
/// log's id has 32 bytes and stands once among the logs of its kind, no window is reversed, each log's key is
/// read, no authority's chain is empty, and each certificate in it is read and has no name constraints.
pub fn usable_exactly()
    ensures { UsableExactly }
{}
