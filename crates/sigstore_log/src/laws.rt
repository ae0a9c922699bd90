// Laws of the definitions. A call does nothing.
ghost use Rattle.sigstore_log.specs.Cause.{RefusalsHaveCauses};
ghost use Rattle.sigstore_log.specs.Logged.{LoggedExactly, SignerExactly};
ghost use Rattle.sigstore_log.specs.OnePlace.{OnePlaceOneBody};

/// The law of logged entries: the judgement accepts exactly those that are logged, told without any order of
/// checks, and gives the time that the promise of each tells.
pub fn logged_exactly()
    ensures { LoggedExactly }
{}

/// The law of places: two entries that are logged at one place have one body, or show two different byte strings
/// with one SHA-256 value, which `sigstore_merkle::extract_collision` gives.
pub fn one_place_one_body()
    ensures { OnePlaceOneBody }
{}

/// The law of signers: the log of a checkpoint is, of those that signed it, the one of the least id.
pub fn signer_exactly()
    ensures { SignerExactly }
{}

/// The law of refusals: each comes only where its cause holds of the entry.
pub fn refusals_have_causes()
    ensures { RefusalsHaveCauses }
{}
