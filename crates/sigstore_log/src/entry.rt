// Whether an entry counts as logged.
ghost use Rattle.std.specs.Prelude.{◌≡◌, ◌≢◌, Some, Ok, Err, IfOk, IfErr};
ghost use Rattle.sigstore_log.specs.Entry.{logged_of, log_of};

use crate::checkpoint::check_checkpoint;
use crate::error::LogError;
use crate::inclusion::check_inclusion;
use crate::promise::judge_promise;
use jiff::Timestamp;
use sigstore_entries::{InclusionProof, TransparencyLogEntry};
use sigstore_keys::{CryptoProvider, Keyring};
use sigstore_types_parts::Sha256Hash;
use std::alloc::Global;

/// What an entry that is logged shows: the id of the log that signed its checkpoint, the least where several did, and the
/// time that its promise tells, as `told_time`.
#[derive(Drop)]
pub struct EntryEvidence {
    pub log: Sha256Hash,
    pub time: Option<Timestamp>,
}

/// Whether an entry counts as logged by one of these logs, at this moment, and what it then shows. Errors, in order:
/// `InclusionProof` where there is no proof; `Checkpoint` for an entry of hashedrekord 0.0.2 without a checkpoint;
/// `InclusionProof` where the proof doesn't lead to the root; `Checkpoint` where the proof has no checkpoint of its tree
/// that one of the logs signed; and those of `judge_promise`: `MalformedEntry`, `UnknownLog`, `InclusionPromise` and
/// `IntegratedTime`.
#[tactic(auto, unfolding(crate::specs::Entry::logged_of))]
pub fn judge_entry<C: CryptoProvider>(
    alloc: Global,
    provider: &C,
    logs: &Keyring,
    now: Timestamp,
    entry: &TransparencyLogEntry,
) -> Result<EntryEvidence, LogError>
    ensures ok { IfOk result (λ shown. logged_of (C.accepts provider.now) logs.now now entry.now ≡ Ok shown.time) }
    ensures log { IfOk result (λ shown. log_of (C.accepts provider.now) logs.now now entry.now ≡ Some shown.log) }
    ensures err { IfErr result (λ e. e ≢ LogError.NoMemory → logged_of (C.accepts provider.now) logs.now now entry.now ≡ Err e) }
{
    let Some(proof) = &entry.inclusion_proof else {
        return Err(LogError::InclusionProof);
    };
    check_inclusion(entry, proof)?;
    let log = check_checkpoint(provider, logs, now, entry.kind_version, proof)?;
    match judge_promise(alloc, provider, logs, now, entry) {
        Ok(time) => Ok(EntryEvidence { log, time }),
        Err(refusal) => Err(refusal),
    }
}
