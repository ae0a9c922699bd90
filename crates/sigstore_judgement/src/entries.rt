// The entries of a bundle under the logs that are trusted, and what they say of the bundle.
ghost use Rattle.std.specs.Prelude.{◌≡◌, ◌≢◌, Some, Ok, Err, IfOk, IfErr, OnOk, filter_map};
ghost use Rattle.sigstore_types.specs.Bundle.{entries_in};
ghost use Rattle.sigstore_keys.specs.Distinct.{with_id, each_once, is_enough};
ghost use Rattle.sigstore_log.specs.Entry.{logged_of, log_of};
ghost use Rattle.sigstore_judgement.specs.Artifact.{digest_had};
ghost use Rattle.sigstore_binding.specs.Described.{describes_of};
ghost use Rattle.sigstore_binding.specs.Rows.{signed_as};
ghost use Rattle.sigstore_binding.specs.Verifier.{readings_by, signatory_as};
ghost use Rattle.sigstore_judgement.specs.Entries.{is_valid_at, timely_of, entry_judged_of, with_time, behind, entries_judged_of, log_judged_of, log_count_of, logs_judged_of, each_described_of, entries_described_of};
ghost use Rattle.sigstore_judgement.specs.Error.{error_of_log, error_of_binding, by_log, by_binding};
ghost use Rattle.sigstore_judgement.specs.Opened.{content_as};
ghost use Rattle.sigstore_judgement.specs.Grounds.{grounds_by};
ghost use Rattle.sigstore_judgement.specs.Signer.{signer_as};

use crate::artifact::KnownArtifact;
use crate::content::{Opened, signed_in};
use crate::error::{Error, TransparencyLogError};
use crate::grounds::Grounds;
use crate::signing::{Signing, validity_of};
use foundation::{NoMemory, Sequence};
use jiff::Timestamp;
use sigstore_binding::{BindingError, Signed, SignedBy, describe_entry};
use sigstore_entries::TransparencyLogEntry;
use sigstore_keys::{CryptoProvider, DistinctIds, Threshold};
use sigstore_log::{EntryEvidence, LogError, judge_entry};
use sigstore_types::Bundle;
use sigstore_types_parts::Armor;
use std::alloc::Global;

// What a refusal of an entry is of its bundle.
pub(crate) fn refused(fault: LogError) -> Error
    ensures { result ≡ error_of_log fault }
{
    match fault {
        LogError::InclusionProof => Error::TransparencyLog(TransparencyLogError::InclusionProof),
        LogError::Checkpoint => Error::TransparencyLog(TransparencyLogError::Checkpoint),
        LogError::MalformedEntry => Error::TransparencyLog(TransparencyLogError::MalformedEntry),
        LogError::UnknownLog { log_id } => {
            Error::TransparencyLog(TransparencyLogError::UnknownLog { log_id })
        }
        LogError::InclusionPromise => {
            Error::TransparencyLog(TransparencyLogError::InclusionPromise)
        }
        LogError::IntegratedTime => Error::TransparencyLog(TransparencyLogError::IntegratedTime),
        LogError::NoMemory => Error::NoMemory,
    }
}

fn is_valid_at(signer: &Signing<'_>, time: Timestamp) -> bool
    ensures { result ≡ is_valid_at (signer_as signer.now) time }
{
    match signer {
        Signing::Managed(_) => true,
        Signing::Certified(owner) => validity_of(&owner.info).contains(time),
    }
}

// A time that a log promised is one at which the signer's certificate was valid: who found its key later could
// still sign.
fn check_timely(signer: &Signing<'_>, time: Option<Timestamp>) -> Result<Option<Timestamp>, Error>
    ensures { result ≡ timely_of (signer_as signer.now) time }
{
    match time {
        Some(time) => {
            if is_valid_at(signer, time) {
                Ok(Some(time))
            } else {
                Err(Error::TransparencyLog(TransparencyLogError::IntegratedTime))
            }
        }
        None => Ok(None),
    }
}

// What an entry shows, where it is logged.
fn check_logged<C: CryptoProvider, M: Armor>(
    alloc: Global,
    grounds: &Grounds<'_, C, M>,
    entry: &TransparencyLogEntry,
) -> Result<EntryEvidence, Error>
    ensures ok { IfOk result (λ shown. by_log (logged_of (C.accepts grounds.now.provider.now) grounds.now.material.now.logs grounds.now.moment entry.now)
        ≡ Ok shown.time) }
    ensures log { IfOk result (λ shown. log_of (C.accepts grounds.now.provider.now) grounds.now.material.now.logs grounds.now.moment entry.now
        ≡ Some shown.log) }
    ensures err { IfErr result (λ e. e ≢ Error.NoMemory →
        by_log (logged_of (C.accepts grounds.now.provider.now) grounds.now.material.now.logs grounds.now.moment entry.now) ≡ Err e) }
{
    match judge_entry(
        alloc,
        grounds.provider,
        &grounds.material.logs,
        grounds.moment,
        entry,
    ) {
        Ok(shown) => Ok(shown),
        Err(fault) => Err(refused(fault)),
    }
}

// And whether the time that its log promised is one of the signer's.
fn check_entry<C: CryptoProvider, M: Armor>(
    alloc: Global,
    grounds: &Grounds<'_, C, M>,
    signer: &Signing<'_>,
    entry: &TransparencyLogEntry,
) -> Result<EntryEvidence, Error>
    ensures ok { IfOk result (λ shown. entry_judged_of (grounds_by C.CryptoProvider M.Armor grounds.now) (signer_as signer.now) entry.now ≡ Ok shown.time) }
    ensures log { IfOk result (λ shown. log_of (C.accepts grounds.now.provider.now) grounds.now.material.now.logs grounds.now.moment entry.now
        ≡ Some shown.log) }
    ensures err { IfErr result (λ e. e ≢ Error.NoMemory →
        entry_judged_of (grounds_by C.CryptoProvider M.Armor grounds.now) (signer_as signer.now) entry.now ≡ Err e) }
{
    let shown = check_logged(alloc, grounds, entry)?;
    check_timely(signer, shown.time)?;
    Ok(shown)
}

pub(crate) fn add_time(
    time: Option<Timestamp>,
    times: &mut Sequence<Timestamp>,
) -> Result<(), NoMemory>
    ensures { OnOk result (times.new ≡ with_time time times.old) }
{
    if let Some(time) = time {
        times.push(time)?;
    }
    Ok(())
}

// Each entry has to be logged: a good one doesn't cover for one that is made up.
#[tactic(auto, using(crate::proofs::Behind::behind_one, crate::proofs::Behind::behind_all, crate::proofs::Behind::one_more))]
fn check_entries<C: CryptoProvider, M: Armor>(
    alloc: Global,
    grounds: &Grounds<'_, C, M>,
    signer: &Signing<'_>,
    entries: &[TransparencyLogEntry],
    times: &mut Sequence<Timestamp>,
    logs: &mut DistinctIds,
) -> Result<(), Error>
    ensures logs { OnOk result (logs.new.ids ≡ each_once logs.old.ids
        (filter_map (log_of (C.accepts grounds.now.provider.now) grounds.now.material.now.logs grounds.now.moment) entries.now)) }
    ensures ok { OnOk result (behind times.old (entries_judged_of (grounds_by C.CryptoProvider M.Armor grounds.now) (signer_as signer.now) entries.now)
        ≡ Ok times.new) }
    ensures err { IfErr result (λ e. e ≢ Error.NoMemory →
        behind times.old (entries_judged_of (grounds_by C.CryptoProvider M.Armor grounds.now) (signer_as signer.now) entries.now) ≡ Err e) }
{
    'entries: for entry in entries {
        let shown = check_entry(alloc, grounds, signer, entry)?;
        add_time(shown.time, times)?;
        logs.add(alloc, shown.log.as_bytes())?;
    }
    Ok(())
}

/// What the entries of a bundle show.
#[derive(Drop)]
pub(crate) struct LogEvidence {
    /// The times that logs promised, in the entries' order.
    pub(crate) times: Sequence<Timestamp>,
    /// In how many different logs the entries stand.
    pub(crate) count: u64,
}

/// Where the log is to be verified, whether each entry is logged by the trusted logs at this moment, at a time of the
/// signer's, and what they show. Errors: those of the first entry that isn't.
#[tactic(auto, using(crate::proofs::Behind::behind_nothing))]
pub(crate) fn check_log<C: CryptoProvider, M: Armor>(
    alloc: Global,
    grounds: &Grounds<'_, C, M>,
    signer: &Signing<'_>,
    verify_tlog: bool,
    entries: &[TransparencyLogEntry],
) -> Result<LogEvidence, Error>
    ensures ok { IfOk result (λ shown. log_judged_of (grounds_by C.CryptoProvider M.Armor grounds.now) (signer_as signer.now) verify_tlog entries.now
        ≡ Ok shown.times) }
    ensures count { IfOk result (λ shown. shown.count ≡ log_count_of (grounds_by C.CryptoProvider M.Armor grounds.now) verify_tlog entries.now) }
    ensures err { IfErr result (λ e. e ≢ Error.NoMemory →
        log_judged_of (grounds_by C.CryptoProvider M.Armor grounds.now) (signer_as signer.now) verify_tlog entries.now ≡ Err e) }
{
    let mut times = Sequence::new(alloc);
    let mut logs = DistinctIds::new(alloc);
    if verify_tlog {
        check_entries(alloc, grounds, signer, entries, &mut times, &mut logs)?;
    }
    let count = logs.count();
    Ok(LogEvidence { times, count })
}

/// Where the log is to be verified, whether the entries stand in as many different logs as are asked for. Errors:
/// `TooFewLogs`.
pub(crate) fn check_log_count(verify_tlog: bool, asked: Threshold, found: u64) -> Result<(), Error>
    ensures { result ≡ logs_judged_of verify_tlog asked found }
{
    if verify_tlog && !asked.is_met_by(found) {
        Err(Error::TooFewLogs {
            asked: asked.number(),
            found,
        })
    } else {
        Ok(())
    }
}

// What a refusal of what an entry says is of its bundle.
fn refused_description(fault: BindingError) -> Error
    ensures { result ≡ error_of_binding fault }
{
    match fault {
        BindingError::Unsupported => Error::UnsupportedBundle,
        BindingError::MalformedEntry => {
            Error::TransparencyLog(TransparencyLogError::MalformedEntry)
        }
        BindingError::ArtifactMismatch => Error::ArtifactMismatch,
        BindingError::EntryMismatch => Error::TransparencyLog(TransparencyLogError::EntryMismatch),
        BindingError::IntegratedTime => {
            Error::TransparencyLog(TransparencyLogError::IntegratedTime)
        }
        BindingError::NoMemory => Error::NoMemory,
    }
}

// An entry is of who signed, of what they signed and of the signature.
fn check_entry_described<M: Armor>(
    alloc: Global,
    armor: &M,
    who: SignedBy<'_>,
    signed: Signed<'_>,
    entry: &TransparencyLogEntry,
) -> Result<(), Error>
    ensures ok { IfOk result (λ x. by_binding (describes_of (readings_by M.Armor armor.now) (signatory_as who.entry) (signed_as signed.entry) entry.now)
        ≡ Ok x) }
    ensures err { IfErr result (λ e. e ≢ Error.NoMemory →
        by_binding (describes_of (readings_by M.Armor armor.now) (signatory_as who.entry) (signed_as signed.entry) entry.now) ≡ Err e) }
{
    match describe_entry(alloc, armor, who, signed, entry) {
        Ok(()) => Ok(()),
        Err(fault) => Err(refused_description(fault)),
    }
}

// Each entry is; a good one doesn't cover for one that is another's.
fn check_each_described<M: Armor>(
    alloc: Global,
    armor: &M,
    who: SignedBy<'_>,
    signed: Signed<'_>,
    entries: &[TransparencyLogEntry],
) -> Result<(), Error>
    ensures ok { IfOk result (λ x. each_described_of (readings_by M.Armor armor.now) (signatory_as who.entry) (signed_as signed.entry) entries.now ≡ Ok x) }
    ensures err { IfErr result (λ e. e ≢ Error.NoMemory →
        each_described_of (readings_by M.Armor armor.now) (signatory_as who.entry) (signed_as signed.entry) entries.now ≡ Err e) }
{
    'entries: for entry in entries {
        check_entry_described(alloc, armor, who, signed, entry)?;
    }
    Ok(())
}

/// Whether each entry is of this bundle: an entry of another signature doesn't count as this one's. Errors, of the
/// first that isn't: `UnsupportedBundle`, `TransparencyLog` with `MalformedEntry`, `EntryMismatch` or `IntegratedTime`,
/// `ArtifactMismatch`.
pub(crate) fn check_described<C: CryptoProvider, M: Armor>(
    alloc: Global,
    grounds: &Grounds<'_, C, M>,
    signer: &Signing<'_>,
    bundle: &Bundle,
    opened: &Opened<'_>,
    had: &KnownArtifact<'_>,
) -> Result<(), Error>
    requires same { content_as opened.now ≡ bundle.now.content }
    ensures ok { IfOk result (λ x. entries_described_of (grounds_by C.CryptoProvider M.Armor grounds.now) (signer_as signer.now) bundle.now
        (digest_had had.now) (entries_in bundle.now) ≡ Ok x) }
    ensures err { IfErr result (λ e. e ≢ Error.NoMemory →
        entries_described_of (grounds_by C.CryptoProvider M.Armor grounds.now) (signer_as signer.now) bundle.now (digest_had had.now) (entries_in bundle.now)
        ≡ Err e) }
{
    let entries = bundle.verification_material.tlog_entries.as_slice();
    let signed = signed_in(opened, had);
    match signer {
        Signing::Managed(policy) => {
            let who = SignedBy::Key(&policy.key);
            check_each_described(alloc, grounds.armor, who, signed, entries)
        }
        Signing::Certified(owner) => {
            let validity = validity_of(&owner.info);
            let who = SignedBy::Certificate {
                certificate: owner.certificate,
                key: &owner.info.public_key,
                validity: &validity,
            };
            check_each_described(alloc, grounds.armor, who, signed, entries)
        }
    }
}
