// The times at which a signature is verified to have been there.
ghost use Rattle.std.specs.Prelude.{◌≡◌, ◌≢◌, Ok, Err, IfOk, IfErr, OnOk};
ghost use Rattle.sigstore_types.specs.Bundle.{tokens_in};
ghost use Rattle.sigstore_log.specs.Promise.{promise_judged, told_time};
ghost use Rattle.sigstore_judgement.specs.Entries.{with_time, behind};
ghost use Rattle.sigstore_judgement.specs.Error.{by_log};
ghost use Rattle.sigstore_judgement.specs.Content.{signature_in};
ghost use Rattle.sigstore_judgement.specs.Grounds.{grounds_by};
ghost use Rattle.sigstore_judgement.specs.Parties.{authorities_of};
ghost use Rattle.sigstore_judgement.specs.Verified.{promised_of, promises_judged_of, some_time, verified_of};

use crate::content::signature_in;
use crate::entries::{add_time, refused};
use crate::error::{Error, TimestampError};
use crate::evidence::joined;
use crate::grounds::Grounds;
use crate::tokens::{TimeEvidence, check_tokens};
use foundation::Sequence;
use jiff::Timestamp;
use sigstore_entries::TransparencyLogEntry;
use sigstore_keys::CryptoProvider;
use sigstore_log::{judge_promise, told_time};
use sigstore_types::Bundle;
use sigstore_types_parts::Armor;
use std::alloc::Global;

// What the promise of an entry tells, where it is its log's.
fn check_told<C: CryptoProvider, M: Armor>(
    alloc: Global,
    grounds: &Grounds<'_, C, M>,
    entry: &TransparencyLogEntry,
) -> Result<Option<Timestamp>, Error>
    ensures ok { IfOk result (λ time. by_log (promise_judged (C.accepts grounds.now.provider.now) grounds.now.material.now.logs grounds.now.moment entry.now
        entry.now.inclusion_promise) ≡ Ok time) }
    ensures err { IfErr result (λ e. e ≢ Error.NoMemory →
        by_log (promise_judged (C.accepts grounds.now.provider.now) grounds.now.material.now.logs grounds.now.moment entry.now entry.now.inclusion_promise)
        ≡ Err e) }
{
    match judge_promise(
        alloc,
        grounds.provider,
        &grounds.material.logs,
        grounds.moment,
        entry,
    ) {
        Ok(time) => Ok(time),
        Err(fault) => Err(refused(fault)),
    }
}

// The time that an entry's promise tells: else whoever wrote the bundle chose when it was signed.
fn check_promise<C: CryptoProvider, M: Armor>(
    alloc: Global,
    grounds: &Grounds<'_, C, M>,
    entry: &TransparencyLogEntry,
) -> Result<Option<Timestamp>, Error>
    ensures ok { IfOk result (λ time. promised_of (grounds_by C.CryptoProvider M.Armor grounds.now) entry.now ≡ Ok time) }
    ensures err { IfErr result (λ e. e ≢ Error.NoMemory → promised_of (grounds_by C.CryptoProvider M.Armor grounds.now) entry.now ≡ Err e) }
{
    match told_time(entry) {
        Some(_) => check_told(alloc, grounds, entry),
        None => Ok(None),
    }
}

// The times that promises tell. Errors: those of the first that isn't its log's.
#[tactic(auto, using(crate::proofs::Behind::behind_one, crate::proofs::Behind::behind_all, crate::proofs::Behind::behind_nothing))]
fn check_promises<C: CryptoProvider, M: Armor>(
    alloc: Global,
    grounds: &Grounds<'_, C, M>,
    entries: &[TransparencyLogEntry],
) -> Result<Sequence<Timestamp>, Error>
    ensures ok { IfOk result (λ times. promises_judged_of (grounds_by C.CryptoProvider M.Armor grounds.now) entries.now ≡ Ok times) }
    ensures err { IfErr result (λ e. e ≢ Error.NoMemory → promises_judged_of (grounds_by C.CryptoProvider M.Armor grounds.now) entries.now ≡ Err e) }
{
    let mut times = Sequence::new(alloc);
    'entries: for entry in entries {
        let time = check_promise(alloc, grounds, entry)?;
        add_time(time, &mut times)?;
    }
    Ok(times)
}

// Without a verified time nothing says that the certificate was valid when it signed.
fn some_time(times: Sequence<Timestamp>) -> Result<Sequence<Timestamp>, Error>
    ensures { result ≡ some_time times }
{
    if times.is_empty() {
        Err(Error::Timestamp(TimestampError::NoVerifiedTimestamp))
    } else {
        Ok(times)
    }
}

/// The verified times: those of the tokens, then those that logs promised; and whose the tokens are. Errors, in order: those of `check_tokens`;
/// `TransparencyLog` for the first promise that tells a time and isn't its log's, with `MalformedEntry`,
/// `InclusionPromise` or `IntegratedTime`; `Timestamp` with `NoVerifiedTimestamp` where there is none.
#[tactic(auto, unfolding(crate::specs::Verified::verified_of))]
pub(crate) fn verified_times<C: CryptoProvider, M: Armor>(
    alloc: Global,
    grounds: &Grounds<'_, C, M>,
    bundle: &Bundle,
) -> Result<TimeEvidence, Error>
    ensures ok { IfOk result (λ shown. verified_of (grounds_by C.CryptoProvider M.Armor grounds.now) bundle.now ≡ Ok shown.times) }
    ensures authorities { IfOk result (λ shown. shown.authorities.ids
        ≡ authorities_of (grounds_by C.CryptoProvider M.Armor grounds.now) (signature_in bundle.now.content) (tokens_in bundle.now)) }
    ensures err { IfErr result (λ e. e ≢ Error.NoMemory → verified_of (grounds_by C.CryptoProvider M.Armor grounds.now) bundle.now ≡ Err e) }
{
    let tokens = bundle.verification_material.rfc3161_timestamps.as_slice();
    let stamped = check_tokens(alloc, grounds, signature_in(&bundle.content), tokens)?;
    let entries = bundle.verification_material.tlog_entries.as_slice();
    let promised = check_promises(alloc, grounds, entries)?;
    let TimeEvidence { times, authorities } = stamped;
    let times = some_time(joined(times, promised.as_slice())?)?;
    Ok(TimeEvidence { times, authorities })
}
