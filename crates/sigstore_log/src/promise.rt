// What a log promised of an entry.
ghost use Rattle.std.specs.Prelude.{◌≡◌, ◌≢◌, Ok, Err, Option, IfOk, IfErr, MatchResult, IfSome, option_copied};
ghost use Rattle.sigstore_entries.specs.Promise.{payload_of};
ghost use Rattle.sigstore_log.specs.Promise.{id_of, key_of, is_promised, promise_of, tells_time, is_past_or_now, time_judged, told_time, promise_judged};

use crate::error::LogError;
use jiff::Timestamp;
use sigstore_entries::{KindVersion, TransparencyLogEntry, promise_payload};
use sigstore_keys::{CryptoProvider, Keyring, VerificationKey};
use sigstore_types_parts::{LogKeyId, Sha256Hash, SignatureBytes, SignedTimestamp, at_second};
use std::alloc::Global;

fn log_id(id: &LogKeyId) -> Result<Sha256Hash, LogError>
    ensures { result ≡ id_of id.now }
{
    match Sha256Hash::try_from(id.as_bytes()) {
        Ok(id) => Ok(id),
        Err(_) => Err(LogError::MalformedEntry),
    }
}

// The key of the log that promised.
fn promise_key<'k>(
    logs: &'k Keyring,
    now: Timestamp,
    id: &Sha256Hash,
    time: Option<i64>,
) -> Result<&'k VerificationKey, LogError>
    ensures { MatchResult result (λ key. key_of logs.now now id.now time ≡ Ok key.now) (λ e. key_of logs.now now id.now time ≡ Err e) }
{
    match time {
        Some(second) => match logs.key_at(id, at_second(second)) {
            Some(key) => Ok(key),
            None => Err(LogError::InclusionPromise),
        },
        None => match logs.key_started_by(id, now) {
            Some(key) => Ok(key),
            None => Err(LogError::UnknownLog {
                log_id: Sha256Hash::new(*id.as_array()),
            }),
        },
    }
}

// Whether the promise is good over the entry's payload.
fn is_promised<C: CryptoProvider>(
    alloc: Global,
    provider: &C,
    key: &VerificationKey,
    entry: &TransparencyLogEntry,
    promise: &SignedTimestamp,
) -> Result<bool, LogError>
    ensures { MatchResult result (λ b. b ≡ is_promised (C.accepts provider.now) key.now (payload_of entry.now) promise.now) (λ e. e ≡ LogError.NoMemory) }
{
    match promise_payload(alloc, entry)? {
        Some(payload) => {
            let signature = SignatureBytes::from_bytes(alloc, promise.as_bytes())?;
            Ok(key.verify(provider, payload.as_bytes(), &signature).is_ok())
        }
        None => Ok(false),
    }
}

// A promise of the log, the entry's own: else anyone could say when it was logged.
#[tactic(auto, unfolding(crate::specs::Promise::promise_of))]
fn check_log<C: CryptoProvider>(
    alloc: Global,
    provider: &C,
    logs: &Keyring,
    now: Timestamp,
    entry: &TransparencyLogEntry,
    promise: &SignedTimestamp,
) -> Result<(), LogError>
    ensures ok { IfOk result (λ x. promise_of (C.accepts provider.now) logs.now now entry.now promise.now ≡ Ok x) }
    ensures err { IfErr result (λ e. e ≢ LogError.NoMemory → promise_of (C.accepts provider.now) logs.now now entry.now promise.now ≡ Err e) }
{
    let id = log_id(&entry.log_id.key_id)?;
    let key = promise_key(logs, now, &id, entry.integrated_time)?;
    if is_promised(alloc, provider, key, entry, promise)? {
        Ok(())
    } else {
        Err(LogError::InclusionPromise)
    }
}

/// Whether the promise of an entry of this kind tells when it was logged.
pub fn tells_time(kind: KindVersion) -> bool
    ensures { result ≡ tells_time kind }
{
    match kind {
        KindVersion::HashedRekordV001 => true,
        KindVersion::HashedRekordV002 => false,
        KindVersion::DsseV001 => true,
        KindVersion::DsseV002 => false,
        KindVersion::IntotoV002 => true,
    }
}

fn is_past_or_now(now: Timestamp, time: Option<i64>) -> bool
    ensures { result ≡ is_past_or_now now time }
{
    match time {
        Some(second) => at_second(second) <= now,
        None => true,
    }
}

// A time that the log promised isn't after now.
fn check_time(now: Timestamp, entry: &TransparencyLogEntry) -> Result<(), LogError>
    ensures { result ≡ time_judged now entry.now }
{
    if tells_time(entry.kind_version) && !is_past_or_now(now, entry.integrated_time) {
        Err(LogError::IntegratedTime)
    } else {
        Ok(())
    }
}

/// The time that an entry's promise tells: when it was logged, to the second. None where the entry brings no promise
/// or no time, or where promises of its kind tell none.
pub fn told_time(entry: &TransparencyLogEntry) -> Option<Timestamp>
    ensures { result ≡ told_time entry.now }
{
    if entry.inclusion_promise.is_none() || !tells_time(entry.kind_version) {
        return None;
    }
    match entry.integrated_time {
        Some(second) => Some(at_second(second)),
        None => None,
    }
}

/// What the log promised of an entry, where it did: the time that the promise tells, as `told_time`. Errors, in order:
/// `MalformedEntry` for a log id that isn't of 32 bytes; where the promise has a time, `InclusionPromise` where no key
/// of that log is used at it, and else `UnknownLog` where the log isn't trusted or hasn't started by now;
/// `InclusionPromise` for a signature that isn't good; `IntegratedTime` for a time after now.
pub fn judge_promise<C: CryptoProvider>(
    alloc: Global,
    provider: &C,
    logs: &Keyring,
    now: Timestamp,
    entry: &TransparencyLogEntry,
) -> Result<Option<Timestamp>, LogError>
    ensures ok { IfOk result (λ time. promise_judged (C.accepts provider.now) logs.now now entry.now entry.now.inclusion_promise ≡ Ok time) }
    ensures err { IfErr result (λ e. e ≢ LogError.NoMemory → promise_judged (C.accepts provider.now) logs.now now entry.now entry.now.inclusion_promise ≡ Err e) }
{
    match &entry.inclusion_promise {
        Some(promise) => {
            check_log(alloc, provider, logs, now, entry, promise)?;
            check_time(now, entry)?;
            Ok(told_time(entry))
        }
        None => Ok(None),
    }
}
