//! A caller of `sigstore_log`.
use jiff::Timestamp;
use sigstore_entries::TransparencyLogEntry;
use sigstore_keys::{CryptoProvider, DistinctIds, Error, Keyring, VerificationKey, sha256};
use sigstore_log::{LogError, judge_entry};
use sigstore_types_parts::DerPublicKey;
use std::alloc::Global;

/// The logs that are trusted, each under the SHA-256 value of its key in DER.
pub fn logs_of(alloc: Global, keys: &[DerPublicKey]) -> Result<Keyring, Error> {
    let mut logs = Keyring::new(alloc);
    for spki in keys {
        let key = VerificationKey::from_spki(alloc, spki)?;
        logs.add_key(sha256(spki.as_bytes()), key)?;
    }
    Ok(logs)
}

/// In how many different ones of the logs these entries stand; the first that isn't logged is refused.
pub fn count_logs<C: CryptoProvider>(
    alloc: Global,
    provider: &C,
    logs: &Keyring,
    now: Timestamp,
    entries: &[TransparencyLogEntry],
) -> Result<u64, LogError> {
    let mut signed = DistinctIds::new(alloc);
    for entry in entries {
        let shown = judge_entry(alloc, provider, logs, now, entry)?;
        signed.add(alloc, shown.log.as_bytes())?;
    }
    Ok(signed.count())
}
