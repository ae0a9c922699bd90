//! A caller of `sigstore_rekor`.
use foundation::NoMemory;
use sigstore_entries::{KindVersion, TransparencyLogEntry};
use sigstore_keys::sha256;
use sigstore_rekor::{Error, Request, read_entry, search_by_hash};
use std::alloc::Global;

/// The question which entries the log has of an artifact.
pub fn asked_for(alloc: Global, artifact: &[u8]) -> Result<Request, NoMemory> {
    search_by_hash(alloc, &sha256(artifact))
}

/// The entry that an answer tells, as a bundle has it; none where it makes no bundle's entry.
pub fn entry_told(
    alloc: Global,
    status: u16,
    body: &[u8],
    kind: KindVersion,
) -> Result<Option<TransparencyLogEntry>, Error> {
    let entry = read_entry(alloc, status, body)?;
    match entry.to_bundle_entry(alloc, kind) {
        Ok(entry) => Ok(Some(entry)),
        Err(_) => Ok(None),
    }
}
