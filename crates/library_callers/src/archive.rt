//! A caller of `trust_archive`.
use jiff::Timestamp;
use sigstore_keys::{CryptoProvider, Providers};
use sigstore_tuf::TrustChain;
use sigstore_types_parts::{Armor, Bytes};
use std::alloc::Global;
use trust_archive::{ArchiveError, ArchiveTerms, read_archive, write_archive};

/// What a site that has a repository hands on to one that has none.
pub fn hand_on(alloc: Global, chain: &TrustChain) -> Result<Bytes, ArchiveError> {
    write_archive(alloc, chain)
}

/// The trust file in an archive, at the moment of whoever opens it, from the root that they trust themselves.
pub fn trust_file<C: CryptoProvider, M: Armor>(
    alloc: Global,
    providers: &Providers<'_, C, M>,
    root: &[u8],
    now: Timestamp,
    archive: &[u8],
) -> Result<Bytes, ArchiveError> {
    let terms = ArchiveTerms {
        root,
        path: "trusted_root.json",
        max_delegations: 32,
        moment: now,
    };
    let chain = read_archive(alloc, providers, &terms, archive)?;
    let TrustChain { file, .. } = chain;
    Ok(file)
}
