//! A caller of `sigstore_tuf`.
use jiff::Timestamp;
use sigstore_keys::CryptoProvider;
use sigstore_tuf::{Error, MetadataStore, Repository, Updater};
use sigstore_types_parts::{Armor, Bytes};
use sigstore_verify::Anchor;
use std::alloc::Global;

fn file_by<C: CryptoProvider, M: Armor, R: Repository, S: MetadataStore>(
    alloc: Global,
    client: &mut Updater<'_, C, M, R, S>,
    path: &str,
    now: Timestamp,
) -> Result<Bytes, Error> {
    client.refresh(alloc, now)?;
    client.get_target(alloc, path, now)
}

/// The newest file of a target in a repository, trusted from this root on; the store keeps what was adopted.
pub fn newest_file<C: CryptoProvider, M: Armor, R: Repository, S: MetadataStore>(
    alloc: Global,
    anchor: &Anchor<'_, C, M>,
    repo: &mut R,
    store: &mut S,
    path: &str,
) -> Result<Bytes, Error> {
    let (provider, armor) = (anchor.providers.provider, anchor.providers.armor);
    let client = Updater::<C, M, R, S>::new(alloc, provider, armor, repo, anchor.root)?;
    let mut client = client.with_store(alloc, store)?;
    let file = file_by(alloc, &mut client, path, anchor.now);
    drop(client);
    file
}
