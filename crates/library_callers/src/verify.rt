//! A caller of `sigstore_verify`.
use jiff::Timestamp;
use sigstore_keys::{ArtifactSource, CryptoProvider, Providers};
use sigstore_tuf::{MetadataStore, Repository, UpdaterConfig};
use sigstore_types_parts::{Armor, DerPublicKey};
use sigstore_verify::{
    Acceptance, Anchor, Asked, PublicKeyVerificationPolicy, RootFault, verify_from_root,
};
use std::alloc::Global;

/// A pinned root, from which all else is trusted at a moment.
pub fn pinned<'a, C: CryptoProvider, M: Armor>(
    provider: &'a C,
    armor: &'a M,
    root: &'a [u8],
    now: Timestamp,
) -> Anchor<'a, C, M> {
    Anchor {
        providers: Providers { provider, armor },
        root,
        config: UpdaterConfig::default(),
        now,
    }
}

/// Verifies a release's bundle from a pinned root, under the key of the one who releases.
pub fn verify_release<
    R: Repository,
    S: MetadataStore,
    A: ArtifactSource,
    C: CryptoProvider,
    M: Armor,
>(
    alloc: Global,
    anchor: &Anchor<'_, C, M>,
    repo: &mut R,
    store: &mut S,
    bundle: &[u8],
    artifact: &mut A,
    key: DerPublicKey,
) -> Result<Acceptance, RootFault> {
    let policy = PublicKeyVerificationPolicy::new(key).skip_tlog_unsafe();
    let asked = Asked {
        bundle,
        max_artifact: 1_000_000_000,
        policy: &policy,
    };
    verify_from_root(alloc, anchor, repo, store, artifact, &asked)
}
