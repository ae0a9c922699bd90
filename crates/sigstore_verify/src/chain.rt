// The chain of documents that authorises the trust file, from a pinned root.
ghost use Rattle.std.specs.Prelude.{◌≡◌, ℕ, List, Ok};
ghost use Rattle.sigstore_tuf_rules.specs.Update.{first_root_of};
ghost use Rattle.sigstore_tuf_rules.specs.Authorised.{crypto_in};
ghost use Rattle.sigstore_verify.specs.FromRoot.{GivesChain};
ghost use Rattle.sigstore_verify.specs.Inputs.{anchor_by, anchor_with, places_by};
ghost use Rattle.sigstore_verify.specs.Promises.{PromisesChain};

use crate::anchor::Anchor;
use jiff::Timestamp;
use sigstore_keys::CryptoProvider;
use sigstore_tuf::{
    MetadataStore, Repository, TrustChain, TrustedMetadataSet, UpdaterConfig, attach_parts,
    get_target_parts, refresh_parts,
};
use sigstore_types_parts::Armor;
use std::alloc::Global;

/// The target that is the trusted root.
pub const TRUST_PATH: &str = "trusted_root.json";

// The chain of documents that authorises the trust file, by a client that begins with this first root.
fn chain_by<C: CryptoProvider, M: Armor, R: Repository, S: MetadataStore>(
    alloc: Global,
    set: &mut TrustedMetadataSet<'_, C, M>,
    repo: &mut R,
    store: &mut S,
    config: &UpdaterConfig,
    now: Timestamp,
) -> Result<TrustChain, sigstore_tuf_parts::Error>
    ensures { let crypto = crypto_in C.CryptoProvider M.Armor set.old in
        (root : List ℕ) → first_root_of crypto root ≡ Ok set.old.documents
        → GivesChain (anchor_by crypto root config.now now)
        (R.seen repo.old) (R.seen repo.new) (S.seen store.old) (S.seen store.new) result }
{
    if let Err(e) = attach_parts(alloc, set, store) {
        return Err(e);
    }
    if let Err(e) = refresh_parts(alloc, set, repo, store, config, now) {
        return Err(e);
    }
    match get_target_parts(alloc, set, repo, store, config, TRUST_PATH, now) {
        Ok(chain) => Ok(chain),
        Err(e) => Err(e),
    }
}

// The chain of documents that authorises the trust file.
fn trust_chain<C: CryptoProvider, M: Armor, R: Repository, S: MetadataStore>(
    alloc: Global,
    anchor: &Anchor<'_, C, M>,
    repo: &mut R,
    store: &mut S,
) -> Result<TrustChain, sigstore_tuf_parts::Error>
    ensures { GivesChain (anchor_with C.CryptoProvider M.Armor anchor.entry.now)
        (R.seen repo.old) (R.seen repo.new) (S.seen store.old) (S.seen store.new) result }
{
    match TrustedMetadataSet::from_root(
        alloc,
        anchor.providers.provider,
        anchor.providers.armor,
        anchor.root,
    ) {
        Ok(mut set) => {
            let given = chain_by(alloc, &mut set, repo, store, &anchor.config, anchor.now);
            drop(set);
            given
        }
        Err(e) => Err(e),
    }
}

/// The chain of documents that authorises the trust file `trusted_root.json`, from a pinned TUF root: begins a
/// client with that root and the store's next ones, refreshes it, and gets that target (TUF specification,
/// section 5). Errors are those of the first of these that refuses. The store is a cache: nothing that it has is
/// believed unsigned, and a fault of it is none.
pub fn chain_from_root<R: Repository, S: MetadataStore, C: CryptoProvider, M: Armor>(
    alloc: Global,
    anchor: &Anchor<'_, C, M>,
    repo: &mut R,
    store: &mut S,
) -> Result<TrustChain, sigstore_tuf_parts::Error>
    ensures { PromisesChain (anchor_with C.CryptoProvider M.Armor anchor.entry.now) (places_by (R.seen repo.old) (S.seen store.old))
        (places_by (R.seen repo.new) (S.seen store.new)) result }
{
    trust_chain(alloc, anchor, repo, store)
}
