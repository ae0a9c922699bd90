// A repository over a store.
ghost use Rattle.std.specs.Prelude.{◌≡◌, option_map};
ghost use Rattle.foundation.specs.Watched.{Watched, IfTold};
ghost use Rattle.sigstore_tuf_outside.specs.Repository.{Folders, Files, Fetches};
ghost use Rattle.sigstore_tuf_outside.specs.Store.{Loads, HoldsNoBadName};
ghost use Rattle.sigstore_tuf_rules.specs.Names.{kept_target};
ghost use Rattle.sigstore_tuf.specs.StoreRepository.{folders_over, FetchesLoaded};

use sigstore_tuf_outside::{FetchFault, MetadataStore, Repository, StoreFault};
use sigstore_tuf_rules::kept_target;
use sigstore_types_parts::Bytes;
use std::alloc::Global;

/// The files of a store as a repository: a document under its name, a target under `targets/` and its
/// path. Under a bad name nothing is there. So a site without a network verifies from what an earlier
/// client stored, or from a folder that was carried in.
#[derive(Drop)]
pub struct StoreRepository<S: MetadataStore> {
    store: S,
}

impl<S: MetadataStore> StoreRepository<S> {
    /// The repository over this store.
    pub fn new(store: S) -> StoreRepository<S>
        ensures store { result.store ≡ store }
    {
        StoreRepository { store }
    }
}

// What a load says of a file that may be so long.
fn within(loaded: Result<Option<Bytes>, StoreFault>, max: u64) -> Result<Option<Bytes>, FetchFault>
    ensures { FetchesLoaded loaded max result }
{
    match loaded {
        Ok(Some(bytes)) => {
            let seen = bytes.as_bytes().len() as u64;
            if seen > max {
                return Err(FetchFault::TooLong { seen });
            }
            Ok(Some(bytes))
        }
        Ok(None) => Ok(None),
        Err(StoreFault::BadName) => Ok(None),
        Err(StoreFault::Failed) => Err(FetchFault::Failed),
        Err(StoreFault::NoMemory) => Err(FetchFault::NoMemory),
    }
}

impl<S: MetadataStore> Repository for StoreRepository<S> {
    ghost seen = { λ r. folders_over (S.seen r.store) };

    fn fetch_metadata(
        &mut self,
        alloc: Global,
        name: &str,
        max: u64,
    ) -> Result<Option<Bytes>, FetchFault> {
        within(self.store.load(alloc, name), max)
    }

    fn fetch_target(
        &mut self,
        alloc: Global,
        path: &str,
        max: u64,
    ) -> Result<Option<Bytes>, FetchFault> {
        let Ok(name) = kept_target(alloc, path) else {
            return Err(FetchFault::NoMemory);
        };
        within(self.store.load(alloc, name.as_str()), max)
    }
}
