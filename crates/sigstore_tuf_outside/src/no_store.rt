// No store at all.
ghost use Rattle.foundation.specs.Watched.{untold};

use crate::name::is_bad_name;
use crate::store::{MetadataStore, StoreFault};
use sigstore_types_parts::Bytes;
use std::alloc::Global;

/// A store that keeps nothing, tells nothing and never fails.
#[derive(Drop)]
pub struct NoStore;

impl MetadataStore for NoStore {
    ghost seen = { λ _. untold 0 };

    ghost tame = { λ _. tt };

    fn load(&mut self, _alloc: Global, name: &str) -> Result<Option<Bytes>, StoreFault> {
        if is_bad_name(name) {
            return Err(StoreFault::BadName);
        }
        Ok(None)
    }

    fn store(&mut self, _alloc: Global, name: &str, _bytes: &[u8]) -> Result<(), StoreFault> {
        if is_bad_name(name) {
            return Err(StoreFault::BadName);
        }
        Ok(())
    }
}
