// A store that is only read.
ghost use Rattle.std.specs.Prelude.{◌≡◌};
ghost use Rattle.foundation.specs.Watched.{untold};
ghost use Rattle.sigstore_tuf_outside.specs.Store.{Loads, Stores};

use sigstore_tuf::{MetadataStore, NoStore, StoreFault};
use sigstore_types_parts::Bytes;
use std::alloc::Global;

/// A store whose files are read and never written: what is put into it is let go. It tells nothing, and
/// nothing else reaches the store within.
#[derive(Drop)]
pub struct ReadingStore<S: MetadataStore> {
    inner: S,
}

impl<S: MetadataStore> ReadingStore<S> {
    /// This store, which is only read from now on.
    pub fn new(inner: S) -> ReadingStore<S>
        ensures { result.inner ≡ inner }
    {
        ReadingStore { inner }
    }
}

impl<S: MetadataStore> MetadataStore for ReadingStore<S> {
    ghost seen = { λ s. untold (S.seen s.inner).faults };

    ghost tame = { λ _. tt };

    fn load(&mut self, alloc: Global, name: &str) -> Result<Option<Bytes>, StoreFault>
        ensures loads { Loads (untold (S.seen self.old.inner).faults) (untold (S.seen self.new.inner).faults) name.now result }
        ensures same { (S.seen self.new.inner).told ≡ (S.seen self.old.inner).told }
    {
        self.inner.load(alloc, name)
    }

    fn store(&mut self, alloc: Global, name: &str, bytes: &[u8]) -> Result<(), StoreFault>
        ensures stores { Stores (untold (S.seen self.old.inner).faults) (untold (S.seen self.new.inner).faults) name.now bytes.now result }
        ensures same { S.seen self.new.inner ≡ S.seen self.old.inner }
    {
        NoStore.store(alloc, name, bytes)
    }
}
