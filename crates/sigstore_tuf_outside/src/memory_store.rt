// A store in memory.
ghost use Rattle.std.specs.Prelude.{◌≡◌, ◌≢◌, ◌+◌, ◌-◌, ◌^◌, min, true, false, [], Some, Err};
ghost use Rattle.foundation.specs.Watched.{Rose};
ghost use Rattle.sigstore_types_parts.specs.Calls.{fails_next};
ghost use Rattle.sigstore_tuf_outside.specs.declared.store.StoreFault.TheVariants.{Failed};
ghost use Rattle.sigstore_tuf_outside.specs.Store.{Loads, Stores, HoldsNoBadName, is_bad_name};
ghost use Rattle.sigstore_tuf_outside.specs.Memory.{no_files, files_of, told_files};

use crate::folder::put;
use crate::name::is_bad_name;
use crate::store::{MetadataStore, StoreFault};
use foundation::Duplicate;
use sigstore_types_parts::{Bytes, Calls, FailList, TextMap};
use std::alloc::Global;

/// Documents and targets in memory, which it tells; the calls that its list names fail. A call with a bad
/// name is refused as that and isn't counted.
#[derive(Drop)]
pub struct MemoryStore {
    files: TextMap<Bytes>,
    calls: Calls,
    ghost tame: { HoldsNoBadName (files_of files) },
}

impl MemoryStore {
    /// A store without files, no call of which fails; takes no memory.
    pub fn new(alloc: Global) -> MemoryStore
        ensures seen { told_files result.files result.calls.faults ≡ record { told = Some no_files; faults = 0 } }
        ensures failures { result.calls.failures ≡ [] }
        ensures made { result.calls.made ≡ 0 }
    {
        MemoryStore::with_failures(alloc, FailList::new(Vec::new(alloc)).unwrap())
    }

    /// A store without files; takes no memory.
    pub fn with_failures(alloc: Global, failures: FailList) -> MemoryStore
        ensures seen { told_files result.files result.calls.faults ≡ record { told = Some no_files; faults = 0 } }
        ensures failures { result.calls.failures ≡ failures }
        ensures made { result.calls.made ≡ 0 }
    {
        MemoryStore {
            files: TextMap::new(alloc),
            calls: Calls::new(failures),
        }
    }
}

impl MetadataStore for MemoryStore {
    ghost seen = { λ s. told_files s.files s.calls.faults };

    ghost tame = { λ s. s.tame };

    fn load(&mut self, alloc: Global, name: &str) -> Result<Option<Bytes>, StoreFault>
        ensures loads { Loads (told_files self.old.files self.old.calls.faults) (told_files self.new.files self.new.calls.faults) name.now result }
        ensures failures { self.new.calls.failures ≡ self.old.calls.failures }
        ensures bad { is_bad_name name.now ≡ true → self.new.calls ≡ self.old.calls }
        ensures made { is_bad_name name.now ≡ false → self.new.calls.made ≡ min (self.old.calls.made + 1) (2 ^ 64 - 1) }
        ensures fails { is_bad_name name.now ≡ false → fails_next self.old.calls.failures self.old.calls.made ≡ true → (result ≡ Err Failed) × Rose self.old.calls.faults self.new.calls.faults }
        ensures serves { fails_next self.old.calls.failures self.old.calls.made ≡ false → (result ≢ Err Failed) × (self.new.calls.faults ≡ self.old.calls.faults) }
        ensures never { self.old.calls.failures ≡ [] → self.new.calls.faults ≡ self.old.calls.faults }
    {
        if is_bad_name(name) {
            return Err(StoreFault::BadName);
        }
        if self.calls.next_fails() {
            return Err(StoreFault::Failed);
        }
        match self.files.get(name) {
            None => Ok(None),
            Some(file) => Ok(Some(file.duplicate(alloc)?)),
        }
    }

    fn store(&mut self, alloc: Global, name: &str, bytes: &[u8]) -> Result<(), StoreFault>
        ensures stores { Stores (told_files self.old.files self.old.calls.faults) (told_files self.new.files self.new.calls.faults) name.now bytes.now result }
        ensures failures { self.new.calls.failures ≡ self.old.calls.failures }
        ensures bad { is_bad_name name.now ≡ true → self.new.calls ≡ self.old.calls }
        ensures made { is_bad_name name.now ≡ false → self.new.calls.made ≡ min (self.old.calls.made + 1) (2 ^ 64 - 1) }
        ensures fails { is_bad_name name.now ≡ false → fails_next self.old.calls.failures self.old.calls.made ≡ true → (result ≡ Err Failed) × Rose self.old.calls.faults self.new.calls.faults }
        ensures serves { fails_next self.old.calls.failures self.old.calls.made ≡ false → (result ≢ Err Failed) × (self.new.calls.faults ≡ self.old.calls.faults) }
        ensures never { self.old.calls.failures ≡ [] → self.new.calls.faults ≡ self.old.calls.faults }
    {
        if is_bad_name(name) {
            return Err(StoreFault::BadName);
        }
        if self.calls.next_fails() {
            return Err(StoreFault::Failed);
        }
        put(alloc, &mut self.files, name, bytes)?;
        Ok(())
    }
}
