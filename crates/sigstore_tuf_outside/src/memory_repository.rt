// A repository in memory.
ghost use Rattle.std.specs.Prelude.{◌≡◌, ◌≢◌, ◌+◌, ◌-◌, ◌^◌, min, true, false, [], Err, OnOk, OnErr, Some};
ghost use Rattle.foundation.specs.Watched.{Rose};
ghost use Rattle.sigstore_types_parts.specs.Calls.{fails_next};
ghost use Rattle.sigstore_tuf_outside.specs.Repository.{Fetches, metadata_files, target_files};
ghost use Rattle.sigstore_tuf_outside.specs.declared.repository.FetchFault.TheVariants.{Failed};
ghost use Rattle.sigstore_tuf_outside.specs.Memory.{no_folders, folders_of, told_folders, with_metadata, with_target};

use crate::folder::{fetch, put};
use crate::repository::{FetchFault, Repository};
use foundation::NoMemory;
use sigstore_types_parts::{Bytes, Calls, FailList, TextMap};
use std::alloc::Global;

/// Documents and targets in memory, which it tells; the calls that its list names fail.
#[derive(Drop)]
pub struct MemoryRepository {
    metadata: TextMap<Bytes>,
    targets: TextMap<Bytes>,
    calls: Calls,
}

impl MemoryRepository {
    /// A repository without files; takes no memory.
    pub fn new(alloc: Global, failures: FailList) -> MemoryRepository
        ensures seen { told_folders result.metadata result.targets result.calls.faults ≡ record { told = Some no_folders; faults = 0 } }
        ensures failures { result.calls.failures ≡ failures }
        ensures made { result.calls.made ≡ 0 }
    {
        MemoryRepository {
            metadata: TextMap::new(alloc),
            targets: TextMap::new(alloc),
            calls: Calls::new(failures),
        }
    }

    /// Puts a document in place of the one of that name; after want of memory all is as before.
    pub fn put_metadata(&mut self, alloc: Global, name: &str, bytes: &[u8]) -> Result<(), NoMemory>
        ensures ok { OnOk result (folders_of self.new.metadata self.new.targets ≡ with_metadata name.now bytes.now (folders_of self.old.metadata self.old.targets)) }
        ensures err { OnErr result (folders_of self.new.metadata self.new.targets ≡ folders_of self.old.metadata self.old.targets) }
        ensures calls { self.new.calls ≡ self.old.calls }
    {
        put(alloc, &mut self.metadata, name, bytes)
    }

    /// Puts a target in place of the one of that path; after want of memory all is as before.
    pub fn put_target(&mut self, alloc: Global, path: &str, bytes: &[u8]) -> Result<(), NoMemory>
        ensures ok { OnOk result (folders_of self.new.metadata self.new.targets ≡ with_target path.now bytes.now (folders_of self.old.metadata self.old.targets)) }
        ensures err { OnErr result (folders_of self.new.metadata self.new.targets ≡ folders_of self.old.metadata self.old.targets) }
        ensures calls { self.new.calls ≡ self.old.calls }
    {
        put(alloc, &mut self.targets, path, bytes)
    }
}

impl Repository for MemoryRepository {
    ghost seen = { λ r. told_folders r.metadata r.targets r.calls.faults };

    fn fetch_metadata(
        &mut self,
        alloc: Global,
        name: &str,
        max: u64,
    ) -> Result<Option<Bytes>, FetchFault>
        ensures fetches { Fetches metadata_files (told_folders self.old.metadata self.old.targets self.old.calls.faults) (told_folders self.new.metadata self.new.targets self.new.calls.faults) name.now max result }
        ensures failures { self.new.calls.failures ≡ self.old.calls.failures }
        ensures made { self.new.calls.made ≡ min (self.old.calls.made + 1) (2 ^ 64 - 1) }
        ensures fails { fails_next self.old.calls.failures self.old.calls.made ≡ true → (result ≡ Err Failed) × Rose self.old.calls.faults self.new.calls.faults }
        ensures serves { fails_next self.old.calls.failures self.old.calls.made ≡ false → (result ≢ Err Failed) × (self.new.calls.faults ≡ self.old.calls.faults) }
        ensures never { self.old.calls.failures ≡ [] → self.new.calls.faults ≡ self.old.calls.faults }
    {
        fetch(alloc, &self.metadata, &mut self.calls, name, max)
    }

    fn fetch_target(
        &mut self,
        alloc: Global,
        path: &str,
        max: u64,
    ) -> Result<Option<Bytes>, FetchFault>
        ensures fetches { Fetches target_files (told_folders self.old.metadata self.old.targets self.old.calls.faults) (told_folders self.new.metadata self.new.targets self.new.calls.faults) path.now max result }
        ensures failures { self.new.calls.failures ≡ self.old.calls.failures }
        ensures made { self.new.calls.made ≡ min (self.old.calls.made + 1) (2 ^ 64 - 1) }
        ensures fails { fails_next self.old.calls.failures self.old.calls.made ≡ true → (result ≡ Err Failed) × Rose self.old.calls.faults self.new.calls.faults }
        ensures serves { fails_next self.old.calls.failures self.old.calls.made ≡ false → (result ≢ Err Failed) × (self.new.calls.faults ≡ self.old.calls.faults) }
        ensures never { self.old.calls.failures ≡ [] → self.new.calls.faults ≡ self.old.calls.faults }
    {
        fetch(alloc, &self.targets, &mut self.calls, path, max)
    }
}
