// A repository and an artifact in memory that never fail.
ghost use Rattle.std.specs.Prelude.{◌≡◌, [], Some};
ghost use Rattle.sigstore_tuf_outside.specs.Memory.{folders_of};

use sigstore_keys::{ArtifactSource, ReadFault};
use sigstore_tuf::{FetchFault, MemoryRepository, Repository};
use sigstore_types_parts::Bytes;
use std::alloc::Global;

/// A repository in memory no call of which fails; it tells its files, and counts no fault.
#[derive(Drop)]
pub(crate) struct SteadyRepository {
    files: MemoryRepository,
    ghost steady: { files.calls.failures ≡ [] },
}

impl SteadyRepository {
    pub(crate) fn new(files: MemoryRepository) -> SteadyRepository
        requires { files.calls.failures ≡ [] }
        ensures { result.files ≡ files }
    {
        SteadyRepository { files }
    }
}

impl Repository for SteadyRepository {
    ghost seen = { λ r. record { told = Some (folders_of r.files.metadata r.files.targets); faults = 0 } };

    fn fetch_metadata(
        &mut self,
        alloc: Global,
        name: &str,
        max: u64,
    ) -> Result<Option<Bytes>, FetchFault> {
        self.files.fetch_metadata(alloc, name, max)
    }

    fn fetch_target(
        &mut self,
        alloc: Global,
        path: &str,
        max: u64,
    ) -> Result<Option<Bytes>, FetchFault> {
        self.files.fetch_target(alloc, path, max)
    }
}

/// An artifact in memory; it tells what is left, and no read of it fails.
#[derive(Drop)]
pub(crate) struct SteadySource<'a> {
    pub left: &'a [u8],
}

impl<'a> ArtifactSource for SteadySource<'a> {
    ghost seen = { λ s. record { told = Some s.left.now; faults = 0 } };

    fn read(&mut self, buf: &mut [u8]) -> Result<usize, ReadFault> {
        let count = self.left.len().min(buf.len());
        let (given, left) = self.left.split_at(count);
        buf[..count].copy_from_slice(given);
        self.left = left;
        Ok(count)
    }
}
