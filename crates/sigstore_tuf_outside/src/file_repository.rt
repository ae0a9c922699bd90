// A repository in a folder.
ghost use Rattle.std.specs.Prelude.{◌≡◌};
ghost use Rattle.foundation.specs.Watched.{untold};
ghost use Rattle.sigstore_tuf_outside.specs.Repository.{WithinLimit};

use crate::name::{is_bad_name, path_of};
use crate::repository::{FetchFault, Repository};
use foundation::NoMemory;
use sigstore_types_parts::{Bytes, FileFault, Text, read_file};
use std::alloc::Global;
use std::rt::Files;

/// A folder with documents, and with targets under `targets/`; it tells nothing. Under an absolute name
/// and under one with a component `..` there is nothing.
#[derive(Drop)]
pub struct FileRepository<'r, X: Files + AllocGlobal> {
    rt: &'r X,
    dir: Text,
    faults: u64,
}

impl<'r, X: Files + AllocGlobal> FileRepository<'r, X> {
    /// The repository in a folder.
    pub fn new(rt: &'r X, dir: Text) -> FileRepository<'r, X>
        ensures dir { result.dir ≡ dir }
        ensures faults { result.faults ≡ 0 }
    {
        FileRepository { rt, dir, faults: 0 }
    }
}

fn fetch<X: Files + AllocGlobal>(
    rt: &X,
    alloc: Global,
    dir: &str,
    folder: &str,
    name: &str,
    max: u64,
) -> Result<Option<Bytes>, FetchFault>
    ensures { WithinLimit max result }
{
    if is_bad_name(name) {
        return Ok(None);
    }
    let path = match path_of(alloc, dir, folder, name) {
        Ok(path) => path,
        Err(NoMemory) => return Err(FetchFault::NoMemory),
    };
    match read_file(rt, alloc, path.as_str(), max) {
        Ok(bytes) => Ok(Some(bytes)),
        Err(FileFault::Absent) => Ok(None),
        Err(FileFault::TooLong { seen }) => Err(FetchFault::TooLong { seen }),
        Err(FileFault::Failed) => Err(FetchFault::Failed),
        Err(FileFault::NoMemory) => Err(FetchFault::NoMemory),
    }
}

impl<X: Files + AllocGlobal> Repository for FileRepository<'_, X> {
    ghost seen = { λ r. untold r.faults };

    fn fetch_metadata(
        &mut self,
        alloc: Global,
        name: &str,
        max: u64,
    ) -> Result<Option<Bytes>, FetchFault> {
        let answer = fetch(self.rt, alloc, self.dir.as_str(), "", name, max);
        if answer.is_err() {
            self.faults = self.faults.saturating_add(1);
        }
        answer
    }

    fn fetch_target(
        &mut self,
        alloc: Global,
        path: &str,
        max: u64,
    ) -> Result<Option<Bytes>, FetchFault> {
        let answer = fetch(self.rt, alloc, self.dir.as_str(), "targets", path, max);
        if answer.is_err() {
            self.faults = self.faults.saturating_add(1);
        }
        answer
    }
}
