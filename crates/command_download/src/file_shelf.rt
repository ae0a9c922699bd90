// Files on disk.
ghost use Rattle.std.specs.Prelude.{◌≡◌};
ghost use Rattle.foundation.specs.Watched.{untold};

use crate::shelf::{Shelf, ShelfFault};
use foundation::NoMemory;
use sigstore_tuf_outside::{FileStore, MetadataStore, StoreFault};
use sigstore_types_parts::Text;
use std::alloc::Global;
use std::rt::Files;

/// Files at their paths; it tells nothing. A file is written beside and renamed, as those of `FileStore` are, and its
/// folder is made where it isn't there.
#[derive(Drop)]
pub struct FileShelf<'r, X: Files + AllocGlobal> {
    rt: &'r X,
    faults: u64,
}

impl<'r, X: Files + AllocGlobal> FileShelf<'r, X> {
    /// The files of a runtime.
    pub fn new(rt: &'r X) -> FileShelf<'r, X>
        ensures { result.faults ≡ 0 }
    {
        FileShelf { rt, faults: 0 }
    }
}

// The folder of a path, and the file's name in it.
fn split(path: &str) -> (&str, &str) {
    match path.rsplit_once('/') {
        Some(("", name)) => ("/", name),
        Some((folder, name)) => (folder, name),
        None => (".", path),
    }
}

// Puts a file in its folder.
fn put<X: Files + AllocGlobal>(
    rt: &X,
    alloc: Global,
    path: &str,
    bytes: &[u8],
) -> Result<(), ShelfFault> {
    let (folder, name) = split(path);
    let mut store = FileStore::new(rt, Text::new(alloc, folder)?);
    match store.store(alloc, name, bytes) {
        Ok(()) => Ok(()),
        Err(StoreFault::NoMemory) => Err(ShelfFault::NoMemory),
        Err(_) => Err(ShelfFault::Failed),
    }
}

impl<X: Files + AllocGlobal> Shelf for FileShelf<'_, X> {
    ghost seen = { λ s. untold s.faults };

    fn place(&mut self, alloc: Global, path: &str, bytes: &[u8]) -> Result<(), ShelfFault> {
        let answer = put(self.rt, alloc, path, bytes);
        if answer.is_err() {
            self.faults = self.faults.saturating_add(1);
        }
        answer
    }
}
