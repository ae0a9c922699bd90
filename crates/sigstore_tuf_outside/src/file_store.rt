// A store in a folder.
ghost use Rattle.std.specs.Prelude.{◌≡◌, ⊤};
ghost use Rattle.foundation.specs.Watched.{untold};
ghost use Rattle.sigstore_tuf_outside.specs.Store.{HasStoreCause};

use crate::name::{is_bad_name, path_of};
use crate::store::{MetadataStore, StoreFault};
use sigstore_types_parts::{Bytes, FileFault, Text, read_file};
use std::alloc::Global;
use std::fs::{File, OpenFile};
use std::io::{ErrorKind, Write};
use std::rt::Files;
use std::{fs, io};

// Names left by killed runs are passed by, so there are many; a bound ends the search.
const NAMES_BESIDE: u32 = 1000;

// 64 MiB, more than the limit of any file of an updater has by default. Without a limit whoever can
// write to the folder leaves every run without memory.
const MAX_LENGTH: u64 = 67_108_864;

/// A folder with the files of a store; it tells nothing. A file is written beside and renamed: under its
/// name with the first free one of `.new~0`, `.new~1`, .. `.new~999` behind it, so that two processes may
/// share the folder. Where all of them are taken, `store` answers Failed. A file of more than 64 MiB
/// isn't read: `load` answers Failed.
#[derive(Drop)]
pub struct FileStore<'r, X: Files + AllocGlobal> {
    rt: &'r X,
    dir: Text,
    faults: u64,
}

impl<'r, X: Files + AllocGlobal> FileStore<'r, X> {
    /// The store in a folder, which is made when something is stored.
    pub fn new(rt: &'r X, dir: Text) -> FileStore<'r, X>
        ensures dir { result.dir ≡ dir }
        ensures faults { result.faults ≡ 0 }
    {
        FileStore { rt, dir, faults: 0 }
    }
}

fn load<X: Files + AllocGlobal>(
    rt: &X,
    alloc: Global,
    dir: &str,
    name: &str,
) -> Result<Option<Bytes>, StoreFault>
    ensures { HasStoreCause ⊤ name.now result }
{
    if is_bad_name(name) {
        return Err(StoreFault::BadName);
    }
    let Ok(path) = path_of(alloc, dir, "", name) else {
        return Err(StoreFault::NoMemory);
    };
    match read_file(rt, alloc, path.as_str(), MAX_LENGTH) {
        Ok(bytes) => Ok(Some(bytes)),
        Err(FileFault::Absent) => Ok(None),
        Err(FileFault::NoMemory) => Err(StoreFault::NoMemory),
        Err(_) => Err(StoreFault::Failed),
    }
}

fn write_whole<F: Write + OpenFile + Drop>(mut file: F, bytes: &[u8]) -> io::Result<()> {
    file.write_all(bytes)?;
    file.sync_all()
}

// Makes the folders that a file stands in.
fn make_folders<X: Files + AllocGlobal>(rt: &X, path: &str) -> io::Result<()> {
    match path.rsplit_once('/') {
        Some((folder, _)) => fs::create_dir_all(rt, folder),
        None => Ok(()),
    }
}

fn write_and_rename<X: Files + AllocGlobal>(
    rt: &X,
    file: X::File,
    beside: &str,
    path: &str,
    bytes: &[u8],
) -> io::Result<()> {
    write_whole(file, bytes)?;
    fs::rename(rt, beside, path)
}

// What a failure leaves beside is removed where that can be done.
fn write_or_remove<X: Files + AllocGlobal>(
    rt: &X,
    file: X::File,
    beside: &str,
    path: &str,
    bytes: &[u8],
) -> io::Result<()> {
    let written = write_and_rename(rt, file, beside, path, bytes);
    if written.is_err() {
        let _removed = fs::remove_file(rt, beside);
    }
    written
}

// Writes a file under the first free name beside; one that is there may be another process's.
fn write_beside<X: Files + AllocGlobal>(
    rt: &X,
    alloc: Global,
    path: &str,
    bytes: &[u8],
) -> io::Result<()> {
    for number in 0..NAMES_BESIDE {
        let Ok(beside) = format!(in alloc; "{}.new~{}", path, number) else {
            return Err(io::Error::from(ErrorKind::OutOfMemory));
        };
        match File::create_new(rt, beside.as_str()) {
            Ok(file) => return write_or_remove(rt, file, beside.as_str(), path, bytes),
            Err(e) if e.kind() == ErrorKind::AlreadyExists => {}
            Err(e) => return Err(e),
        }
    }
    Err(io::Error::from(ErrorKind::AlreadyExists))
}

fn make_and_write<X: Files + AllocGlobal>(
    rt: &X,
    alloc: Global,
    path: &str,
    bytes: &[u8],
) -> io::Result<()> {
    make_folders(rt, path)?;
    write_beside(rt, alloc, path, bytes)
}

fn store<X: Files + AllocGlobal>(
    rt: &X,
    alloc: Global,
    dir: &str,
    name: &str,
    bytes: &[u8],
) -> Result<(), StoreFault>
    ensures { HasStoreCause ⊤ name.now result }
{
    if is_bad_name(name) {
        return Err(StoreFault::BadName);
    }
    let Ok(path) = path_of(alloc, dir, "", name) else {
        return Err(StoreFault::NoMemory);
    };
    match make_and_write(rt, alloc, path.as_str(), bytes) {
        Ok(()) => Ok(()),
        Err(e) if e.kind() == ErrorKind::OutOfMemory => Err(StoreFault::NoMemory),
        Err(_) => Err(StoreFault::Failed),
    }
}

impl<X: Files + AllocGlobal> MetadataStore for FileStore<'_, X> {
    ghost seen = { λ s. untold s.faults };

    ghost tame = { λ _. tt };

    fn load(&mut self, alloc: Global, name: &str) -> Result<Option<Bytes>, StoreFault> {
        let answer = load(self.rt, alloc, self.dir.as_str(), name);
        if answer.is_err() {
            self.faults = self.faults.saturating_add(1);
        }
        answer
    }

    fn store(&mut self, alloc: Global, name: &str, bytes: &[u8]) -> Result<(), StoreFault> {
        let answer = store(self.rt, alloc, self.dir.as_str(), name, bytes);
        if answer.is_err() {
            self.faults = self.faults.saturating_add(1);
        }
        answer
    }
}
