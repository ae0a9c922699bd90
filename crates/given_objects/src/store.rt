// A store that is handed in.
ghost use Rattle.std.specs.Prelude.{◌≡◌, [], OnErr, OnOk, IfOk, true, false};
ghost use Rattle.sigstore_tuf_outside.specs.Store.{HoldsNoBadName, with_file, is_bad_name};
ghost use Rattle.given_objects.specs.Given.{given_files, files_over, told_over};

use crate::file::{File, are_same, find};
use foundation::{Duplicate, NoMemory};
use sigstore_tuf_outside::{MetadataStore, NoStore, StoreFault};
use sigstore_types_parts::{Bytes, Text, TextMap};
use std::alloc::Global;

/// The files of a store's folder, and those that were put since, which stand in their place. It tells them, and no call
/// of it fails but for want of memory.
#[derive(Drop)]
pub struct GivenStore<'a> {
    files: &'a [File<'a>],
    kept: TextMap<Bytes>,
    ghost tame: { HoldsNoBadName (files_over kept (given_files files.now)) },
}

impl<'a> GivenStore<'a> {
    /// A store with these files; takes no memory.
    pub fn new(alloc: Global, files: &'a [File<'a>]) -> GivenStore<'a>
        ensures files { result.files.now ≡ files.now }
        ensures kept { result.kept ≡ [] }
    {
        GivenStore {
            files,
            kept: TextMap::new(alloc),
        }
    }

    /// The files that were put.
    pub fn kept(&self) -> &TextMap<Bytes>
        ensures { result.now ≡ self.now.kept }
    {
        &self.kept
    }

    /// Whether the files with which it was made are these.
    pub fn is_over(&self, files: &[File<'_>]) -> bool
        ensures { result ≡ true → given_files self.now.files.now ≡ given_files files.now }
    {
        are_same(self.files, files)
    }

    // The file of a good name.
    fn held(&self, alloc: Global, name: &str) -> Result<Option<Bytes>, NoMemory>
        requires { is_bad_name name.now ≡ false }
        ensures { IfOk result (λ file. file ≡ files_over self.now.kept (given_files self.now.files.now) name.now) }
    {
        if let Some(bytes) = self.kept.get(name) {
            return Ok(Some(bytes.duplicate(alloc)?));
        }
        match find(self.files, name.as_bytes()) {
            Some(bytes) => Ok(Some(Bytes::new(alloc, bytes)?)),
            None => Ok(None),
        }
    }

    // Puts a file under a good name.
    fn put(&mut self, alloc: Global, name: &str, bytes: &[u8]) -> Result<(), NoMemory>
        requires { is_bad_name name.now ≡ false }
        ensures files { self.new.files.now ≡ self.old.files.now }
        ensures ok { OnOk result (files_over self.new.kept (given_files self.old.files.now)
            ≡ with_file name.now bytes.now (files_over self.old.kept (given_files self.old.files.now))) }
        ensures err { OnErr result (self.new.kept ≡ self.old.kept) }
    {
        self.kept
            .insert(Text::new(alloc, name)?, Bytes::new(alloc, bytes)?)
    }
}

impl MetadataStore for GivenStore<'_> {
    ghost seen = { λ s. told_over s.kept s.files.now };

    ghost tame = { λ s. s.tame };

    fn load(&mut self, alloc: Global, name: &str) -> Result<Option<Bytes>, StoreFault> {
        match NoStore.load(alloc, name) {
            Ok(_) => match self.held(alloc, name) {
                Ok(file) => Ok(file),
                Err(NoMemory) => Err(StoreFault::NoMemory),
            },
            Err(e) => Err(e),
        }
    }

    fn store(&mut self, alloc: Global, name: &str, bytes: &[u8]) -> Result<(), StoreFault> {
        match NoStore.store(alloc, name, bytes) {
            Ok(()) => match self.put(alloc, name, bytes) {
                Ok(()) => Ok(()),
                Err(NoMemory) => Err(StoreFault::NoMemory),
            },
            Err(e) => Err(e),
        }
    }
}
