// A folder in memory.
ghost use Rattle.std.specs.Prelude.{◌≡◌, ◌≢◌, ◌+◌, ◌-◌, ◌^◌, ◌≤◌, ◌<◌, ℕ, List, length, min, true, false, [], Err, OnOk, OnErr, Some, None, IfOk, IfSome, IsSome};
ghost use Rattle.std.specs.Map.{keys_of};
ghost use Rattle.foundation.specs.Watched.{Rose};
ghost use Rattle.sigstore_types_parts.specs.Entries.{at_name};
ghost use Rattle.sigstore_types_parts.specs.Calls.{fails_next};
ghost use Rattle.sigstore_tuf_outside.specs.Store.{with_file};
ghost use Rattle.sigstore_tuf_outside.specs.Memory.{files_of};
ghost use Rattle.release_gate.specs.Folder.{Lists, ReadsBundle, ReadsAt, IsPiece, ListsFiles, Answers};
ghost use Rattle.release_gate.specs.Memory.{told_contents, IsFileOf};
ghost use Rattle.release_gate.specs.Listed.{lists_entries};
ghost use Rattle.release_gate.specs.declared.folder.FolderFault.TheVariants.{Failed};

use crate::folder::{Folder, FolderFault};
use foundation::{Duplicate, NoMemory};
use sigstore_types_parts::{Bytes, Calls, FailList, Text, TextMap};
use std::alloc::Global;

/// Files in memory, which it tells and lists once each, in ascending order of their names; the calls that its list names
/// fail.
#[derive(Drop)]
pub struct MemoryFolder {
    files: TextMap<Bytes>,
    calls: Calls,
}

impl MemoryFolder {
    /// A folder without files; takes no memory.
    pub fn new(alloc: Global, failures: FailList) -> MemoryFolder
        ensures files { result.files ≡ [] }
        ensures failures { result.calls.failures ≡ failures }
        ensures made { result.calls.made ≡ 0 }
        ensures faults { result.calls.faults ≡ 0 }
    {
        MemoryFolder {
            files: TextMap::new(alloc),
            calls: Calls::new(failures),
        }
    }

    /// Puts a file in place of the one of that name; after want of memory all is as before.
    pub fn put(&mut self, alloc: Global, name: &str, bytes: &[u8]) -> Result<(), NoMemory>
        ensures ok { OnOk result (files_of self.new.files ≡ with_file name.now bytes.now (files_of self.old.files)) }
        ensures err { OnErr result (self.new.files ≡ self.old.files) }
        ensures calls { self.new.calls ≡ self.old.calls }
    {
        self.files
            .insert(Text::new(alloc, name)?, Bytes::new(alloc, bytes)?)?;
        Ok(())
    }
}

// The names of a map.
fn names_of(alloc: Global, files: &TextMap<Bytes>) -> Result<Vec<Text>, NoMemory>
    ensures { IfOk result (λ names. names.items ≡ keys_of files.now) }
{
    let mut names = Vec::new(alloc);
    'files: for (name, _) in files.iter() {
        names.push(Text::new(alloc, name.as_str())?)?;
    }
    Ok(names)
}

// The file of that name, where it isn't longer than the limit.
fn file_of(
    alloc: Global,
    files: &TextMap<Bytes>,
    name: &str,
    max: u64,
) -> Result<Option<Bytes>, FolderFault>
    ensures { IsFileOf (at_name name.now files.now) max result }
{
    match files.get(name) {
        None => Ok(None),
        Some(file) => {
            let seen = file.as_bytes().len() as u64;
            if seen > max {
                return Err(FolderFault::TooLong { seen });
            }
            Ok(Some(file.duplicate(alloc)?))
        }
    }
}

// The next bytes from an offset on.
fn piece_of(bytes: &[u8], offset: u64, buf: &mut [u8]) -> usize
    ensures piece { IsPiece bytes.now offset buf.new result }
    ensures within { result ≤ length buf.new }
{
    let at = offset.min(bytes.len() as u64) as usize;
    let rest = &bytes[at..];
    let count = rest.len().min(buf.len());
    buf[..count].copy_from_slice(&rest[..count]);
    count
}

impl Folder for MemoryFolder {
    ghost seen = { λ d. told_contents d.files d.calls.faults };

    ghost gave = { λ d call e. Answers (told_contents d.files d.calls.faults) call (told_contents e.files e.calls.faults) };

    fn names(&mut self, alloc: Global) -> Result<Vec<Text>, FolderFault>
        ensures lists { Lists (λ names. names.items) (told_contents self.old.files self.old.calls.faults)
            (told_contents self.new.files self.new.calls.faults) result }
        ensures failures { self.new.calls.failures ≡ self.old.calls.failures }
        ensures made { self.new.calls.made ≡ min (self.old.calls.made + 1) (2 ^ 64 - 1) }
        ensures fails { fails_next self.old.calls.failures self.old.calls.made ≡ true →
            (result ≡ Err Failed) × Rose self.old.calls.faults self.new.calls.faults }
        ensures serves { fails_next self.old.calls.failures self.old.calls.made ≡ false →
            (result ≢ Err Failed) × (self.new.calls.faults ≡ self.old.calls.faults) }
        ensures never { self.old.calls.failures ≡ [] → self.new.calls.faults ≡ self.old.calls.faults }
    {
        if self.calls.next_fails() {
            return Err(FolderFault::Failed);
        }
        Ok(names_of(alloc, &self.files)?)
    }

    fn read_bundle(
        &mut self,
        alloc: Global,
        name: &str,
        max: u64,
    ) -> Result<Option<Bytes>, FolderFault>
        ensures reads { ReadsBundle (told_contents self.old.files self.old.calls.faults)
            (told_contents self.new.files self.new.calls.faults) name.now max result }
        ensures failures { self.new.calls.failures ≡ self.old.calls.failures }
        ensures made { self.new.calls.made ≡ min (self.old.calls.made + 1) (2 ^ 64 - 1) }
        ensures fails { fails_next self.old.calls.failures self.old.calls.made ≡ true →
            (result ≡ Err Failed) × Rose self.old.calls.faults self.new.calls.faults }
        ensures serves { fails_next self.old.calls.failures self.old.calls.made ≡ false →
            (result ≢ Err Failed) × (self.new.calls.faults ≡ self.old.calls.faults) }
        ensures never { self.old.calls.failures ≡ [] → self.new.calls.faults ≡ self.old.calls.faults }
    {
        if self.calls.next_fails() {
            return Err(FolderFault::Failed);
        }
        file_of(alloc, &self.files, name, max)
    }

    fn read_at(&mut self, name: &str, offset: u64, buf: &mut [u8]) -> Result<usize, FolderFault>
        ensures reads { ReadsAt (told_contents self.old.files self.old.calls.faults)
            (told_contents self.new.files self.new.calls.faults) name.now offset buf.new result }
        ensures failures { self.new.calls.failures ≡ self.old.calls.failures }
        ensures made { self.new.calls.made ≡ min (self.old.calls.made + 1) (2 ^ 64 - 1) }
        ensures fails { fails_next self.old.calls.failures self.old.calls.made ≡ true →
            (result ≡ Err Failed) × Rose self.old.calls.faults self.new.calls.faults }
        ensures serves { fails_next self.old.calls.failures self.old.calls.made ≡ false → IsSome (at_name name.now self.old.files)
            → (result ≢ Err Failed) × (self.new.calls.faults ≡ self.old.calls.faults) }
    {
        if self.calls.next_fails() {
            return Err(FolderFault::Failed);
        }
        match self.files.get(name) {
            Some(file) => Ok(piece_of(file.as_bytes(), offset, buf)),
            None => {
                self.calls.fail();
                Err(FolderFault::Failed)
            }
        }
    }

    ghost lists = { λ d. lists_entries d.files };

    ghost answers = { λ _ _ _ given. given };
}
