// A folder of files.
ghost use Rattle.std.specs.Prelude.{◌≡◌, IfSome, IfOk, IfErr, length, ◌≤◌, ⊤};
ghost use Rattle.std.specs.Io.{ReadsAtMost};
ghost use Rattle.foundation.specs.Watched.{untold};
ghost use Rattle.release_gate.specs.Files.{IsWithin, IsNeverLong, FailsAlone};
ghost use Rattle.release_gate.specs.Folder.{Answers};

use crate::folder::{Folder, FolderFault};
use foundation::NoMemory;
use sigstore_types_parts::{Bytes, FileFault, PieceFault, Text, read_file, read_piece};
use std::alloc::Global;
use std::fs::DirEntry;
use std::io::{ErrorKind, Seek, SeekFrom};
use std::path::PathBuf;
use std::rt::Files;
use std::{fs, io};

// An open file, with the name under which it was opened.
#[derive(Drop)]
struct Opened<F> {
    name: Text,
    file: F,
}

/// The files of a folder; it tells nothing. Each name of the folder is listed: one that isn't UTF-8, and one of something
/// that isn't a file, as of a folder, a pipe or a link that leads nowhere, fails the listing. A link counts as the file
/// that it leads to. No name leads out of the folder.
#[derive(Drop)]
pub struct FileFolder<'r, X: Files + AllocGlobal> {
    rt: &'r X,
    dir: Text,
    opened: Option<Opened<X::File>>,
    faults: u64,
}

impl<'r, X: Files + AllocGlobal> FileFolder<'r, X> {
    /// The folder at a path.
    pub fn new(rt: &'r X, dir: Text) -> FileFolder<'r, X>
        ensures dir { result.dir ≡ dir }
        ensures faults { result.faults ≡ 0 }
    {
        FileFolder {
            rt,
            dir,
            opened: None,
            faults: 0,
        }
    }
}

// A fault of the system.
fn fault_of(e: io::Error) -> FolderFault
    ensures { IsNeverLong result }
{
    if e.kind() == ErrorKind::OutOfMemory {
        FolderFault::NoMemory
    } else {
        FolderFault::Failed
    }
}

// The name of an entry, where it is a file's or of a link to one.
fn entry_name<X: Files + AllocGlobal>(
    rt: &X,
    alloc: Global,
    entry: &DirEntry<&X, Global>,
) -> Result<Text, FolderFault>
    ensures { IfErr result IsNeverLong }
{
    match fs::metadata(rt, entry.path()) {
        Ok(metadata) if metadata.is_file() => Ok(Text::new(alloc, entry.file_name())?),
        Ok(_) => Err(FolderFault::Failed),
        Err(e) => Err(fault_of(e)),
    }
}

// The names of a folder.
fn list<X: Files + AllocGlobal>(rt: &X, alloc: Global, dir: &str) -> Result<Vec<Text>, FolderFault>
    ensures { IfErr result IsNeverLong }
{
    let entries = match fs::read_dir(&rt, dir) {
        Ok(entries) => entries,
        Err(e) => return Err(fault_of(e)),
    };
    let mut names = Vec::new(alloc);
    for entry in entries {
        match entry {
            Ok(entry) => {
                let name = entry_name(rt, alloc, &entry)?;
                if names.push(name).is_err() {
                    return Err(FolderFault::NoMemory);
                }
            }
            Err(e) => return Err(fault_of(e)),
        }
    }
    Ok(names)
}

// Whether a name can be that of an entry of a folder.
fn is_entry(name: &str) -> bool {
    !name.is_empty() && name != "." && name != ".." && !name.contains('/')
}

// The path of an entry of a folder.
fn path_of(alloc: Global, dir: &str, name: &str) -> Result<PathBuf, NoMemory> {
    let mut path = PathBuf::from_str(alloc, dir)?;
    path.push(name)?;
    Ok(path)
}

// A whole file.
fn read_whole<X: Files + AllocGlobal>(
    rt: &X,
    alloc: Global,
    dir: &str,
    name: &str,
    max: u64,
) -> Result<Option<Bytes>, FolderFault>
    ensures { IsWithin max result }
{
    if !is_entry(name) {
        return Ok(None);
    }
    let path = match path_of(alloc, dir, name) {
        Ok(path) => path,
        Err(NoMemory) => return Err(FolderFault::NoMemory),
    };
    match read_file(rt, alloc, path.as_str(), max) {
        Ok(bytes) => Ok(Some(bytes)),
        Err(FileFault::Absent) => Ok(None),
        Err(FileFault::TooLong { seen }) => Err(FolderFault::TooLong { seen }),
        Err(FileFault::Failed) => Err(FolderFault::Failed),
        Err(FileFault::NoMemory) => Err(FolderFault::NoMemory),
    }
}

// Opens a file. Every fault of it is Failed, want of memory too: a reading of a piece has no other.
fn open<X: Files + AllocGlobal>(
    rt: &X,
    dir: &str,
    name: &str,
) -> Result<Opened<X::File>, FolderFault>
    ensures { IfErr result FailsAlone }
{
    if !is_entry(name) {
        return Err(FolderFault::Failed);
    }
    let Ok(path) = path_of(rt.alloc(), dir, name) else {
        return Err(FolderFault::Failed);
    };
    let Ok(name) = Text::new(rt.alloc(), name) else {
        return Err(FolderFault::Failed);
    };
    match fs::open(rt, path.as_str()) {
        Ok(file) => Ok(Opened { name, file }),
        Err(_) => Err(FolderFault::Failed),
    }
}

// The file that is open, where it is of this name and its reading goes on; at its beginning it is opened anew.
fn open_at<X: Files + AllocGlobal>(
    rt: &X,
    dir: &str,
    opened: Option<Opened<X::File>>,
    name: &str,
    offset: u64,
) -> Result<Opened<X::File>, FolderFault>
    ensures { IfErr result FailsAlone }
{
    match opened {
        Some(opened) if offset > 0 && opened.name.as_str() == name => Ok(opened),
        _ => open(rt, dir, name),
    }
}

// The next bytes of a file from an offset on.
fn read_from<F: io::Read + Seek>(
    file: &mut F,
    offset: u64,
    buf: &mut [u8],
) -> Result<usize, FolderFault>
    ensures count { ReadsAtMost result buf.new }
    ensures fault { IfErr result FailsAlone }
{
    if file.seek(SeekFrom::Start(offset)).is_err() {
        return Err(FolderFault::Failed);
    }
    match read_piece(file, buf) {
        Ok(count) => Ok(count),
        Err(PieceFault::Failed) => Err(FolderFault::Failed),
        Err(PieceFault::NoMemory) => Err(FolderFault::Failed),
    }
}

// The next bytes of an entry, which stays open for those behind them.
fn read_entry<X: Files + AllocGlobal>(
    rt: &X,
    dir: &str,
    opened: &mut Option<Opened<X::File>>,
    name: &str,
    offset: u64,
    buf: &mut [u8],
) -> Result<usize, FolderFault>
    ensures count { ReadsAtMost result buf.new }
    ensures fault { IfErr result FailsAlone }
{
    let mut there = match open_at(rt, dir, opened.take(), name, offset) {
        Ok(there) => there,
        Err(e) => return Err(e),
    };
    let answer = read_from(&mut there.file, offset, buf);
    *opened = Some(there);
    answer
}

impl<X: Files + AllocGlobal> Folder for FileFolder<'_, X> {
    ghost seen = { λ d. untold d.faults };

    ghost gave = { λ d call e. Answers (untold d.faults) call (untold e.faults) };

    fn names(&mut self, alloc: Global) -> Result<Vec<Text>, FolderFault> {
        let answer = list(self.rt, alloc, self.dir.as_str());
        if answer.is_err() {
            self.faults = self.faults.saturating_add(1);
        }
        answer
    }

    fn read_bundle(
        &mut self,
        alloc: Global,
        name: &str,
        max: u64,
    ) -> Result<Option<Bytes>, FolderFault> {
        let answer = read_whole(self.rt, alloc, self.dir.as_str(), name, max);
        if answer.is_err() {
            self.faults = self.faults.saturating_add(1);
        }
        answer
    }

    fn read_at(&mut self, name: &str, offset: u64, buf: &mut [u8]) -> Result<usize, FolderFault> {
        let answer = read_entry(
            self.rt,
            self.dir.as_str(),
            &mut self.opened,
            name,
            offset,
            buf,
        );
        if answer.is_err() {
            self.faults = self.faults.saturating_add(1);
        }
        answer
    }

    ghost lists = { λ _. tt };

    ghost answers = { λ _ _ _ given. given };
}
