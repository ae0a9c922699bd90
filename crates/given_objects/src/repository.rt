// A repository that is handed in.
ghost use Rattle.std.specs.Prelude.{◌≡◌, ◌≤◌, ◌++◌, Some, IfOk};
ghost use Rattle.foundation.specs.Watched.{Rose};
ghost use Rattle.sigstore_tuf_outside.specs.Repository.{FailsOnly, WithinLimit, IsFile};
ghost use Rattle.given_objects.specs.Given.{files_below, told_given};

use crate::file::{File, Name, find, is_among};
use foundation::NoMemory;
use sigstore_tuf_outside::{FetchFault, MetadataStore, NoStore, Repository, StoreFault};
use sigstore_types_parts::{Bytes, Text};
use std::alloc::Global;

/// A file that was asked for and isn't handed in: its name below the repository's folder, and the greatest length
/// that is of use.
#[derive(Drop)]
pub struct Wanted {
    pub name: Text,
    pub max: u64,
}

/// The files of a repository's folder, targets below `targets/`. Where it isn't whole, a fetch of a file that is
/// neither among them nor known to be absent fails and is kept; where it is, such a file is absent. It tells its files.
#[derive(Drop)]
pub struct GivenRepository<'a> {
    files: &'a [File<'a>],
    absent: &'a [Name<'a>],
    whole: bool,
    faults: u64,
    wanted: Option<Wanted>,
}

fn below(alloc: Global, folder: &str, name: &str) -> Result<Text, NoMemory>
    ensures { IfOk result (λ text. text ≡ folder.now ++ name.now) }
{
    let mut text = String::from_str(alloc, folder)?;
    text.push_str(name)?;
    Ok(Text::from_string(text))
}

// A copy of a file within a limit.
fn copied(alloc: Global, bytes: &[u8], max: u64) -> Result<Option<Bytes>, FetchFault>
    ensures limit { WithinLimit max result }
    ensures file { IsFile (Some bytes.now) result }
{
    let seen = bytes.len() as u64;
    if seen > max {
        return Err(FetchFault::TooLong { seen });
    }
    Ok(Some(Bytes::new(alloc, bytes)?))
}

impl<'a> GivenRepository<'a> {
    /// These files, the names of those that aren't there, and whether all others aren't there either.
    pub fn new(files: &'a [File<'a>], absent: &'a [Name<'a>], whole: bool) -> GivenRepository<'a>
        ensures files { result.files.now ≡ files.now }
        ensures faults { result.faults ≡ 0 }
    {
        GivenRepository {
            files,
            absent,
            whole,
            faults: 0,
            wanted: None,
        }
    }

    /// How often a fetch failed: of files that are neither handed in nor known to be absent.
    pub fn faults(&self) -> u64
        ensures { result ≡ self.now.faults }
    {
        self.faults
    }

    /// The file that was asked for last and isn't handed in, where there is one.
    pub fn into_wanted(self) -> Option<Wanted> {
        let GivenRepository { wanted, .. } = self;
        wanted
    }

    // Failed for a file that is neither there nor known to be absent. Under a bad name there is nothing.
    fn given(
        &self,
        alloc: Global,
        folder: &str,
        name: &str,
        max: u64,
    ) -> Result<Option<Bytes>, FetchFault>
        ensures limit { WithinLimit max result }
        ensures file { IsFile (files_below folder.now self.now.files.now name.now) result }
    {
        match NoStore.load(alloc, name) {
            Ok(_) => (),
            Err(StoreFault::BadName) => return Ok(None),
            Err(StoreFault::NoMemory) => return Err(FetchFault::NoMemory),
            Err(StoreFault::Failed) => return Err(FetchFault::Failed),
        }
        let path = below(alloc, folder, name)?;
        let path = path.as_str().as_bytes();
        match find(self.files, path) {
            Some(bytes) => copied(alloc, bytes, max),
            None if self.whole || is_among(self.absent, path) => Ok(None),
            None => Err(FetchFault::Failed),
        }
    }

    fn fetch(
        &mut self,
        alloc: Global,
        folder: &str,
        name: &str,
        max: u64,
    ) -> Result<Option<Bytes>, FetchFault>
        ensures later { self.old.faults ≤ self.new.faults }
        ensures failed { FailsOnly (Rose self.old.faults self.new.faults) result }
        ensures limit { WithinLimit max result }
        ensures files { self.new.files.now ≡ self.old.files.now }
        ensures file { IsFile (files_below folder.now self.old.files.now name.now) result }
    {
        let answer = self.given(alloc, folder, name, max);
        if let Err(FetchFault::Failed) = &answer {
            self.faults = self.faults.saturating_add(1);
            match below(alloc, folder, name) {
                Ok(name) => self.wanted = Some(Wanted { name, max }),
                Err(NoMemory) => {
                    drop(answer);
                    return Err(FetchFault::NoMemory);
                }
            }
        }
        answer
    }
}

impl Repository for GivenRepository<'_> {
    ghost seen = { λ r. told_given r.files.now r.faults };

    fn fetch_metadata(
        &mut self,
        alloc: Global,
        name: &str,
        max: u64,
    ) -> Result<Option<Bytes>, FetchFault> {
        self.fetch(alloc, "", name, max)
    }

    fn fetch_target(
        &mut self,
        alloc: Global,
        path: &str,
        max: u64,
    ) -> Result<Option<Bytes>, FetchFault> {
        self.fetch(alloc, "targets/", path, max)
    }
}
