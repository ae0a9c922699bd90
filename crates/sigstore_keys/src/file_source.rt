// An artifact in a file.
ghost use Rattle.std.specs.Prelude.{◌≡◌};
ghost use Rattle.std.specs.Io.{ReadsAtMost};
ghost use Rattle.foundation.specs.Watched.{untold};

use crate::source::{ArtifactSource, ReadFault};
use sigstore_types_parts::{Text, read_piece};
use std::fs;
use std::rt::Files;

/// The bytes of a file, which is opened at the first read; it tells nothing.
#[derive(Drop)]
pub struct FileSource<'r, X: Files + AllocGlobal> {
    rt: &'r X,
    path: Text,
    file: Option<X::File>,
    faults: u64,
}

impl<'r, X: Files + AllocGlobal> FileSource<'r, X> {
    /// The file at a path.
    pub fn new(rt: &'r X, path: Text) -> FileSource<'r, X>
        ensures path { result.path ≡ path }
        ensures faults { result.faults ≡ 0 }
    {
        FileSource {
            rt,
            path,
            file: None,
            faults: 0,
        }
    }
}

// Opens the file at the first read. Its fault is Failed in every case: a source has no other.
fn read_opened<X: Files + AllocGlobal>(
    rt: &X,
    path: &str,
    file: &mut Option<X::File>,
    buf: &mut [u8],
) -> Result<usize, ReadFault>
    ensures { ReadsAtMost result buf.new }
{
    if file.is_none() {
        *file = fs::open(rt, path).ok();
    }
    match file {
        None => Err(ReadFault::Failed),
        Some(file) => match read_piece(file, buf) {
            Ok(count) => Ok(count),
            Err(_) => Err(ReadFault::Failed),
        },
    }
}

impl<X: Files + AllocGlobal> ArtifactSource for FileSource<'_, X> {
    ghost seen = { λ s. untold s.faults };

    fn read(&mut self, buf: &mut [u8]) -> Result<usize, ReadFault> {
        let answer = read_opened(self.rt, self.path.as_str(), &mut self.file, buf);
        if answer.is_err() {
            self.faults = self.faults.saturating_add(1);
        }
        answer
    }
}
