// Where an artifact is read from.
ghost use Rattle.std.specs.Prelude.{List, ℕ};
ghost use Rattle.foundation.specs.Watched.{Watched};
ghost use Rattle.sigstore_keys.specs.Source.{Reads};

use std::{error, fmt};

/// A read failed.
#[derive(Clone, Copy, Debug, PartialEq, Eq, Drop)]
pub enum ReadFault {
    Failed,
}

/// Gives the bytes of an artifact in turn; contracts see the bytes that are left, where they are told,
/// and how often a read failed.
pub trait ArtifactSource {
    ghost seen: { Self → Watched (List ℕ) };

    /// The next bytes, at most as many as the buffer holds; 0 for a nonempty buffer is the end. After
    /// `Failed` what is left is as before.
    fn read(&mut self, buf: &mut [u8]) -> Result<usize, ReadFault>
        ensures { Reads (seen self.old) (seen self.new) buf.new result };
}

impl fmt::Display for ReadFault {
    fn fmt<W: fmt::Write>(&self, f: &mut fmt::Formatter<W>) -> fmt::Result {
        f.write_str(match self {
            ReadFault::Failed => "Failed",
        })
    }
}

impl error::Error for ReadFault {}
