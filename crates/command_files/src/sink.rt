// Where the program's text is written.
ghost use Rattle.std.specs.Prelude.{List, ℕ};
ghost use Rattle.foundation.specs.Watched.{Watched};
ghost use Rattle.command_files.specs.Sink.{Writes};

use std::{error, fmt};

/// Why a text wasn't written.
#[derive(Clone, Copy, Debug, PartialEq, Eq, Drop)]
pub enum SinkFault {
    Failed,
}

/// Takes the program's text.
pub trait Sink {
    /// The bytes that were taken, where they are told, and how often a write failed.
    ghost seen: { Self → Watched (List ℕ) };

    /// Takes some of the first bytes of a piece and says how many. Errors: `Failed`, also where nothing can be taken.
    fn write(&mut self, bytes: &[u8]) -> Result<usize, SinkFault>
        ensures { Writes (seen self.old) (seen self.new) bytes.now result };
}

impl fmt::Display for SinkFault {
    fn fmt<W: fmt::Write>(&self, f: &mut fmt::Formatter<W>) -> fmt::Result {
        f.write_str(match self {
            SinkFault::Failed => "Failed",
        })
    }
}

impl error::Error for SinkFault {}
