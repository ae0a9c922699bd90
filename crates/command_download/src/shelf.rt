// Where files are put.
ghost use Rattle.std.specs.Prelude.{◌≡◌, List};
ghost use Rattle.foundation.specs.Watched.{Watched};
ghost use Rattle.command_download.specs.Shelf.{Places};
ghost use Rattle.command_download.specs.declared.shelf.Placed.{Placed};
ghost use Rattle.command_download.specs.declared.shelf.ShelfFault.TheVariants.{NoMemory};

use foundation::NoMemory;
use sigstore_types_parts::{Bytes, Text};
use std::alloc::Global;
use std::{error, fmt};

/// A file that was put in place.
#[derive(Debug, PartialEq, Drop)]
pub struct Placed {
    pub path: Text,
    pub bytes: Bytes,
}

/// Why a file isn't put in place.
#[derive(Clone, Copy, Debug, PartialEq, Eq, Drop)]
pub enum ShelfFault {
    /// The call failed.
    Failed,
    /// An allocation was refused.
    NoMemory,
}

impl From<NoMemory> for ShelfFault {
    ghost from_gives = { λ _ e. e ≡ NoMemory };

    fn from(_: NoMemory) -> ShelfFault {
        ShelfFault::NoMemory
    }
}

/// Takes files, each whole or not at all.
pub trait Shelf {
    /// The files that were put in place, in their order, where they are told, and how often a call failed.
    ghost seen: { Self → Watched (List Placed) };

    /// Puts a file in place of the one of that name, whole. Errors: `Failed`, and `NoMemory`; then the one that is there
    /// stays as it was.
    fn place(&mut self, alloc: Global, path: &str, bytes: &[u8]) -> Result<(), ShelfFault>
        ensures { Places (seen self.old) (seen self.new) path.now bytes.now result };
}

impl fmt::Display for ShelfFault {
    fn fmt<W: fmt::Write>(&self, f: &mut fmt::Formatter<W>) -> fmt::Result {
        f.write_str(match self {
            ShelfFault::Failed => "Failed",
            ShelfFault::NoMemory => "NoMemory",
        })
    }
}

impl error::Error for ShelfFault {}
