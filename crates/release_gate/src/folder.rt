// Where artifacts and their bundles lie.
ghost use Rattle.std.specs.Prelude.{◌≡◌};
ghost use Rattle.foundation.specs.Watched.{Watched, IfTold};
ghost use Rattle.release_gate.specs.Folder.{Contents, Call, bundle_asked, piece_asked, listing_asked, ListsFiles, Lists, ReadsBundle, ReadsAt, Answers};
ghost use Rattle.release_gate.specs.declared.folder.FolderFault.TheVariants.{NoMemory};

use foundation::NoMemory;
use sigstore_types_parts::{Bytes, Text};
use std::alloc::Global;
use std::{error, fmt};

/// Why a call of a folder gives nothing.
#[derive(Clone, Copy, Debug, PartialEq, Eq, Drop)]
pub enum FolderFault {
    /// The call failed.
    Failed,
    /// The file is longer than the limit.
    TooLong { seen: u64 },
    /// An allocation was refused.
    NoMemory,
}

impl From<NoMemory> for FolderFault {
    ghost from_gives = { λ _ e. e ≡ NoMemory };

    fn from(_: NoMemory) -> FolderFault {
        FolderFault::NoMemory
    }
}

/// Where artifacts and their bundles lie, each under a name of its own.
pub trait Folder {
    /// The files and their listing, where they are told, and how often a call failed.
    ghost seen: { Self → Watched Contents };

    /// What a call gave, told or not: the folder before the call, the call with its answer, and the folder behind it.
    ghost gave: { Self → Call → Self → Type 0 };

    /// The name of each file, in any order. Errors: `Failed`, `NoMemory`.
    fn names(&mut self, alloc: Global) -> Result<Vec<Text>, FolderFault>
        ensures promise { Lists (λ names. names.items) (seen self.old) (seen self.new) result }
        ensures gave { gave self.old (listing_asked (λ names. names.items) result) self.new };

    /// The whole file of that name, at most `max` bytes; None where there is none. Errors: `Failed`, `TooLong` for a
    /// longer one, `NoMemory`.
    fn read_bundle(
        &mut self,
        alloc: Global,
        name: &str,
        max: u64,
    ) -> Result<Option<Bytes>, FolderFault>
        ensures promise { ReadsBundle (seen self.old) (seen self.new) name.now max result }
        ensures gave { gave self.old (bundle_asked name.now max result) self.new };

    /// The next bytes of the file of that name from an offset on, at most as many as the buffer holds; 0 for a nonempty
    /// buffer is the end. Takes no memory. Errors: `Failed`.
    fn read_at(&mut self, name: &str, offset: u64, buf: &mut [u8]) -> Result<usize, FolderFault>
        ensures promise { ReadsAt (seen self.old) (seen self.new) name.now offset buf.new result }
        ensures gave { gave self.old (piece_asked name.now offset buf.new result) self.new };

    /// The listing is of the files.
    ghost lists: { (d : Self) → IfTold (seen d).told ListsFiles };

    /// A call keeps its promise.
    ghost answers: { (d e : Self) (call : Call) → gave d call e → Answers (seen d) call (seen e) };
}

impl fmt::Display for FolderFault {
    fn fmt<W: fmt::Write>(&self, f: &mut fmt::Formatter<W>) -> fmt::Result {
        f.write_str(match self {
            FolderFault::Failed => "Failed",
            FolderFault::TooLong { .. } => "TooLong",
            FolderFault::NoMemory => "NoMemory",
        })
    }
}

impl error::Error for FolderFault {}
