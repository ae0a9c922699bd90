// Where documents and targets are fetched.
ghost use Rattle.std.specs.Prelude.{◌≡◌};
ghost use Rattle.foundation.specs.Watched.{Watched};
ghost use Rattle.sigstore_tuf_outside.specs.Repository.{Folders, Fetches, metadata_files, target_files};
ghost use Rattle.sigstore_tuf_outside.specs.declared.repository.FetchFault.TheVariants.{NoMemory};

use foundation::NoMemory;
use sigstore_types_parts::Bytes;
use std::alloc::Global;
use std::{error, fmt};

/// Why nothing is fetched: the call failed, the file is longer than the limit, or memory is wanting.
#[derive(Clone, Copy, Debug, PartialEq, Eq, Drop)]
pub enum FetchFault {
    /// The call failed.
    Failed,
    /// The file is longer than the limit.
    TooLong { seen: u64 },
    /// An allocation was refused.
    NoMemory,
}

impl From<NoMemory> for FetchFault {
    ghost from_gives = { λ _ e. e ≡ NoMemory };

    fn from(_: NoMemory) -> FetchFault {
        FetchFault::NoMemory
    }
}

/// Where documents and targets are fetched.
pub trait Repository {
    /// The files, where they are told, and how often a call failed.
    ghost seen: { Self → Watched Folders };

    /// The document of that name, at most `max` bytes; None where there is none. Errors: `Failed`,
    /// `TooLong` for a longer one.
    fn fetch_metadata(
        &mut self,
        alloc: Global,
        name: &str,
        max: u64,
    ) -> Result<Option<Bytes>, FetchFault>
        ensures { Fetches metadata_files (seen self.old) (seen self.new) name.now max result };

    /// The target of that path, at most `max` bytes; None where there is none. Errors: `Failed`,
    /// `TooLong` for a longer one.
    fn fetch_target(
        &mut self,
        alloc: Global,
        path: &str,
        max: u64,
    ) -> Result<Option<Bytes>, FetchFault>
        ensures { Fetches target_files (seen self.old) (seen self.new) path.now max result };
}

impl fmt::Display for FetchFault {
    fn fmt<W: fmt::Write>(&self, f: &mut fmt::Formatter<W>) -> fmt::Result {
        f.write_str(match self {
            FetchFault::Failed => "Failed",
            FetchFault::TooLong { .. } => "TooLong",
            FetchFault::NoMemory => "NoMemory",
        })
    }
}

impl error::Error for FetchFault {}
