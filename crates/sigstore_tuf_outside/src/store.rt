// Where documents and targets are kept between runs.
ghost use Rattle.std.specs.Prelude.{◌≡◌};
ghost use Rattle.foundation.specs.Watched.{Watched, IfTold};
ghost use Rattle.sigstore_tuf_outside.specs.Repository.{Files};
ghost use Rattle.sigstore_tuf_outside.specs.Store.{Loads, Stores, HoldsNoBadName};
ghost use Rattle.sigstore_tuf_outside.specs.declared.store.StoreFault.TheVariants.{NoMemory};

use foundation::NoMemory;
use sigstore_types_parts::Bytes;
use std::alloc::Global;
use std::{error, fmt};

/// Why nothing is loaded or stored: the call failed, the name is absolute or has a component `..`, or
/// memory is wanting.
#[derive(Clone, Copy, Debug, PartialEq, Eq, Drop)]
pub enum StoreFault {
    /// The call failed.
    Failed,
    /// The name is absolute or has a component `..`, and nothing was touched.
    BadName,
    /// An allocation was refused.
    NoMemory,
}

impl From<NoMemory> for StoreFault {
    ghost from_gives = { λ _ e. e ≡ NoMemory };

    fn from(_: NoMemory) -> StoreFault {
        StoreFault::NoMemory
    }
}

/// Where documents and targets are kept between runs.
pub trait MetadataStore {
    /// The files, where they are told, and how often a call failed.
    ghost seen: { Self → Watched Files };

    /// The bytes under that name; None where there are none. Errors: `BadName`, `Failed`.
    fn load(&mut self, alloc: Global, name: &str) -> Result<Option<Bytes>, StoreFault>
        ensures { Loads (seen self.old) (seen self.new) name.now result };

    /// Puts bytes under that name, in place of those there. Errors: `BadName`, `Failed`.
    fn store(&mut self, alloc: Global, name: &str, bytes: &[u8]) -> Result<(), StoreFault>
        ensures { Stores (seen self.old) (seen self.new) name.now bytes.now result };

    /// Nothing is held under a bad name.
    ghost tame: { (s : Self) → IfTold (seen s).told HoldsNoBadName };
}

impl fmt::Display for StoreFault {
    fn fmt<W: fmt::Write>(&self, f: &mut fmt::Formatter<W>) -> fmt::Result {
        f.write_str(match self {
            StoreFault::Failed => "Failed",
            StoreFault::BadName => "BadName",
            StoreFault::NoMemory => "NoMemory",
        })
    }
}

impl error::Error for StoreFault {}
