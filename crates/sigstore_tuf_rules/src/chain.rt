// The documents and the file that one search for a target went through.
ghost use Rattle.std.specs.Prelude.{◌≡◌};

use foundation::{Duplicate, NoMemory, Sequence};
use sigstore_tuf_parts::TargetFile;
use sigstore_types_parts::{Bytes, Text};
use std::alloc::Global;

/// One visit of the search: the role, the role that delegates to it (`root` for `targets`), and its
/// document, none where the snapshot doesn't pin it.
#[derive(Drop)]
pub struct RoleDoc {
    pub name: Text,
    pub delegator: Text,
    pub bytes: Option<Bytes>,
}

/// The documents by which a target is trusted, with the target's entry and its file: the roots from the
/// given one to the one in force, the timestamp, the snapshot, and the roles in the order of the search,
/// the last of which lists the file (TUF specification, section 5).
#[derive(Drop)]
pub struct TrustChain {
    pub roots: Sequence<Bytes>,
    pub timestamp: Bytes,
    pub snapshot: Bytes,
    pub roles: Sequence<RoleDoc>,
    pub target: TargetFile,
    pub file: Bytes,
}

impl Duplicate for RoleDoc {
    fn duplicate(&self, alloc: Global) -> Result<RoleDoc, NoMemory> {
        Ok(RoleDoc {
            name: self.name.duplicate(alloc)?,
            delegator: self.delegator.duplicate(alloc)?,
            bytes: self.bytes.duplicate(alloc)?,
        })
    }
}

impl Duplicate for TrustChain {
    fn duplicate(&self, alloc: Global) -> Result<TrustChain, NoMemory> {
        Ok(TrustChain {
            roots: self.roots.duplicate(alloc)?,
            timestamp: self.timestamp.duplicate(alloc)?,
            snapshot: self.snapshot.duplicate(alloc)?,
            roles: self.roles.duplicate(alloc)?,
            file: self.file.duplicate(alloc)?,
            target: self.target.duplicate(alloc)?,
        })
    }
}
