// What an archive holds.
ghost use Rattle.std.specs.Prelude.{◌≡◌};
ghost use Rattle.trust_archive.specs.Spelling.{with_target};

use foundation::Sequence;
use sigstore_tuf_parts::TargetFile;
use sigstore_tuf_rules::{RoleDoc, TrustChain};
use sigstore_types_parts::Bytes;

// A chain, but for its target's entry, which its last role's document tells.
#[derive(Drop)]
pub(crate) struct Archive {
    pub(crate) roots: Sequence<Bytes>,
    pub(crate) timestamp: Bytes,
    pub(crate) snapshot: Bytes,
    pub(crate) roles: Sequence<RoleDoc>,
    pub(crate) file: Bytes,
}

impl Archive {
    // The chain, of this target.
    pub(crate) fn into_chain(self, target: TargetFile) -> TrustChain
        ensures { result ≡ with_target self target }
    {
        let Archive {
            roots,
            timestamp,
            snapshot,
            roles,
            file,
        } = self;
        TrustChain {
            roots,
            timestamp,
            snapshot,
            roles,
            target,
            file,
        }
    }
}
