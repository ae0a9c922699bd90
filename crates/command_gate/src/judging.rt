// A folder is judged within the program's limits.
ghost use Rattle.sigstore_keys.specs.Crypto.{crypto_with};
ghost use Rattle.release_gate.specs.Gate.{outside_by};
ghost use Rattle.release_gate.specs.Promises.{Promises};
ghost use Rattle.release_gate.specs.Rests.{Rests};
ghost use Rattle.command_gate.specs.Run.{given_of};

use command_verify::MAX_ARTIFACT;
use jiff::Timestamp;
use release_gate::{Folder, GateFault, Gated, gate_from_root};
use sigstore_keys::{CryptoProvider, Providers};
use sigstore_policy::SigningPolicy;
use sigstore_tuf::{MetadataStore, Repository, UpdaterConfig};
use sigstore_types_parts::Armor;
use sigstore_verify::Anchor;
use std::alloc::Global;

/// What is asked of a folder: the rules, of which one has to accept for each artifact, the pinned root's text, and the
/// moment.
#[derive(Drop)]
pub struct FolderRequest<'a> {
    pub rules: &'a [SigningPolicy],
    pub root: &'a [u8],
    pub moment: Timestamp,
}

/// Judges a folder as is asked, within the limits of a verification. Errors are those of `gate_from_root` of
/// `release_gate`.
pub fn gate_folder<R: Repository, S: MetadataStore, D: Folder, C: CryptoProvider, M: Armor>(
    alloc: Global,
    request: &FolderRequest<'_>,
    providers: Providers<'_, C, M>,
    repo: &mut R,
    store: &mut S,
    folder: &mut D,
) -> Result<Gated, GateFault>
    ensures promises { Promises (given_of (crypto_with C.CryptoProvider M.Armor providers.entry) request.now)
        (outside_by (R.seen repo.old) (S.seen store.old) (D.seen folder.old))
        (outside_by (R.seen repo.new) (S.seen store.new) (D.seen folder.new)) result }
    ensures rests { Rests D.gave folder.old folder.new (given_of (crypto_with C.CryptoProvider M.Armor providers.entry) request.now) result }
{
    let anchor = Anchor {
        providers,
        root: request.root,
        config: UpdaterConfig::default(),
        now: request.moment,
    };
    gate_from_root(
        alloc,
        &anchor,
        repo,
        store,
        folder,
        MAX_ARTIFACT,
        request.rules,
    )
}
