// The documents of a client, brought up to date once.
ghost use Rattle.foundation.specs.Watched.{Watched};
ghost use Rattle.sigstore_tuf_runs.specs.State.{session_by};
ghost use Rattle.command_download.specs.Client.{anchor_by, outside_by, Refreshes};
ghost use Rattle.command_download.specs.declared.shelf.Placed.{Placed};
ghost use Rattle.std.specs.Prelude.{List};

use sigstore_keys::CryptoProvider;
use sigstore_tuf_client::{attach, run_steps};
use sigstore_tuf_outside::{MetadataStore, Repository};
use sigstore_tuf_parts::Error;
use sigstore_tuf_rules::{InForce, Kind, first_root};
use sigstore_tuf_runs::{Session, Step};
use sigstore_types_parts::Armor;
use std::alloc::Global;

// The documents of the first root that these bytes are, with the store's next roots, brought up to date at the moment.
pub(crate) fn refreshed<C: CryptoProvider, M: Armor, R: Repository, S: MetadataStore>(
    alloc: Global,
    session: &Session<'_, C, M>,
    root: &[u8],
    repo: &mut R,
    store: &mut S,
) -> Result<InForce, Error>
    ensures { (shelf : Watched (List Placed)) → Refreshes (anchor_by (session_by C.CryptoProvider M.Armor session.now) root.now)
        (outside_by (R.seen repo.old) (S.seen store.old) shelf) (outside_by (R.seen repo.new) (S.seen store.new) shelf) result }
{
    let steps = [
        Step::WalkRoots,
        Step::CheckRoot,
        Step::Seed(Kind::Timestamp),
        Step::Seed(Kind::Snapshot),
        Step::Seed(Kind::Targets),
        Step::Fetch(Kind::Timestamp),
        Step::CheckTimestamp,
        Step::Fetch(Kind::Snapshot),
        Step::CheckSnapshot,
        Step::Fetch(Kind::Targets),
    ];
    let mut documents = match first_root(alloc, &session.providers, root) {
        Ok(documents) => documents,
        Err(e) => return Err(e),
    };
    if let Err(e) = attach(alloc, &session.providers, &mut documents, store) {
        drop(documents);
        return Err(e);
    }
    if let Err(e) = run_steps(alloc, session, &mut documents, repo, store, &steps) {
        drop(documents);
        return Err(e);
    }
    Ok(documents)
}
