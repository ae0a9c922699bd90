// The chains of targets: what a client comes to.
ghost use Rattle.std.specs.Prelude.{IfOk};
ghost use Rattle.sigstore_keys.specs.Crypto.{crypto_with};
ghost use Rattle.sigstore_tuf_runs.specs.State.{session_by};
ghost use Rattle.command_download.specs.Chains.{anchor_under, Comes};
ghost use Rattle.command_download.specs.Client.{anchor_by, outside_by, DeliversEach};

use crate::client::refreshed;
use crate::delivery::{Client, deliver};
use crate::fault::{DownloadFault, fault_of};
use crate::layout::Download;
use crate::shelf::Shelf;
use foundation::{NoMemory, Sequence};
use jiff::Timestamp;
use sigstore_keys::{CryptoProvider, Providers};
use sigstore_tuf_outside::{MetadataStore, Repository};
use sigstore_tuf_rules::{TrustChain, UpdaterConfig};
use sigstore_tuf_runs::Session;
use sigstore_types_parts::Armor;
use std::alloc::Global;

/// What is asked of a client: the pinned root's text, what is put where, and the moment.
#[derive(Drop)]
pub struct DownloadRequest<'a> {
    pub root: &'a [u8],
    pub downloads: &'a [Download],
    pub moment: Timestamp,
}

/// The chains of the targets that were put in their places, in their order, and why the next one wasn't.
#[derive(Drop)]
pub struct Chains {
    pub chains: Sequence<TrustChain>,
    pub stop: Option<DownloadFault>,
}

// The chains of the targets in turn, until one fails.
fn deliver_chains<C: CryptoProvider, M: Armor, R: Repository, S: MetadataStore, F: Shelf>(
    alloc: Global,
    client: &Client<'_, '_, C, M>,
    downloads: &[Download],
    repo: &mut R,
    store: &mut S,
    shelf: &mut F,
) -> Result<Chains, NoMemory>
    ensures { IfOk result (λ had. DeliversEach (session_by C.CryptoProvider M.Armor client.now.session.now) client.now.documents downloads.now
        (outside_by (R.seen repo.old) (S.seen store.old) (F.seen shelf.old))
        (outside_by (R.seen repo.new) (S.seen store.new) (F.seen shelf.new)) had.chains had.stop) }
{
    let mut chains = Sequence::new(alloc);
    'downloads: for download in downloads {
        match deliver(alloc, client, download, repo, store, shelf) {
            Ok(chain) => match chains.push(chain) {
                Ok(()) => (),
                Err(e) => {
                    drop(chains);
                    return Err(e);
                }
            },
            Err(fault) => {
                return Ok(Chains {
                    chains,
                    stop: Some(fault),
                });
            }
        }
    }
    Ok(Chains { chains, stop: None })
}

// The documents are brought up to date once, and then the chains are had in turn.
fn chains_by<C: CryptoProvider, M: Armor, R: Repository, S: MetadataStore, F: Shelf>(
    alloc: Global,
    session: &Session<'_, C, M>,
    request: &DownloadRequest<'_>,
    repo: &mut R,
    store: &mut S,
    shelf: &mut F,
) -> Result<Chains, NoMemory>
    ensures { IfOk result (λ had. Comes (anchor_by (session_by C.CryptoProvider M.Armor session.now) request.now.root.now) request.now.downloads.now
        (outside_by (R.seen repo.old) (S.seen store.old) (F.seen shelf.old))
        (outside_by (R.seen repo.new) (S.seen store.new) (F.seen shelf.new)) had) }
{
    match refreshed(alloc, session, request.root, repo, store) {
        Ok(documents) => {
            let client = Client { session, documents };
            let had = deliver_chains(alloc, &client, request.downloads, repo, store, shelf);
            drop(client);
            had
        }
        Err(e) => Ok(Chains {
            chains: Sequence::new(alloc),
            stop: Some(fault_of(e)),
        }),
    }
}

/// Brings a client's documents up to date once, and puts the file of each target in its place in turn, as `run_download`
/// does, within the program's limits; what it comes to are the chains. Errors: `NoMemory`.
pub fn chains_of<R: Repository, S: MetadataStore, F: Shelf, C: CryptoProvider, M: Armor>(
    alloc: Global,
    request: &DownloadRequest<'_>,
    providers: Providers<'_, C, M>,
    repo: &mut R,
    store: &mut S,
    shelf: &mut F,
) -> Result<Chains, NoMemory>
    ensures { IfOk result (λ had. Comes (anchor_under (crypto_with C.CryptoProvider M.Armor providers.entry) request.now) request.now.downloads.now
        (outside_by (R.seen repo.old) (S.seen store.old) (F.seen shelf.old))
        (outside_by (R.seen repo.new) (S.seen store.new) (F.seen shelf.new)) had) }
{
    let config = UpdaterConfig::default();
    let session = Session {
        providers,
        config: &config,
        moment: request.moment,
    };
    chains_by(alloc, &session, request, repo, store, shelf)
}
