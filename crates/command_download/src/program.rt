// A run of `download`.
ghost use Rattle.std.specs.Prelude.{◌≡◌};
ghost use Rattle.sigstore_tuf_runs.specs.State.{session_by};
ghost use Rattle.command_files.specs.Starting.{command_of};
ghost use Rattle.command_files.specs.declared.answer.Status.TheVariants.{Accepted, Refused};
ghost use Rattle.command_download.specs.Client.{anchor_by, outside_by};
ghost use Rattle.command_download.specs.Run.{environment_by, Runs, Says};
ghost use Rattle.command_download.specs.Promises.{Accepts, Refuses, Means, Shelves, Completes};

use crate::client::refreshed;
use crate::delivery::{Client, deliver_each, stopped_behind};
use crate::fault::fault_of;
use crate::layout::{Download, DownloadLayout, download_layout};
use crate::shelf::Shelf;
use command_files::{Anchored, Answer, CommandLine, Inputs, Sink, Started, Status, finish, start};
use foundation::NoMemory;
use sigstore_keys::{CryptoProvider, Providers};
use sigstore_tuf_outside::{MetadataStore, Repository};
use sigstore_tuf_rules::UpdaterConfig;
use sigstore_tuf_runs::Session;
use sigstore_types_parts::Armor;
use std::alloc::Global;

// What is asked of a client: by whom and when it decides, from which root, and what is put where.
#[derive(Drop)]
pub(crate) struct Asked<'a, C: CryptoProvider, M: Armor> {
    session: Session<'a, C, M>,
    root: &'a [u8],
    downloads: &'a [Download],
}

// The documents are brought up to date once, and then the targets are had in turn.
fn downloaded<C: CryptoProvider, M: Armor, R: Repository, S: MetadataStore, F: Shelf>(
    alloc: Global,
    asked: &Asked<'_, C, M>,
    repo: &mut R,
    store: &mut S,
    shelf: &mut F,
) -> Result<Answer, NoMemory>
    ensures { Runs (anchor_by (session_by C.CryptoProvider M.Armor asked.now.session) asked.now.root.now) asked.now.downloads.now
        (outside_by (R.seen repo.old) (S.seen store.old) (F.seen shelf.old))
        (outside_by (R.seen repo.new) (S.seen store.new) (F.seen shelf.new)) result }
{
    match refreshed(alloc, &asked.session, asked.root, repo, store) {
        Ok(documents) => {
            let client = Client {
                session: &asked.session,
                documents,
            };
            let said = deliver_each(alloc, &client, asked.downloads, repo, store, shelf);
            drop(client);
            said
        }
        Err(e) => stopped_behind(String::new(alloc), fault_of(e)),
    }
}

// The words and the inputs, then the run.
fn decide<I: Inputs, R: Repository, S: MetadataStore, F: Shelf>(
    alloc: Global,
    line: &CommandLine<'_>,
    inputs: &mut I,
    repo: &mut R,
    store: &mut S,
    shelf: &mut F,
) -> Result<Answer, NoMemory>
    ensures { Says (command_of line.now)
        (environment_by (I.seen inputs.old) (R.seen repo.old) (S.seen store.old) (F.seen shelf.old))
        (environment_by (I.seen inputs.new) (R.seen repo.new) (S.seen store.new) (F.seen shelf.new)) result }
{
    match start::<DownloadLayout, Anchored, I>(alloc, download_layout(alloc, line.words), inputs) {
        Ok(Started::Asked(layout, anchored)) => {
            let DownloadLayout { places, downloads } = layout;
            let config = UpdaterConfig::default();
            let asked = Asked {
                session: Session {
                    providers: Providers {
                        provider: &anchored.tables.provider,
                        armor: &anchored.tables.armor,
                    },
                    config: &config,
                    moment: places.moment(line.clock),
                },
                root: anchored.root.as_bytes(),
                downloads: downloads.as_slice(),
            };
            let said = downloaded(alloc, &asked, repo, store, shelf);
            drop(anchored);
            drop(downloads);
            said
        }
        Ok(Started::Stopped(said)) => Ok(said),
        Err(e) => Err(e),
    }
}

/// Runs `download` over its words, its clock and the objects of the outside. It reads its words, then the inputs provider
/// and root; brings a client's documents up to date once at the moment, from the root and the store's next roots; then
/// searches each target in turn, over the delegated roles, and puts its file in its place, whole, where its length and
/// digests are the listed ones. A target has a line where its file is in its place. The first refusal ends the run, and
/// what is in place stays. Status 4 where a file couldn't be put in its place or the sink failed, 5 where memory was
/// wanting; then nothing was written to the sink.
pub fn run_download<I: Inputs, R: Repository, S: MetadataStore, F: Shelf, K: Sink>(
    alloc: Global,
    line: &CommandLine<'_>,
    inputs: &mut I,
    repo: &mut R,
    store: &mut S,
    shelf: &mut F,
    out: &mut K,
) -> Status
    ensures accepted { result ≡ Accepted → Accepts (command_of line.now)
        (environment_by (I.seen inputs.old) (R.seen repo.old) (S.seen store.old) (F.seen shelf.old))
        (environment_by (I.seen inputs.new) (R.seen repo.new) (S.seen store.new) (F.seen shelf.new))
        (K.seen out.old) (K.seen out.new) }
    ensures refused { result ≡ Refused → Refuses (command_of line.now)
        (environment_by (I.seen inputs.old) (R.seen repo.old) (S.seen store.old) (F.seen shelf.old))
        (environment_by (I.seen inputs.new) (R.seen repo.new) (S.seen store.new) (F.seen shelf.new))
        (K.seen out.old) (K.seen out.new) }
    ensures means { Means (command_of line.now)
        (environment_by (I.seen inputs.old) (R.seen repo.old) (S.seen store.old) (F.seen shelf.old))
        (environment_by (I.seen inputs.new) (R.seen repo.new) (S.seen store.new) (F.seen shelf.new))
        (K.seen out.old) (K.seen out.new) result }
    ensures shelves { Shelves (command_of line.now)
        (environment_by (I.seen inputs.old) (R.seen repo.old) (S.seen store.old) (F.seen shelf.old))
        (environment_by (I.seen inputs.new) (R.seen repo.new) (S.seen store.new) (F.seen shelf.new)) }
    ensures complete { Completes (command_of line.now)
        (environment_by (I.seen inputs.old) (R.seen repo.old) (S.seen store.old) (F.seen shelf.old))
        (environment_by (I.seen inputs.new) (R.seen repo.new) (S.seen store.new) (F.seen shelf.new))
        (K.seen out.old) (K.seen out.new) result }
{
    let said = decide(alloc, line, inputs, repo, store, shelf);
    finish(&said, out)
}
