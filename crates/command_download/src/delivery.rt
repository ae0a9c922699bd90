// The targets, each searched, had and put in its place.
ghost use Rattle.std.specs.Prelude.{◌≡◌, List, Some, None, IfOk, string_bytes};
ghost use Rattle.sigstore_tuf_runs.specs.State.{session_by};
ghost use Rattle.command_download.specs.Client.{outside_by, Delivers};
ghost use Rattle.command_download.specs.Report.{targets_lines, report_of, refusal_of, unplaced_of};
ghost use Rattle.command_download.specs.Run.{stop_answer, answer_of, Tells};
ghost use Rattle.command_download.specs.declared.layout.Download.{Download as Asked};
ghost use Rattle.sigstore_tuf_rules.specs.declared.chain.TrustChain.{TrustChain as Chain};

use crate::documents::top_of;
use crate::fault::{DownloadFault, fault_of, fault_of_shelf};
use crate::layout::Download;
use crate::report::{push_target, push_versions};
use crate::shelf::Shelf;
use command_files::{Answer, Status, push_line, push_pair_line, push_refused_line};
use foundation::NoMemory;
use sigstore_keys::CryptoProvider;
use sigstore_tuf_client::find_chain;
use sigstore_tuf_outside::{MetadataStore, Repository};
use sigstore_tuf_rules::{InForce, TrustChain};
use sigstore_tuf_runs::Session;
use sigstore_types_parts::{Armor, Text};
use std::alloc::Global;

// A client whose documents were brought up to date, and for whom it decides.
#[derive(Drop)]
pub(crate) struct Client<'c, 's, C: CryptoProvider, M: Armor> {
    pub(crate) session: &'c Session<'s, C, M>,
    pub(crate) documents: InForce,
}

// Searches a target from the top-level documents, has its file, and puts it in its place.
pub(crate) fn deliver<C: CryptoProvider, M: Armor, R: Repository, S: MetadataStore, F: Shelf>(
    alloc: Global,
    client: &Client<'_, '_, C, M>,
    download: &Download,
    repo: &mut R,
    store: &mut S,
    shelf: &mut F,
) -> Result<TrustChain, DownloadFault>
    ensures { Delivers (session_by C.CryptoProvider M.Armor client.now.session.now) client.now.documents download.now
        (outside_by (R.seen repo.old) (S.seen store.old) (F.seen shelf.old))
        (outside_by (R.seen repo.new) (S.seen store.new) (F.seen shelf.new)) result }
{
    let Ok(mut documents) = top_of(alloc, &client.documents) else {
        return Err(DownloadFault::NoMemory);
    };
    let found = find_chain(
        alloc,
        client.session,
        &mut documents,
        repo,
        store,
        download.target.as_str(),
    );
    drop(documents);
    match found {
        Ok(chain) => match shelf.place(alloc, download.out.as_str(), chain.file.as_bytes()) {
            Ok(()) => Ok(chain),
            Err(fault) => {
                drop(chain);
                Err(fault_of_shelf(fault))
            }
        },
        Err(e) => Err(fault_of(e)),
    }
}

// What is said of a run that was stopped, behind the lines on the files that are in their places.
#[tactic(auto, unfolding(crate::specs::Report::refusal_of, crate::specs::Report::unplaced_of))]
pub(crate) fn stopped_behind(lines: String, fault: DownloadFault) -> Result<Answer, NoMemory>
    ensures { (downloads : List Asked) (chains : List Chain) → targets_lines downloads chains ≡ string_bytes lines
        → IfOk result (λ said. stop_answer downloads chains fault ≡ Some said) }
{
    let mut text = lines;
    match fault {
        DownloadFault::Tuf(e) => {
            let pushed = push_refused_line(&mut text, "tuf", e.number(), e.name());
            drop(e);
            pushed?;
            Ok(Answer {
                status: Status::Refused,
                text: Text::from_string(text),
            })
        }
        DownloadFault::Unplaced => {
            push_pair_line(&mut text, "output", "file")?;
            Ok(Answer {
                status: Status::Output,
                text: Text::from_string(text),
            })
        }
        DownloadFault::NoMemory => Err(NoMemory),
    }
}

// What is said of a run whose files are all in their places, by the lines on them.
#[tactic(auto, unfolding(crate::specs::Report::report_of))]
fn reported(alloc: Global, documents: &InForce, lines: &str) -> Result<Answer, NoMemory>
    ensures { (downloads : List Asked) (chains : List Chain) → targets_lines downloads chains ≡ lines.now
        → IfOk result (λ said. answer_of documents.now downloads chains None ≡ Some said) }
{
    let mut text = String::new(alloc);
    push_line(&mut text, "downloaded")?;
    push_versions(&mut text, documents)?;
    text.push_str(lines)?;
    Ok(Answer {
        status: Status::Accepted,
        text: Text::from_string(text),
    })
}

// Each target in turn, until one fails.
pub(crate) fn deliver_each<C: CryptoProvider, M: Armor, R: Repository, S: MetadataStore, F: Shelf>(
    alloc: Global,
    client: &Client<'_, '_, C, M>,
    downloads: &[Download],
    repo: &mut R,
    store: &mut S,
    shelf: &mut F,
) -> Result<Answer, NoMemory>
    ensures { Tells (session_by C.CryptoProvider M.Armor client.now.session.now) client.now.documents downloads.now
        (outside_by (R.seen repo.old) (S.seen store.old) (F.seen shelf.old))
        (outside_by (R.seen repo.new) (S.seen store.new) (F.seen shelf.new)) result }
{
    let mut lines = String::new(alloc);
    'downloads: for download in downloads {
        match deliver(alloc, client, download, repo, store, shelf) {
            Ok(chain) => {
                let name = download.target.as_str();
                let pushed = push_target(alloc, &mut lines, name, chain.file.as_bytes());
                drop(chain);
                match pushed {
                    Ok(()) => (),
                    Err(e) => return Err(e),
                }
            }
            Err(fault) => return stopped_behind(lines, fault),
        }
    }
    reported(alloc, &client.documents, lines.as_str())
}
