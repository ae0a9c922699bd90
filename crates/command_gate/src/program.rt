// A run of `gate`.
ghost use Rattle.std.specs.Prelude.{◌≡◌, Some, IfOk};
ghost use Rattle.release_gate.specs.Gate.{outside_by};
ghost use Rattle.release_gate.specs.Rests.{Rests};
ghost use Rattle.command_files.specs.Starting.{command_of};
ghost use Rattle.command_gate.specs.Run.{environment_by, given_by, fault_answer, answer_of, Judges, Says, Means, Rested};
ghost use Rattle.command_gate.specs.Complete.{Completes};

use crate::judging::{FolderRequest, gate_folder};
use crate::layout::gate_layout;
use crate::lines::lines_said;
use command_files::{
    Answer, CommandLine, Governed, Inputs, Sink, Started, Status, finish, pair, start,
};
use command_verify::{refused_tuf, refused_verify};
use foundation::NoMemory;
use jiff::Timestamp;
use release_gate::{Folder, GateFault, Gated};
use sigstore_keys::Providers;
use sigstore_tuf::{MetadataStore, Repository};
use std::alloc::Global;

/// What is said of a folder that isn't judged.
#[tactic(auto, unfolding(crate::specs::Run::fault_answer))]
pub fn fault_said(alloc: Global, fault: &GateFault) -> Result<Answer, NoMemory>
    ensures { IfOk result (λ said. fault_answer fault.now ≡ Some said) }
{
    match fault {
        GateFault::Tuf(e) => Ok(refused_tuf(alloc, e)?),
        GateFault::Trust { fault, .. } => Ok(refused_verify(alloc, fault)?),
        GateFault::FolderFailed => Ok(pair(alloc, Status::Input, "input", "folder")?),
        GateFault::TooManyNames { .. } => {
            Ok(pair(alloc, Status::Input, "input", "folder count")?)
        }
        GateFault::DoubledName { .. } => {
            Ok(pair(alloc, Status::Input, "input", "folder doubled")?)
        }
        GateFault::Vanished { .. } => {
            Ok(pair(alloc, Status::Input, "input", "folder vanished")?)
        }
        GateFault::NoMemory => Err(NoMemory),
    }
}

// What is said of a folder, judged or not.
fn answered(alloc: Global, judged: &Result<Gated, GateFault>) -> Result<Answer, NoMemory>
    ensures { IfOk result (λ said. answer_of judged.now ≡ Some said) }
{
    match judged {
        Ok(gated) => lines_said(alloc, gated.lines.as_slice()),
        Err(fault) => fault_said(alloc, fault),
    }
}

// The folder is judged, and what is said of it.
fn judge<R: Repository, S: MetadataStore, D: Folder>(
    alloc: Global,
    governed: Governed,
    now: Timestamp,
    repo: &mut R,
    store: &mut S,
    folder: &mut D,
) -> Result<Answer, NoMemory>
    ensures { IfOk result (Judges (Rests D.gave folder.old folder.new) (given_by governed now)
        (outside_by (R.seen repo.old) (S.seen store.old) (D.seen folder.old))
        (outside_by (R.seen repo.new) (S.seen store.new) (D.seen folder.new))) }
{
    let request = FolderRequest {
        rules: governed.rules.as_slice(),
        root: governed.anchored.root.as_bytes(),
        moment: now,
    };
    let providers = Providers {
        provider: &governed.anchored.tables.provider,
        armor: &governed.anchored.tables.armor,
    };
    let judged = gate_folder(alloc, &request, providers, repo, store, folder);
    let said = answered(alloc, &judged);
    drop(judged);
    said
}

// The words and the inputs, then the folder.
fn decide<I: Inputs, R: Repository, S: MetadataStore, D: Folder>(
    alloc: Global,
    line: &CommandLine<'_>,
    inputs: &mut I,
    repo: &mut R,
    store: &mut S,
    folder: &mut D,
) -> Result<Answer, NoMemory>
    ensures { Says (Rests D.gave folder.old folder.new) (command_of line.now)
        (environment_by (I.seen inputs.old) (R.seen repo.old) (S.seen store.old) (D.seen folder.old))
        (environment_by (I.seen inputs.new) (R.seen repo.new) (S.seen store.new) (D.seen folder.new)) result }
{
    match start(alloc, gate_layout(alloc, line.words), inputs) {
        Ok(Started::Asked(layout, governed)) => {
            let now = layout.moment(line.clock);
            judge(alloc, governed, now, repo, store, folder)
        }
        Ok(Started::Stopped(said)) => Ok(said),
        Err(e) => Err(e),
    }
}

/// Runs `gate` over its words, its clock and the objects of the outside: reads the words, then the inputs policy,
/// provider and root, judges the folder from the root, and writes one line for each artifact, in ascending order of
/// their names. Status 0 where all are admitted, 1 where some are denied. A refusal of the documents or of the trust
/// file, `usage` or `input` is one line. Status 4 where a write failed, 5 where memory was wanting; then nothing was
/// written.
pub fn run_gate<I: Inputs, R: Repository, S: MetadataStore, D: Folder, K: Sink>(
    alloc: Global,
    line: &CommandLine<'_>,
    inputs: &mut I,
    repo: &mut R,
    store: &mut S,
    folder: &mut D,
    out: &mut K,
) -> Status
    ensures means { Means (command_of line.now)
        (environment_by (I.seen inputs.old) (R.seen repo.old) (S.seen store.old) (D.seen folder.old))
        (environment_by (I.seen inputs.new) (R.seen repo.new) (S.seen store.new) (D.seen folder.new))
        (K.seen out.old) (K.seen out.new) result }
    ensures complete { Completes (command_of line.now)
        (environment_by (I.seen inputs.old) (R.seen repo.old) (S.seen store.old) (D.seen folder.old))
        (environment_by (I.seen inputs.new) (R.seen repo.new) (S.seen store.new) (D.seen folder.new))
        (K.seen out.old) (K.seen out.new) result }
    ensures rests { Rested (Rests D.gave folder.old folder.new) (command_of line.now)
        (environment_by (I.seen inputs.old) (R.seen repo.old) (S.seen store.old) (D.seen folder.old))
        (environment_by (I.seen inputs.new) (R.seen repo.new) (S.seen store.new) (D.seen folder.new))
        (K.seen out.old) (K.seen out.new) result }
{
    let said = decide(alloc, line, inputs, repo, store, folder);
    finish(&said, out)
}
