// A run that notes what the judgement of a folder asks.
ghost use Rattle.std.specs.Prelude.{◌≡◌, IfOk};
ghost use Rattle.release_gate.specs.Gate.{outside_by};
ghost use Rattle.release_gate.specs.Promises.{Promises};
ghost use Rattle.question_notes.specs.Believing.{believing};
ghost use Rattle.command_files.specs.Starting.{command_of};
ghost use Rattle.command_files.specs.declared.answer.Status.TheVariants.{Accepted};
ghost use Rattle.command_gate.specs.Run.{environment_by, given_of};
ghost use Rattle.command_questions.specs.GateMeans.{Asks, Says, RunsTo, WritesRows};

use crate::program::questions_text;
use crate::reading_store::ReadingStore;
use crate::suffice::sufficient_for_folder;
use command_files::{Answer, CommandLine, Governed, Inputs, Sink, Started, Status, finish, start};
use command_gate::{FolderRequest, asked_gate_layout, gate_folder};
use foundation::NoMemory;
use jiff::Timestamp;
use question_notes::{Noted, Notes, NotingArmor, NotingProvider};
use release_gate::{Folder, GateFault, Gated};
use sigstore_keys::Providers;
use sigstore_tuf::{MetadataStore, Repository};
use std::alloc::Global;

// Judges the folder, refuses what the tables of the notes hold, and notes what else it asks.
fn gate_noting<R: Repository, S: MetadataStore, D: Folder>(
    alloc: Global,
    notes: &Notes<'_>,
    request: &FolderRequest<'_>,
    repo: &mut R,
    store: &mut S,
    folder: &mut D,
) -> Result<Gated, GateFault>
    ensures { Promises (given_of (believing notes.now.refused.now.rows) request.now)
        (outside_by (R.seen repo.old) (S.seen store.old) (D.seen folder.old))
        (outside_by (R.seen repo.new) (S.seen store.new) (D.seen folder.new)) result }
{
    let provider = NotingProvider::new(notes);
    let armor = NotingArmor::new(notes);
    let providers = Providers {
        provider: &provider,
        armor: &armor,
    };
    gate_folder(alloc, request, providers, repo, store, folder)
}

// What the judgement of a folder asks, which suffices for the chain of documents that it came to; its verdicts are thrown
// away.
fn asked<R: Repository, S: MetadataStore, D: Folder>(
    alloc: Global,
    governed: Governed,
    now: Timestamp,
    repo: &mut R,
    store: &mut S,
    folder: &mut D,
) -> Result<Noted, NoMemory>
    ensures { IfOk result (λ noted. Asks governed now noted.tables
        (outside_by (R.seen repo.old) (S.seen store.old) (D.seen folder.old))
        (outside_by (R.seen repo.new) (S.seen store.new) (D.seen folder.new))) }
{
    let request = FolderRequest {
        rules: governed.rules.as_slice(),
        root: governed.anchored.root.as_bytes(),
        moment: now,
    };
    let notes = Notes::new(alloc, &governed.anchored.tables.provider);
    let judged = gate_noting(alloc, &notes, &request, repo, store, folder);
    let noted = sufficient_for_folder(alloc, notes, &request, &judged);
    drop(judged);
    noted
}

// The words and the inputs, then the questions.
fn decide<I: Inputs, R: Repository, S: MetadataStore, D: Folder>(
    alloc: Global,
    line: &CommandLine<'_>,
    inputs: &mut I,
    repo: &mut R,
    store: &mut S,
    folder: &mut D,
) -> Result<Answer, NoMemory>
    ensures { Says (command_of line.now)
        (environment_by (I.seen inputs.old) (R.seen repo.old) (S.seen store.old) (D.seen folder.old))
        (environment_by (I.seen inputs.new) (R.seen repo.new) (S.seen store.new) (D.seen folder.new)) result }
{
    match start(alloc, asked_gate_layout(alloc, line.words), inputs) {
        Ok(Started::Asked(layout, governed)) => {
            let now = layout.moment(line.clock);
            match asked(alloc, governed, now, repo, store, folder) {
                Ok(noted) => Ok(questions_text(noted)),
                Err(e) => Err(e),
            }
        }
        Ok(Started::Stopped(said)) => Ok(said),
        Err(e) => Err(e),
    }
}

/// Notes what the judgement of a folder asks, over these words, inputs and objects of the outside, where the signatures
/// of the file `refused` aren't good and all others are, and writes it as a provider file: each question of all
/// artifacts once, in the order in which they were asked, as many as a provider file may hold. Nothing is judged: the
/// status is never Refused, and Accepted says that the questions were written, and that the chain of documents that
/// the run came to is trusted by them alone. Status 4 where a write failed, 5 where memory was wanting, or a provider file
/// has no room for a question that is needed; then nothing was written.
pub fn run_gate_questions<I: Inputs, R: Repository, S: MetadataStore, D: Folder, K: Sink>(
    alloc: Global,
    line: &CommandLine<'_>,
    inputs: &mut I,
    repo: &mut R,
    store: &mut ReadingStore<S>,
    folder: &mut D,
    out: &mut K,
) -> Status
    ensures runs { RunsTo (command_of line.now)
        (environment_by (I.seen inputs.old) (R.seen repo.old) (⟦<ReadingStore<S> as MetadataStore>⟧.seen store.old) (D.seen folder.old))
        (environment_by (I.seen inputs.new) (R.seen repo.new) (⟦<ReadingStore<S> as MetadataStore>⟧.seen store.new) (D.seen folder.new))
        (K.seen out.old) (K.seen out.new) result }
    ensures rows { result ≡ Accepted → WritesRows (command_of line.now)
        (environment_by (I.seen inputs.old) (R.seen repo.old) (⟦<ReadingStore<S> as MetadataStore>⟧.seen store.old) (D.seen folder.old))
        (environment_by (I.seen inputs.new) (R.seen repo.new) (⟦<ReadingStore<S> as MetadataStore>⟧.seen store.new) (D.seen folder.new))
        (K.seen out.old) (K.seen out.new) }
{
    let said = decide(alloc, line, inputs, repo, store, folder);
    finish(&said, out)
}
