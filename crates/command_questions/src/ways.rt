// A run that notes what a verification in any way asks.
ghost use Rattle.std.specs.Prelude.{◌≡◌, IfOk};
ghost use Rattle.question_notes.specs.Believing.{believing};
ghost use Rattle.command_files.specs.Starting.{command_of};
ghost use Rattle.command_files.specs.declared.answer.Status.TheVariants.{Accepted};
ghost use Rattle.command_verify.specs.Run.{given_of};
ghost use Rattle.command_ways.specs.Judging.{outside_by, VerifiesWay};
ghost use Rattle.command_ways.specs.Run.{environment_by};
ghost use Rattle.command_questions.specs.WayMeans.{Asks, Says, RunsTo, WritesRows};

use crate::program::questions_text;
use crate::reading_store::ReadingStore;
use crate::way_suffice::sufficient_for_way;
use command_files::{Answer, CommandLine, Gathered, Inputs, Sink, Started, Status, finish, start};
use command_verify::VerifyRequest;
use command_ways::{Came, Way, WayLayout, asked_way_layout, verify_way};
use foundation::NoMemory;
use jiff::Timestamp;
use question_notes::{Noted, Notes, NotingArmor, NotingProvider};
use sigstore_keys::{ArtifactSource, Providers};
use sigstore_tuf::{MetadataStore, Repository};
use std::alloc::Global;

// Runs the verification, refuses what the tables of the notes hold, and notes what else it asks.
fn verify_noting<R: Repository, S: MetadataStore, B: ArtifactSource, A: ArtifactSource>(
    alloc: Global,
    notes: &Notes<'_>,
    request: &VerifyRequest<'_>,
    way: Way,
    repo: &mut R,
    store: &mut S,
    archive: &mut B,
    artifact: &mut A,
) -> Came
    ensures { VerifiesWay (given_of (believing notes.now.refused.now.rows) request.now) way
        (outside_by (R.seen repo.old) (S.seen store.old) (B.seen archive.old) (A.seen artifact.old))
        (outside_by (R.seen repo.new) (S.seen store.new) (B.seen archive.new) (A.seen artifact.new)) result }
{
    let provider = NotingProvider::new(notes);
    let armor = NotingArmor::new(notes);
    let providers = Providers {
        provider: &provider,
        armor: &armor,
    };
    verify_way(
        alloc, request, providers, way, repo, store, archive, artifact,
    )
}

// What a verification asks, which suffices for what it came to; its verdict is thrown away.
fn asked<R: Repository, S: MetadataStore, B: ArtifactSource, A: ArtifactSource>(
    alloc: Global,
    way: Way,
    gathered: Gathered,
    now: Timestamp,
    repo: &mut R,
    store: &mut S,
    archive: &mut B,
    artifact: &mut A,
) -> Result<Noted, NoMemory>
    ensures { IfOk result (λ noted. Asks way gathered now noted.tables
        (outside_by (R.seen repo.old) (S.seen store.old) (B.seen archive.old) (A.seen artifact.old))
        (outside_by (R.seen repo.new) (S.seen store.new) (B.seen archive.new) (A.seen artifact.new))) }
{
    let request = VerifyRequest {
        rules: gathered.rules.as_slice(),
        root: gathered.root.as_bytes(),
        bundle: gathered.bundle.as_bytes(),
        moment: now,
    };
    let notes = Notes::new(alloc, &gathered.tables.provider);
    let came = verify_noting(alloc, &notes, &request, way, repo, store, archive, artifact);
    let noted = sufficient_for_way(alloc, notes, &request, &came);
    drop(came);
    noted
}

// The words and the inputs, then the questions.
fn decide<I: Inputs, R: Repository, S: MetadataStore, B: ArtifactSource, A: ArtifactSource>(
    alloc: Global,
    line: &CommandLine<'_>,
    inputs: &mut I,
    repo: &mut R,
    store: &mut S,
    archive: &mut B,
    artifact: &mut A,
) -> Result<Answer, NoMemory>
    ensures { Says (command_of line.now)
        (environment_by (I.seen inputs.old) (R.seen repo.old) (S.seen store.old) (B.seen archive.old) (A.seen artifact.old))
        (environment_by (I.seen inputs.new) (R.seen repo.new) (S.seen store.new) (B.seen archive.new) (A.seen artifact.new)) result }
{
    match start(alloc, asked_way_layout(alloc, line.words), inputs) {
        Ok(Started::Asked(layout, gathered)) => {
            let WayLayout { way, places, .. } = layout;
            let now = places.moment(line.clock);
            match asked(alloc, way, gathered, now, repo, store, archive, artifact) {
                Ok(noted) => Ok(questions_text(noted)),
                Err(e) => Err(e),
            }
        }
        Ok(Started::Stopped(said)) => Ok(said),
        Err(e) => Err(e),
    }
}

/// Notes what a verification in any way asks, as `run_questions` does of the first way: over an artifact that is told by
/// digests, or with trust from an archive or from a trusted root. Accepted says that the questions were written, and that they
/// suffice: what the run came to stands by them alone.
pub fn run_way_questions<
    I: Inputs,
    R: Repository,
    S: MetadataStore,
    B: ArtifactSource,
    A: ArtifactSource,
    K: Sink,
>(
    alloc: Global,
    line: &CommandLine<'_>,
    inputs: &mut I,
    repo: &mut R,
    store: &mut ReadingStore<S>,
    archive: &mut B,
    artifact: &mut A,
    out: &mut K,
) -> Status
    ensures runs { RunsTo (command_of line.now)
        (environment_by (I.seen inputs.old) (R.seen repo.old) (⟦<ReadingStore<S> as MetadataStore>⟧.seen store.old) (B.seen archive.old) (A.seen artifact.old))
        (environment_by (I.seen inputs.new) (R.seen repo.new) (⟦<ReadingStore<S> as MetadataStore>⟧.seen store.new) (B.seen archive.new) (A.seen artifact.new))
        (K.seen out.old) (K.seen out.new) result }
    ensures rows { result ≡ Accepted → WritesRows (command_of line.now)
        (environment_by (I.seen inputs.old) (R.seen repo.old) (⟦<ReadingStore<S> as MetadataStore>⟧.seen store.old) (B.seen archive.old) (A.seen artifact.old))
        (environment_by (I.seen inputs.new) (R.seen repo.new) (⟦<ReadingStore<S> as MetadataStore>⟧.seen store.new) (B.seen archive.new) (A.seen artifact.new))
        (K.seen out.old) (K.seen out.new) }
{
    let said = decide(alloc, line, inputs, repo, store, archive, artifact);
    finish(&said, out)
}
