// A run that notes what a verification asks.
ghost use Rattle.std.specs.Prelude.{◌≡◌, IfOk, string_bytes};
ghost use Rattle.sigstore_verify.specs.Inputs.{outside_by};
ghost use Rattle.sigstore_verify.specs.ByRules.{RunsByRules};
ghost use Rattle.question_notes.specs.Believing.{believing};
ghost use Rattle.command_files.specs.Starting.{command_of};
ghost use Rattle.command_files.specs.declared.answer.Status.TheVariants.{Accepted};
ghost use Rattle.command_verify.specs.Run.{environment_by, given_of};
ghost use Rattle.command_questions.specs.Means.{IsQuestions, Asks, Says, RunsTo, WritesRows};

use crate::reading_store::ReadingStore;
use crate::suffice::sufficient;
use command_files::{
    Answer, CommandLine, Gathered, Inputs, Sink, Started, Status, finish, read_asked_layout, start,
};
use command_verify::{VerifyRequest, verify_request};
use foundation::NoMemory;
use jiff::Timestamp;
use question_notes::{Noted, Notes, NotingArmor, NotingProvider};
use sigstore_keys::{ArtifactSource, Providers};
use sigstore_tuf::{MetadataStore, Repository};
use sigstore_types_parts::Text;
use sigstore_verify::{RuleAcceptance, RulesFault};
use std::alloc::Global;

// Runs the verification, refuses what the tables of the notes hold, and notes what else it asks.
fn verify_noting<R: Repository, S: MetadataStore, A: ArtifactSource>(
    alloc: Global,
    notes: &Notes<'_>,
    request: &VerifyRequest<'_>,
    repo: &mut R,
    store: &mut S,
    artifact: &mut A,
) -> Result<RuleAcceptance, RulesFault>
    ensures { RunsByRules (given_of (believing notes.now.refused.now.rows) request.now)
        (outside_by (R.seen repo.old) (S.seen store.old) (A.seen artifact.old))
        (outside_by (R.seen repo.new) (S.seen store.new) (A.seen artifact.new)) result }
{
    let provider = NotingProvider::new(notes);
    let armor = NotingArmor::new(notes);
    let providers = Providers {
        provider: &provider,
        armor: &armor,
    };
    verify_request(alloc, request, providers, repo, store, artifact)
}

// What a verification asks, which suffices for what it came to; its verdict is thrown away.
fn asked<R: Repository, S: MetadataStore, A: ArtifactSource>(
    alloc: Global,
    gathered: Gathered,
    now: Timestamp,
    repo: &mut R,
    store: &mut S,
    artifact: &mut A,
) -> Result<Noted, NoMemory>
    ensures { IfOk result (λ noted. Asks gathered now noted.tables
        (outside_by (R.seen repo.old) (S.seen store.old) (A.seen artifact.old))
        (outside_by (R.seen repo.new) (S.seen store.new) (A.seen artifact.new))) }
{
    let request = VerifyRequest {
        rules: gathered.rules.as_slice(),
        root: gathered.root.as_bytes(),
        bundle: gathered.bundle.as_bytes(),
        moment: now,
    };
    let notes = Notes::new(alloc, &gathered.tables.provider);
    let judged = verify_noting(alloc, &notes, &request, repo, store, artifact);
    let noted = sufficient(alloc, notes, &request, &judged);
    drop(judged);
    noted
}

/// What is said of the questions that were noted: the text of a provider file.
pub fn questions_text(noted: Noted) -> Answer
    ensures text { result.text ≡ string_bytes noted.text }
    ensures status { result.status ≡ Accepted }
    ensures rows { IsQuestions result.text noted.tables }
{
    let Noted { tables, text } = noted;
    drop(tables);
    Answer {
        status: Status::Accepted,
        text: Text::from_string(text),
    }
}

// The words and the inputs, then the questions.
fn decide<I: Inputs, R: Repository, S: MetadataStore, A: ArtifactSource>(
    alloc: Global,
    line: &CommandLine<'_>,
    inputs: &mut I,
    repo: &mut R,
    store: &mut S,
    artifact: &mut A,
) -> Result<Answer, NoMemory>
    ensures { Says (command_of line.now)
        (environment_by (I.seen inputs.old) (R.seen repo.old) (S.seen store.old) (A.seen artifact.old))
        (environment_by (I.seen inputs.new) (R.seen repo.new) (S.seen store.new) (A.seen artifact.new)) result }
{
    match start(alloc, read_asked_layout(alloc, line.words), inputs) {
        Ok(Started::Asked(layout, gathered)) => {
            let now = layout.moment(line.clock);
            match asked(alloc, gathered, now, repo, store, artifact) {
                Ok(noted) => Ok(questions_text(noted)),
                Err(e) => Err(e),
            }
        }
        Ok(Started::Stopped(said)) => Ok(said),
        Err(e) => Err(e),
    }
}

/// Notes what a verification over these words, inputs and objects of the outside asks where the signatures of the
/// file `refused` aren't good and all others are, and writes it as a provider file: each question once, in the
/// order in which they were asked. Nothing is judged: the status is never Refused, and Accepted says that the questions
/// were written, and that they suffice: the chain of documents that the run came to is trusted by them alone, and the bundle
/// that it accepted is accepted by them alone. Status 4 where a write failed, 5 where memory was wanting, or a provider file
/// has no room for a question that is needed; then nothing was written.
pub fn run_questions<I: Inputs, R: Repository, S: MetadataStore, A: ArtifactSource, K: Sink>(
    alloc: Global,
    line: &CommandLine<'_>,
    inputs: &mut I,
    repo: &mut R,
    store: &mut ReadingStore<S>,
    artifact: &mut A,
    out: &mut K,
) -> Status
    ensures runs { RunsTo (command_of line.now)
        (environment_by (I.seen inputs.old) (R.seen repo.old) (⟦<ReadingStore<S> as MetadataStore>⟧.seen store.old) (A.seen artifact.old))
        (environment_by (I.seen inputs.new) (R.seen repo.new) (⟦<ReadingStore<S> as MetadataStore>⟧.seen store.new) (A.seen artifact.new))
        (K.seen out.old) (K.seen out.new) result }
    ensures rows { result ≡ Accepted → WritesRows (command_of line.now)
        (environment_by (I.seen inputs.old) (R.seen repo.old) (⟦<ReadingStore<S> as MetadataStore>⟧.seen store.old) (A.seen artifact.old))
        (environment_by (I.seen inputs.new) (R.seen repo.new) (⟦<ReadingStore<S> as MetadataStore>⟧.seen store.new) (A.seen artifact.new))
        (K.seen out.old) (K.seen out.new) }
{
    let said = decide(alloc, line, inputs, repo, store, artifact);
    finish(&said, out)
}
