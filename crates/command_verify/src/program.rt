// A run of the program.
ghost use Rattle.std.specs.Prelude.{IfOk};
ghost use Rattle.command_files.specs.Starting.{command_of};
ghost use Rattle.sigstore_verify.specs.Inputs.{outside_by};
ghost use Rattle.command_verify.specs.Complete.{Completes};
ghost use Rattle.command_verify.specs.Run.{environment_by, Reports, Answers, Judges, Says, RunsTo, Means};

use crate::refusals::{refused, refused_tuf};
use crate::report::report_by_rule;
use crate::request::{VerifyRequest, verify_request};
use command_files::{
    Answer, CommandLine, Gathered, Inputs, Sink, Started, Status, finish, read_layout, start,
};
use foundation::NoMemory;
use jiff::Timestamp;
use sigstore_keys::{ArtifactSource, Providers};
use sigstore_tuf::{MetadataStore, Repository};
use sigstore_types_parts::Text;
use sigstore_verify::{RuleAcceptance, RulesFault};
use std::alloc::Global;

// The report of an acceptance, or the refusal of a document of its chain that isn't read.
fn reported(alloc: Global, several: bool, accepted: &RuleAcceptance) -> Result<Answer, NoMemory>
    ensures { IfOk result (λ said. Reports several accepted.now said) }
{
    match report_by_rule(alloc, several, accepted) {
        Ok(text) => Ok(Answer {
            status: Status::Accepted,
            text: Text::from_string(text),
        }),
        Err(sigstore_tuf_parts::Error::NoMemory) => Err(NoMemory),
        Err(e) => {
            let said = refused_tuf(alloc, &e);
            drop(e);
            said
        }
    }
}

/// What is said of an acceptance or a refusal, under several rules or one.
pub fn answered(
    alloc: Global,
    several: bool,
    judged: &Result<RuleAcceptance, RulesFault>,
) -> Result<Answer, NoMemory>
    ensures { IfOk result (λ said. Answers several judged.now said) }
{
    match judged {
        Ok(accepted) => reported(alloc, several, accepted),
        Err(fault) => refused(alloc, fault),
    }
}

// The verification from the root, and what is said of it.
fn judge<R: Repository, S: MetadataStore, A: ArtifactSource>(
    alloc: Global,
    gathered: Gathered,
    now: Timestamp,
    repo: &mut R,
    store: &mut S,
    artifact: &mut A,
) -> Result<Answer, NoMemory>
    ensures { Judges gathered now
        (outside_by (R.seen repo.old) (S.seen store.old) (A.seen artifact.old))
        (outside_by (R.seen repo.new) (S.seen store.new) (A.seen artifact.new)) result }
{
    let request = VerifyRequest {
        rules: gathered.rules.as_slice(),
        root: gathered.root.as_bytes(),
        bundle: gathered.bundle.as_bytes(),
        moment: now,
    };
    let providers = Providers {
        provider: &gathered.tables.provider,
        armor: &gathered.tables.armor,
    };
    let judged = verify_request(alloc, &request, providers, repo, store, artifact);
    let said = answered(alloc, gathered.rules.len() > 1, &judged);
    drop(judged);
    said
}

// The words and the inputs, then the verification.
fn decide<I: Inputs, R: Repository, S: MetadataStore, A: ArtifactSource>(
    alloc: Global,
    line: &CommandLine<'_>,
    inputs: &mut I,
    repo: &mut R,
    store: &mut S,
    artifact: &mut A,
) -> Result<Answer, NoMemory>
    ensures { Says (command_of line.now)
        (environment_by (I.seen inputs.old) (R.seen repo.old) (S.seen store.old) (A.seen artifact.old))
        (environment_by (I.seen inputs.new) (R.seen repo.new) (S.seen store.new) (A.seen artifact.new)) result }
{
    match start(alloc, read_layout(alloc, line.words), inputs) {
        Ok(Started::Asked(layout, gathered)) => {
            let now = layout.moment(line.clock);
            judge(alloc, gathered, now, repo, store, artifact)
        }
        Ok(Started::Stopped(said)) => Ok(said),
        Err(e) => Err(e),
    }
}

/// Runs the command `verify` over its words, its clock and the objects of the outside: reads the words, then the inputs
/// policy, provider, root and bundle, verifies from the root under the policy's rules, and writes one text. Status 4 where a write failed, 5 where
/// memory was wanting; then nothing was written.
pub fn run<I: Inputs, R: Repository, S: MetadataStore, A: ArtifactSource, K: Sink>(
    alloc: Global,
    line: &CommandLine<'_>,
    inputs: &mut I,
    repo: &mut R,
    store: &mut S,
    artifact: &mut A,
    out: &mut K,
) -> Status
    ensures means { Means (command_of line.now)
        (environment_by (I.seen inputs.old) (R.seen repo.old) (S.seen store.old) (A.seen artifact.old))
        (environment_by (I.seen inputs.new) (R.seen repo.new) (S.seen store.new) (A.seen artifact.new))
        (K.seen out.old) (K.seen out.new) result }
    ensures runs { RunsTo (command_of line.now)
        (environment_by (I.seen inputs.old) (R.seen repo.old) (S.seen store.old) (A.seen artifact.old))
        (environment_by (I.seen inputs.new) (R.seen repo.new) (S.seen store.new) (A.seen artifact.new))
        (K.seen out.old) (K.seen out.new) result }
    ensures complete { Completes (command_of line.now)
        (environment_by (I.seen inputs.old) (R.seen repo.old) (S.seen store.old) (A.seen artifact.old))
        (environment_by (I.seen inputs.new) (R.seen repo.new) (S.seen store.new) (A.seen artifact.new))
        (K.seen out.old) (K.seen out.new) result }
{
    let said = decide(alloc, line, inputs, repo, store, artifact);
    finish(&said, out)
}
