// A run of `verify` that is asked for more than the report.
ghost use Rattle.command_files.specs.Starting.{command_of};
ghost use Rattle.command_outputs.specs.Run.{outside_by, environment_by, JudgesOutputs, Says};
ghost use Rattle.command_outputs.specs.Promises.{Means, Keeps};
ghost use Rattle.command_outputs.specs.Complete.{Completes};

use crate::concluding::{Inquiry, conclude};
use crate::layout::{Outputs, OutputsLayout, outputs_layout};
use command_download::Shelf;
use command_files::{Answer, CommandLine, Gathered, Inputs, Sink, Started, Status, finish, start};
use command_verify::VerifyRequest;
use command_ways::{Telling, Way, WayLayout, verify_way};
use foundation::NoMemory;
use jiff::Timestamp;
use sigstore_keys::{ArtifactSource, Providers};
use sigstore_tuf::{MetadataStore, Repository};
use std::alloc::Global;

// What is asked for: the way of the verification, what it gives beside its report, the inputs, and the moment.
#[derive(Drop)]
pub(crate) struct Asked {
    way: Way,
    outputs: Outputs,
    gathered: Gathered,
    now: Timestamp,
}

// The verification, and what is said of it.
fn judge<R: Repository, S: MetadataStore, B: ArtifactSource, A: ArtifactSource, F: Shelf>(
    alloc: Global,
    asked: Asked,
    repo: &mut R,
    store: &mut S,
    archive: &mut B,
    artifact: &mut A,
    shelf: &mut F,
) -> Result<Answer, NoMemory>
    ensures { JudgesOutputs asked.way asked.outputs asked.gathered asked.now
        (outside_by (R.seen repo.old) (S.seen store.old) (B.seen archive.old) (A.seen artifact.old) (F.seen shelf.old))
        (outside_by (R.seen repo.new) (S.seen store.new) (B.seen archive.new) (A.seen artifact.new) (F.seen shelf.new)) result }
{
    let Asked {
        way,
        outputs,
        gathered,
        now,
    } = asked;
    let telling = Telling {
        several: gathered.rules.len() > 1,
        told: way.told.is_some(),
    };
    let request = VerifyRequest {
        rules: gathered.rules.as_slice(),
        root: gathered.root.as_bytes(),
        bundle: gathered.bundle.as_bytes(),
        moment: now,
    };
    let providers = Providers {
        provider: &gathered.tables.provider,
        armor: &gathered.tables.armor,
    };
    let came = verify_way(
        alloc, &request, providers, way, repo, store, archive, artifact,
    );
    let inquiry = Inquiry {
        telling,
        bundle: gathered.bundle.as_bytes(),
        line: None,
        outputs: &outputs,
    };
    let said = conclude(alloc, &inquiry, &came, shelf);
    drop(came);
    drop(outputs);
    drop(gathered);
    said
}

// The words and the inputs, then the verification.
fn decide<
    I: Inputs,
    R: Repository,
    S: MetadataStore,
    B: ArtifactSource,
    A: ArtifactSource,
    F: Shelf,
>(
    alloc: Global,
    line: &CommandLine<'_>,
    inputs: &mut I,
    repo: &mut R,
    store: &mut S,
    archive: &mut B,
    artifact: &mut A,
    shelf: &mut F,
) -> Result<Answer, NoMemory>
    ensures { Says (command_of line.now)
        (environment_by (I.seen inputs.old) (R.seen repo.old) (S.seen store.old) (B.seen archive.old) (A.seen artifact.old) (F.seen shelf.old))
        (environment_by (I.seen inputs.new) (R.seen repo.new) (S.seen store.new) (B.seen archive.new) (A.seen artifact.new) (F.seen shelf.new)) result }
{
    match start(alloc, outputs_layout(alloc, line.words), inputs) {
        Ok(Started::Asked(layout, gathered)) => {
            let OutputsLayout {
                verification,
                outputs,
            } = layout;
            let WayLayout { way, places, .. } = verification;
            let asked = Asked {
                way,
                outputs,
                gathered,
                now: places.moment(line.clock),
            };
            judge(alloc, asked, repo, store, archive, artifact, shelf)
        }
        Ok(Started::Stopped(said)) => Ok(said),
        Err(e) => Err(e),
    }
}

/// Runs `verify` in any way over its words, its clock and the objects of the outside, as `run_way` does. Where a rule accepts
/// the bundle and details are asked for, lines on the bundle stand behind the report. Where the statement is asked for, the
/// payload that the envelope's signature covers is put in the file that the words name, whole, and then the report is
/// written. A bundle with a message signature has no such payload: an accepted one is refused, in one line. Nothing is put
/// in the file in another case. Status 4 where the file couldn't be put in its place, or where a write failed; 5 out of
/// memory; then nothing was written, and the file is as it was.
pub fn run_outputs<
    I: Inputs,
    R: Repository,
    S: MetadataStore,
    B: ArtifactSource,
    A: ArtifactSource,
    F: Shelf,
    K: Sink,
>(
    alloc: Global,
    line: &CommandLine<'_>,
    inputs: &mut I,
    repo: &mut R,
    store: &mut S,
    archive: &mut B,
    artifact: &mut A,
    shelf: &mut F,
    out: &mut K,
) -> Status
    ensures means { Means (command_of line.now)
        (environment_by (I.seen inputs.old) (R.seen repo.old) (S.seen store.old) (B.seen archive.old) (A.seen artifact.old) (F.seen shelf.old))
        (environment_by (I.seen inputs.new) (R.seen repo.new) (S.seen store.new) (B.seen archive.new) (A.seen artifact.new) (F.seen shelf.new))
        (K.seen out.old) (K.seen out.new) result }
    ensures keeps { Keeps (command_of line.now)
        (environment_by (I.seen inputs.old) (R.seen repo.old) (S.seen store.old) (B.seen archive.old) (A.seen artifact.old) (F.seen shelf.old))
        (environment_by (I.seen inputs.new) (R.seen repo.new) (S.seen store.new) (B.seen archive.new) (A.seen artifact.new) (F.seen shelf.new)) }
    ensures complete { Completes (command_of line.now)
        (environment_by (I.seen inputs.old) (R.seen repo.old) (S.seen store.old) (B.seen archive.old) (A.seen artifact.old) (F.seen shelf.old))
        (environment_by (I.seen inputs.new) (R.seen repo.new) (S.seen store.new) (B.seen archive.new) (A.seen artifact.new) (F.seen shelf.new))
        (K.seen out.old) (K.seen out.new) result }
{
    let said = decide(alloc, line, inputs, repo, store, archive, artifact, shelf);
    finish(&said, out)
}
