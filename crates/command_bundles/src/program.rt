// A run of `verify` over a list of bundles.
ghost use Rattle.command_files.specs.Starting.{command_of};
ghost use Rattle.command_outputs.specs.Run.{outside_by, environment_by};
ghost use Rattle.command_bundles.specs.Run.{JudgesBundles, VerifiesAndConcludes, Says};
ghost use Rattle.command_bundles.specs.Promises.{Means, Keeps};
ghost use Rattle.command_bundles.specs.Complete.{Completes};

use crate::concluding::{conclude_came, unlisted};
use crate::judging::{ListRequest, verify_list};
use crate::layout::bundles_layout;
use crate::lines::{ListedBundle, listed_bundles};
use crate::listed::Listed;
use command_download::Shelf;
use command_files::{Answer, CommandLine, Inputs, Sink, Started, Status, finish, start};
use command_outputs::{Outputs, OutputsLayout};
use command_ways::{Telling, Way, WayLayout};
use foundation::NoMemory;
use jiff::Timestamp;
use sigstore_keys::{ArtifactSource, Providers};
use sigstore_tuf::{MetadataStore, Repository};
use std::alloc::Global;

// What is asked for: the way of the verification, what it gives beside its report, the inputs, and the moment.
#[derive(Drop)]
pub(crate) struct Asked {
    way: Way,
    outputs: Outputs,
    listed: Listed,
    now: Timestamp,
}

// The verification of the bundles of the list, and what is said of it.
fn judge_listed<R: Repository, S: MetadataStore, B: ArtifactSource, A: ArtifactSource, F: Shelf>(
    alloc: Global,
    asked: Asked,
    bundles: &[ListedBundle],
    repo: &mut R,
    store: &mut S,
    archive: &mut B,
    artifact: &mut A,
    shelf: &mut F,
) -> Result<Answer, NoMemory>
    ensures { VerifiesAndConcludes asked.way asked.outputs asked.listed asked.now bundles.now
        (outside_by (R.seen repo.old) (S.seen store.old) (B.seen archive.old) (A.seen artifact.old) (F.seen shelf.old))
        (outside_by (R.seen repo.new) (S.seen store.new) (B.seen archive.new) (A.seen artifact.new) (F.seen shelf.new)) result }
{
    let Asked {
        way,
        outputs,
        listed,
        now,
    } = asked;
    let telling = Telling {
        several: listed.governed.rules.len() > 1,
        told: way.told.is_some(),
    };
    let request = ListRequest {
        bundles,
        rules: listed.governed.rules.as_slice(),
        root: listed.governed.anchored.root.as_bytes(),
        moment: now,
    };
    let providers = Providers {
        provider: &listed.governed.anchored.tables.provider,
        armor: &listed.governed.anchored.tables.armor,
    };
    let came = verify_list(
        alloc, &request, providers, way, repo, store, archive, artifact,
    );
    let said = conclude_came(alloc, telling, &outputs, came, shelf);
    drop(outputs);
    drop(listed);
    said
}

// The bundles of the list, and then their verification.
fn judge<R: Repository, S: MetadataStore, B: ArtifactSource, A: ArtifactSource, F: Shelf>(
    alloc: Global,
    asked: Asked,
    repo: &mut R,
    store: &mut S,
    archive: &mut B,
    artifact: &mut A,
    shelf: &mut F,
) -> Result<Answer, NoMemory>
    ensures { JudgesBundles asked.way asked.outputs asked.listed asked.now
        (outside_by (R.seen repo.old) (S.seen store.old) (B.seen archive.old) (A.seen artifact.old) (F.seen shelf.old))
        (outside_by (R.seen repo.new) (S.seen store.new) (B.seen archive.new) (A.seen artifact.new) (F.seen shelf.new)) result }
{
    match listed_bundles(alloc, asked.listed.list.as_bytes()) {
        Ok(bundles) => {
            let said = judge_listed(
                alloc,
                asked,
                bundles.as_slice(),
                repo,
                store,
                archive,
                artifact,
                shelf,
            );
            drop(bundles);
            said
        }
        Err(fault) => {
            drop(asked);
            unlisted(alloc, fault)
        }
    }
}

// The words and the inputs, then the list.
fn decide<
    I: Inputs,
    R: Repository,
    S: MetadataStore,
    B: ArtifactSource,
    A: ArtifactSource,
    F: Shelf,
>(
    alloc: Global,
    line: &CommandLine<'_>,
    inputs: &mut I,
    repo: &mut R,
    store: &mut S,
    archive: &mut B,
    artifact: &mut A,
    shelf: &mut F,
) -> Result<Answer, NoMemory>
    ensures { Says (command_of line.now)
        (environment_by (I.seen inputs.old) (R.seen repo.old) (S.seen store.old) (B.seen archive.old) (A.seen artifact.old) (F.seen shelf.old))
        (environment_by (I.seen inputs.new) (R.seen repo.new) (S.seen store.new) (B.seen archive.new) (A.seen artifact.new) (F.seen shelf.new)) result }
{
    match start(alloc, bundles_layout(alloc, line.words), inputs) {
        Ok(Started::Asked(layout, listed)) => {
            let OutputsLayout {
                verification,
                outputs,
            } = layout;
            let WayLayout { way, places, .. } = verification;
            let asked = Asked {
                way,
                outputs,
                listed,
                now: places.moment(line.clock),
            };
            judge(alloc, asked, repo, store, archive, artifact, shelf)
        }
        Ok(Started::Stopped(said)) => Ok(said),
        Err(e) => Err(e),
    }
}

/// Runs `verify` in any way over a list of bundles. It reads the words, then the inputs policy, provider, root and list, which
/// has at most `MAX_LIST` bytes and 1 to `MAX_BUNDLES` bundles. The trusted root is established once; the artifact is read
/// once, or its digests are told. The bundles are judged in their order. The first that a rule accepts is told as by
/// `run_outputs`, with the number of its line. What else is asked for is of this bundle. Where none is accepted, the line and
/// the refusal of each are told. Nothing is put in the statement's file in another case. Status 4 where the file couldn't be
/// put in its place, or where a write failed. Status 5 out of memory; then nothing was written, and the file is as it was.
pub fn run_bundles<
    I: Inputs,
    R: Repository,
    S: MetadataStore,
    B: ArtifactSource,
    A: ArtifactSource,
    F: Shelf,
    K: Sink,
>(
    alloc: Global,
    line: &CommandLine<'_>,
    inputs: &mut I,
    repo: &mut R,
    store: &mut S,
    archive: &mut B,
    artifact: &mut A,
    shelf: &mut F,
    out: &mut K,
) -> Status
    ensures means { Means (command_of line.now)
        (environment_by (I.seen inputs.old) (R.seen repo.old) (S.seen store.old) (B.seen archive.old) (A.seen artifact.old) (F.seen shelf.old))
        (environment_by (I.seen inputs.new) (R.seen repo.new) (S.seen store.new) (B.seen archive.new) (A.seen artifact.new) (F.seen shelf.new))
        (K.seen out.old) (K.seen out.new) result }
    ensures keeps { Keeps (command_of line.now)
        (environment_by (I.seen inputs.old) (R.seen repo.old) (S.seen store.old) (B.seen archive.old) (A.seen artifact.old) (F.seen shelf.old))
        (environment_by (I.seen inputs.new) (R.seen repo.new) (S.seen store.new) (B.seen archive.new) (A.seen artifact.new) (F.seen shelf.new)) }
    ensures complete { Completes (command_of line.now)
        (environment_by (I.seen inputs.old) (R.seen repo.old) (S.seen store.old) (B.seen archive.old) (A.seen artifact.old) (F.seen shelf.old))
        (environment_by (I.seen inputs.new) (R.seen repo.new) (S.seen store.new) (B.seen archive.new) (A.seen artifact.new) (F.seen shelf.new))
        (K.seen out.old) (K.seen out.new) result }
{
    let said = decide(alloc, line, inputs, repo, store, archive, artifact, shelf);
    finish(&said, out)
}
