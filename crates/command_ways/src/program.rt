// A run of `verify` in any way.
ghost use Rattle.std.specs.Prelude.{◌≡◌};
ghost use Rattle.command_files.specs.Starting.{command_of};
ghost use Rattle.command_ways.specs.Judging.{outside_by};
ghost use Rattle.command_ways.specs.Run.{JudgesWay, environment_by, Says, Means};
ghost use Rattle.command_ways.specs.Complete.{Completes};

use crate::judging::verify_way;
use crate::layout::{Way, WayLayout, way_layout};
use crate::report::{Telling, answered};
use command_files::{Answer, CommandLine, Gathered, Inputs, Sink, Started, Status, finish, start};
use command_verify::VerifyRequest;
use foundation::NoMemory;
use jiff::Timestamp;
use sigstore_keys::{ArtifactSource, Providers};
use sigstore_tuf::{MetadataStore, Repository};
use std::alloc::Global;

// The verification, and what is said of it.
fn judge<R: Repository, S: MetadataStore, B: ArtifactSource, A: ArtifactSource>(
    alloc: Global,
    way: Way,
    gathered: Gathered,
    now: Timestamp,
    repo: &mut R,
    store: &mut S,
    archive: &mut B,
    artifact: &mut A,
) -> Result<Answer, NoMemory>
    ensures { JudgesWay way gathered now
        (outside_by (R.seen repo.old) (S.seen store.old) (B.seen archive.old) (A.seen artifact.old))
        (outside_by (R.seen repo.new) (S.seen store.new) (B.seen archive.new) (A.seen artifact.new)) result }
{
    let telling = Telling {
        several: gathered.rules.len() > 1,
        told: way.told.is_some(),
    };
    let request = VerifyRequest {
        rules: gathered.rules.as_slice(),
        root: gathered.root.as_bytes(),
        bundle: gathered.bundle.as_bytes(),
        moment: now,
    };
    let providers = Providers {
        provider: &gathered.tables.provider,
        armor: &gathered.tables.armor,
    };
    let came = verify_way(
        alloc, &request, providers, way, repo, store, archive, artifact,
    );
    let said = answered(alloc, telling, &came);
    drop(came);
    drop(gathered);
    said
}

// The words and the inputs, then the verification.
fn decide<I: Inputs, R: Repository, S: MetadataStore, B: ArtifactSource, A: ArtifactSource>(
    alloc: Global,
    line: &CommandLine<'_>,
    inputs: &mut I,
    repo: &mut R,
    store: &mut S,
    archive: &mut B,
    artifact: &mut A,
) -> Result<Answer, NoMemory>
    ensures { Says (command_of line.now)
        (environment_by (I.seen inputs.old) (R.seen repo.old) (S.seen store.old) (B.seen archive.old) (A.seen artifact.old))
        (environment_by (I.seen inputs.new) (R.seen repo.new) (S.seen store.new) (B.seen archive.new) (A.seen artifact.new)) result }
{
    match start(alloc, way_layout(alloc, line.words), inputs) {
        Ok(Started::Asked(layout, gathered)) => {
            let WayLayout { way, places, .. } = layout;
            let now = places.moment(line.clock);
            judge(alloc, way, gathered, now, repo, store, archive, artifact)
        }
        Ok(Started::Stopped(said)) => Ok(said),
        Err(e) => Err(e),
    }
}

/// Runs the command `verify` in any way over its words, its clock and the objects of the outside: reads the words, then the
/// inputs policy, provider, root and bundle; establishes the trusted root by the repository and the store, by the archive, or
/// as the input root, where the caller hands it in; verifies under the policy's rules, over the artifact or its told
/// digests; and writes one text. Status 4 where a write failed, 5 out of memory; then nothing was written.
pub fn run_way<
    I: Inputs,
    R: Repository,
    S: MetadataStore,
    B: ArtifactSource,
    A: ArtifactSource,
    K: Sink,
>(
    alloc: Global,
    line: &CommandLine<'_>,
    inputs: &mut I,
    repo: &mut R,
    store: &mut S,
    archive: &mut B,
    artifact: &mut A,
    out: &mut K,
) -> Status
    ensures means { Means (command_of line.now)
        (environment_by (I.seen inputs.old) (R.seen repo.old) (S.seen store.old) (B.seen archive.old) (A.seen artifact.old))
        (environment_by (I.seen inputs.new) (R.seen repo.new) (S.seen store.new) (B.seen archive.new) (A.seen artifact.new))
        (K.seen out.old) (K.seen out.new) result }
    ensures complete { Completes (command_of line.now)
        (environment_by (I.seen inputs.old) (R.seen repo.old) (S.seen store.old) (B.seen archive.old) (A.seen artifact.old))
        (environment_by (I.seen inputs.new) (R.seen repo.new) (S.seen store.new) (B.seen archive.new) (A.seen artifact.new))
        (K.seen out.old) (K.seen out.new) result }
{
    let said = decide(alloc, line, inputs, repo, store, archive, artifact);
    finish(&said, out)
}
