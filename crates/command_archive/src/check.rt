// A run of `check`.
ghost use Rattle.std.specs.Prelude.{◌≡◌, Some, codes, IfOk};
ghost use Rattle.sigstore_verify.specs.Inputs.{anchor_with};
ghost use Rattle.command_files.specs.Starting.{command_of};
ghost use Rattle.command_verify.specs.Report.{chain_text};
ghost use Rattle.command_verify.specs.Run.{said_of};
ghost use Rattle.command_archive.specs.CheckRun.{outside_by, environment_by, SaysDelivered, SaysTrusted, Checks, Says, Means, Shelves};
ghost use Rattle.command_archive.specs.CheckComplete.{Completes};

use crate::check_words::{CheckLayout, check_layout};
use crate::finding::{declined, found};
use command_download::{Shelf, ShelfFault};
use command_files::{
    Anchored, Answer, CommandLine, Inputs, Sink, Started, Status, finish, pair, start,
};
use command_verify::{refused_tuf, report_chain};
use foundation::NoMemory;
use sigstore_keys::{ArtifactSource, CryptoProvider, Providers};
use sigstore_tuf::{TrustChain, UpdaterConfig};
use sigstore_types_parts::{Armor, Text};
use sigstore_verify::Anchor;
use std::alloc::Global;

// What is said of a trusted chain: that it is one, and the lines on it.
fn trusted(alloc: Global, chain: &TrustChain) -> Result<Answer, NoMemory>
    ensures { IfOk result (λ said. said_of (chain_text (codes "trusted") chain.now) ≡ Some said) }
{
    match report_chain(alloc, "trusted", chain) {
        Ok(text) => Ok(Answer {
            status: Status::Accepted,
            text: Text::from_string(text),
        }),
        Err(sigstore_tuf_parts::Error::NoMemory) => Err(NoMemory),
        Err(e) => {
            let said = refused_tuf(alloc, &e);
            drop(e);
            said
        }
    }
}

// A file is put in its place, where one is told, and this is said.
fn delivered<F: Shelf>(
    alloc: Global,
    line: Answer,
    trusted_root: &Option<Text>,
    file: &[u8],
    shelf: &mut F,
) -> Result<Answer, NoMemory>
    ensures { SaysDelivered line trusted_root.now file.now (F.seen shelf.old) (F.seen shelf.new) result }
{
    match trusted_root {
        None => Ok(line),
        Some(path) => match shelf.place(alloc, path.as_str(), file) {
            Ok(()) => Ok(line),
            Err(ShelfFault::Failed) => {
                drop(line);
                pair(alloc, Status::Output, "output", "file")
            }
            Err(ShelfFault::NoMemory) => {
                drop(line);
                Err(NoMemory)
            }
        },
    }
}

// The lines on a chain are made, and then its file is put in its place.
fn accepted<F: Shelf>(
    alloc: Global,
    chain: &TrustChain,
    trusted_root: &Option<Text>,
    shelf: &mut F,
) -> Result<Answer, NoMemory>
    ensures { SaysTrusted chain.now trusted_root.now (F.seen shelf.old) (F.seen shelf.new) result }
{
    match trusted(alloc, chain) {
        Ok(line) => delivered(alloc, line, trusted_root, chain.file.as_bytes(), shelf),
        Err(e) => Err(e),
    }
}

// The archive is judged, and then something is said and put in its place.
fn checked<C: CryptoProvider, M: Armor, A: ArtifactSource, F: Shelf>(
    alloc: Global,
    anchor: &Anchor<'_, C, M>,
    least: Option<u64>,
    trusted_root: &Option<Text>,
    archive: &mut A,
    shelf: &mut F,
) -> Result<Answer, NoMemory>
    ensures { Checks (anchor_with C.CryptoProvider M.Armor anchor.entry.now) least trusted_root.now
        (outside_by (A.seen archive.old) (F.seen shelf.old)) (outside_by (A.seen archive.new) (F.seen shelf.new)) result }
{
    match found(alloc, anchor, least, archive) {
        Ok(chain) => {
            let said = accepted(alloc, &chain, trusted_root, shelf);
            drop(chain);
            said
        }
        Err(why) => declined(alloc, why),
    }
}

// The words and the inputs, then the archive.
fn decide<I: Inputs, A: ArtifactSource, F: Shelf>(
    alloc: Global,
    line: &CommandLine<'_>,
    inputs: &mut I,
    archive: &mut A,
    shelf: &mut F,
) -> Result<Answer, NoMemory>
    ensures { Says (command_of line.now)
        (environment_by (I.seen inputs.old) (A.seen archive.old) (F.seen shelf.old))
        (environment_by (I.seen inputs.new) (A.seen archive.new) (F.seen shelf.new)) result }
{
    match start::<CheckLayout, Anchored, I>(alloc, check_layout(alloc, line.words), inputs) {
        Ok(Started::Asked(layout, anchored)) => {
            let CheckLayout {
                places,
                least,
                trusted_root,
            } = layout;
            let anchor = Anchor {
                providers: Providers {
                    provider: &anchored.tables.provider,
                    armor: &anchored.tables.armor,
                },
                root: anchored.root.as_bytes(),
                config: UpdaterConfig::default(),
                now: places.moment(line.clock),
            };
            let said = checked(alloc, &anchor, least, &trusted_root, archive, shelf);
            drop(anchored);
            drop(trusted_root);
            said
        }
        Ok(Started::Stopped(said)) => Ok(said),
        Err(e) => Err(e),
    }
}

/// Runs `check` over its words, its clock and the objects of the outside: reads its words, then the inputs provider and
/// root, then an archive of at most 256 MiB to its end; judges it at the moment, and refuses it where its timestamp's
/// version is below the least one; puts its trusted root in the place that is told; and writes `trusted` and the lines on
/// the chain. A refusal, `usage`, `input` or `output` is one line. Status 4 where a write failed or the file couldn't be
/// put in its place, 5 where memory was wanting; then nothing was written.
pub fn run_check<I: Inputs, A: ArtifactSource, F: Shelf, K: Sink>(
    alloc: Global,
    line: &CommandLine<'_>,
    inputs: &mut I,
    archive: &mut A,
    shelf: &mut F,
    out: &mut K,
) -> Status
    ensures means { Means (command_of line.now)
        (environment_by (I.seen inputs.old) (A.seen archive.old) (F.seen shelf.old))
        (environment_by (I.seen inputs.new) (A.seen archive.new) (F.seen shelf.new))
        (K.seen out.old) (K.seen out.new) result }
    ensures shelves { Shelves (command_of line.now)
        (environment_by (I.seen inputs.old) (A.seen archive.old) (F.seen shelf.old))
        (environment_by (I.seen inputs.new) (A.seen archive.new) (F.seen shelf.new)) }
    ensures complete { Completes (command_of line.now)
        (environment_by (I.seen inputs.old) (A.seen archive.old) (F.seen shelf.old))
        (environment_by (I.seen inputs.new) (A.seen archive.new) (F.seen shelf.new))
        (K.seen out.old) (K.seen out.new) result }
{
    let said = decide(alloc, line, inputs, archive, shelf);
    finish(&said, out)
}
