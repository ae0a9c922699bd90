// A run of `archive`.
ghost use Rattle.std.specs.Prelude.{◌≡◌, IfOk};
ghost use Rattle.sigstore_verify.specs.Inputs.{anchor_with, places_by};
ghost use Rattle.command_files.specs.Starting.{command_of};
ghost use Rattle.command_archive.specs.Run.{environment_by, spelled, Walks, Says, Means};
ghost use Rattle.command_archive.specs.Complete.{Completes};
ghost use Rattle.trust_archive.specs.Spelling.{spelling_of};

use crate::layout::archive_layout;
use crate::output::Output;
use crate::reading::refused_archive;
use command_files::{Anchored, CommandLine, Inputs, Layout, Sink, Started, Status, finish, start};
use command_verify::refused_tuf;
use foundation::NoMemory;
use sigstore_keys::{CryptoProvider, Providers};
use sigstore_tuf::{MetadataStore, Repository, TrustChain, UpdaterConfig};
use sigstore_types_parts::Armor;
use sigstore_verify::{Anchor, chain_from_root};
use std::alloc::Global;
use trust_archive::{ArchiveError, write_archive};

// The archive of a chain, or the refusal of one that has none.
fn spelled(alloc: Global, chain: &TrustChain) -> Result<Output, NoMemory>
    ensures { IfOk result (λ said. said ≡ spelled (spelling_of chain.now)) }
{
    match write_archive(alloc, chain) {
        Ok(bytes) => Ok(Output::Archive(bytes)),
        Err(ArchiveError::NoMemory) => Err(NoMemory),
        Err(e) => {
            let said = refused_archive(alloc, &e);
            drop(e);
            match said {
                Ok(line) => Ok(Output::Lines(line)),
                Err(e) => Err(e),
            }
        }
    }
}

// The chain is walked to, and written.
fn walked<C: CryptoProvider, M: Armor, R: Repository, S: MetadataStore>(
    alloc: Global,
    anchor: &Anchor<'_, C, M>,
    repo: &mut R,
    store: &mut S,
) -> Result<Output, NoMemory>
    ensures { IfOk result (Walks (anchor_with C.CryptoProvider M.Armor anchor.entry.now) (places_by (R.seen repo.old) (S.seen store.old))
        (places_by (R.seen repo.new) (S.seen store.new))) }
{
    match chain_from_root(alloc, anchor, repo, store) {
        Ok(chain) => {
            let said = spelled(alloc, &chain);
            drop(chain);
            said
        }
        Err(sigstore_tuf_parts::Error::NoMemory) => Err(NoMemory),
        Err(e) => {
            let said = refused_tuf(alloc, &e);
            drop(e);
            match said {
                Ok(line) => Ok(Output::Lines(line)),
                Err(e) => Err(e),
            }
        }
    }
}

// The words and the inputs, then the walk.
fn decide<I: Inputs, R: Repository, S: MetadataStore>(
    alloc: Global,
    line: &CommandLine<'_>,
    inputs: &mut I,
    repo: &mut R,
    store: &mut S,
) -> Result<Output, NoMemory>
    ensures { Says (command_of line.now)
        (environment_by (I.seen inputs.old) (R.seen repo.old) (S.seen store.old))
        (environment_by (I.seen inputs.new) (R.seen repo.new) (S.seen store.new)) result }
{
    match start::<Layout, Anchored, I>(alloc, archive_layout(alloc, line.words), inputs) {
        Ok(Started::Asked(places, anchored)) => {
            let anchor = Anchor {
                providers: Providers {
                    provider: &anchored.tables.provider,
                    armor: &anchored.tables.armor,
                },
                root: anchored.root.as_bytes(),
                config: UpdaterConfig::default(),
                now: places.moment(line.clock),
            };
            let said = walked(alloc, &anchor, repo, store);
            drop(anchored);
            said
        }
        Ok(Started::Stopped(said)) => Ok(Output::Lines(said)),
        Err(e) => Err(e),
    }
}

/// Runs `archive` over its words, its clock and the objects of the outside: reads its words, then the inputs provider and
/// root; walks from the root to the trust file, as a verification does; and writes the chain's archive. A refusal, `usage`
/// or `input` is one line. Status 4 where a write failed, 5 where memory was wanting; then nothing was written.
pub fn run_archive<I: Inputs, R: Repository, S: MetadataStore, K: Sink>(
    alloc: Global,
    line: &CommandLine<'_>,
    inputs: &mut I,
    repo: &mut R,
    store: &mut S,
    out: &mut K,
) -> Status
    ensures means { Means (command_of line.now)
        (environment_by (I.seen inputs.old) (R.seen repo.old) (S.seen store.old))
        (environment_by (I.seen inputs.new) (R.seen repo.new) (S.seen store.new))
        (K.seen out.old) (K.seen out.new) result }
    ensures archives { Completes (command_of line.now)
        (environment_by (I.seen inputs.old) (R.seen repo.old) (S.seen store.old))
        (environment_by (I.seen inputs.new) (R.seen repo.new) (S.seen store.new))
        (K.seen out.old) (K.seen out.new) result }
{
    let said = decide(alloc, line, inputs, repo, store);
    finish(&said, out)
}
