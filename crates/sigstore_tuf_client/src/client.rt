// The calls of the client as lists of steps: over an owned set of documents, and a lent repository and store.
ghost use Rattle.std.specs.Prelude.{◌≡◌, ◌<◌, ◌^◌, IfSome};
ghost use Rattle.foundation.specs.Watched.{Watched};
ghost use Rattle.sigstore_keys.specs.Crypto.{crypto_with};
ghost use Rattle.sigstore_tuf_runs.specs.State.{state_of, session_by};
ghost use Rattle.sigstore_tuf_outside.specs.Repository.{Folders};
ghost use Rattle.sigstore_tuf_runs.specs.Run.{next_root, roots_left, WalksRoots, RecallsRoots, SavesRoot, Attaches, Refetches, moment_of, Reseeds, Does, RunsSteps};

use crate::adopt::{adopt, save_in_force, seed};
use sigstore_keys::{CryptoProvider, Providers};
use sigstore_tuf_outside::{MetadataStore, Repository};
use sigstore_tuf_parts::{Error, TransportFault};
use sigstore_tuf_rules::{
    InForce, Kind, bytes_in, check_root_serves, check_snapshot_serves, check_timestamp_serves,
    is_current,
};
use sigstore_tuf_runs::{Session, Step};
use sigstore_types_parts::Armor;
use std::alloc::Global;

// ---- next roots

// The number of the next root, unless the root in force has the greatest.
fn next_number(documents: &InForce) -> Option<u64>
    ensures next { result ≡ next_root documents.now }
    ensures within { IfSome result (λ number. number < 2 ^ 64) }
{
    let version = documents.root.signed().version;
    if version == u64::MAX {
        None
    } else {
        Some(version + 1)
    }
}

// Adopts next roots of the store, until one isn't there or is refused.
fn recall_roots<C: CryptoProvider, M: Armor, S: MetadataStore>(
    alloc: Global,
    providers: &Providers<'_, C, M>,
    documents: &mut InForce,
    store: &mut S,
) -> Result<(), Error>
    ensures { (repo : Watched Folders) → RecallsRoots (crypto_with C.CryptoProvider M.Armor providers.now) (roots_left documents.old)
        (state_of documents.old repo (S.seen store.old)) (state_of documents.new repo (S.seen store.new)) result }
{
    while let Some(number) = next_number(documents) {
        match seed(alloc, providers, documents, store, Kind::Root(number), None) {
            Ok(true) => {}
            Ok(false) => return Ok(()),
            Err(e) => return Err(e),
        }
    }
    Ok(())
}

// Adopts next roots of the repository, until one isn't there.
fn walk_roots<C: CryptoProvider, M: Armor, R: Repository, S: MetadataStore>(
    alloc: Global,
    session: &Session<'_, C, M>,
    documents: &mut InForce,
    repo: &mut R,
    store: &mut S,
) -> Result<(), Error>
    ensures { WalksRoots (session_by C.CryptoProvider M.Armor session.now) session.now.config.now.max_root_rotations (state_of documents.old (R.seen repo.old) (S.seen store.old))
        (state_of documents.new (R.seen repo.new) (S.seen store.new)) result }
{
    for _ in 0..session.config.max_root_rotations {
        let Some(number) = next_number(documents) else {
            return Ok(());
        };
        match adopt(alloc, session, documents, repo, store, Kind::Root(number)) {
            Ok(true) => {}
            Ok(false) => return Ok(()),
            Err(e) => return Err(e),
        }
    }
    match next_number(documents) {
        Some(_) => Err(Error::Transport(TransportFault::Rotations {
            max: session.config.max_root_rotations,
        })),
        None => Ok(()),
    }
}

// Writes the root in force.
fn write_root<S: MetadataStore>(
    alloc: Global,
    documents: &InForce,
    store: &mut S,
) -> Result<(), Error>
    ensures { (repo : Watched Folders) → SavesRoot (state_of documents.now repo (S.seen store.old))
        (state_of documents.now repo (S.seen store.new)) result }
{
    save_in_force(
        alloc,
        store,
        documents,
        Kind::Root(documents.root.signed().version),
    )
}

/// Adopts next roots of a store that is handed in, and writes the root then in force.
pub fn attach<C: CryptoProvider, M: Armor, S: MetadataStore>(
    alloc: Global,
    providers: &Providers<'_, C, M>,
    documents: &mut InForce,
    store: &mut S,
) -> Result<(), Error>
    ensures { (repo : Watched Folders) → Attaches (crypto_with C.CryptoProvider M.Armor providers.now)
        (state_of documents.old repo (S.seen store.old)) (state_of documents.new repo (S.seen store.new)) result }
{
    match recall_roots(alloc, providers, documents, store) {
        Ok(()) => write_root(alloc, documents, store),
        Err(e) => Err(e),
    }
}

// ---- one document

// Fetches a document and adopts it, unless the one in force serves.
fn refetch<C: CryptoProvider, M: Armor, R: Repository, S: MetadataStore>(
    alloc: Global,
    session: &Session<'_, C, M>,
    documents: &mut InForce,
    repo: &mut R,
    store: &mut S,
    kind: Kind,
) -> Result<(), Error>
    ensures { Refetches (session_by C.CryptoProvider M.Armor session.now) kind (state_of documents.old (R.seen repo.old) (S.seen store.old))
        (state_of documents.new (R.seen repo.new) (S.seen store.new)) result }
{
    if is_current(documents, kind, session.moment) {
        return Ok(());
    }
    match adopt(alloc, session, documents, repo, store, kind) {
        Ok(_) => Ok(()),
        Err(e) => Err(e),
    }
}

// The moment at which a document of the store is judged.
fn moment(kind: Kind, now: jiff::Timestamp) -> Option<jiff::Timestamp>
    ensures { result ≡ moment_of kind now }
{
    match kind {
        Kind::Targets => Some(now),
        _ => None,
    }
}

// Puts a document of the store in force, unless one is there.
fn reseed<C: CryptoProvider, M: Armor, S: MetadataStore>(
    alloc: Global,
    session: &Session<'_, C, M>,
    documents: &mut InForce,
    store: &mut S,
    kind: Kind,
) -> Result<(), Error>
    ensures { (repo : Watched Folders) → Reseeds (session_by C.CryptoProvider M.Armor session.now) kind (state_of documents.old repo (S.seen store.old))
        (state_of documents.new repo (S.seen store.new)) result }
{
    if bytes_in(documents, kind).is_some() {
        return Ok(());
    }
    let now = moment(kind, session.moment);
    match seed(alloc, &session.providers, documents, store, kind, now) {
        Ok(_) => Ok(()),
        Err(e) => Err(e),
    }
}

// ---- the steps

fn run_step<C: CryptoProvider, M: Armor, R: Repository, S: MetadataStore>(
    alloc: Global,
    session: &Session<'_, C, M>,
    documents: &mut InForce,
    repo: &mut R,
    store: &mut S,
    step: Step,
) -> Result<(), Error>
    ensures { Does (session_by C.CryptoProvider M.Armor session.now) step (state_of documents.old (R.seen repo.old) (S.seen store.old))
        (state_of documents.new (R.seen repo.new) (S.seen store.new)) result }
{
    match step {
        Step::WalkRoots => walk_roots(alloc, session, documents, repo, store),
        Step::CheckRoot => check_root_serves(alloc, documents, session.moment),
        Step::Seed(kind) => reseed(alloc, session, documents, store, kind),
        Step::Fetch(kind) => refetch(alloc, session, documents, repo, store, kind),
        Step::CheckTimestamp => check_timestamp_serves(alloc, documents, session.moment),
        Step::CheckSnapshot => check_snapshot_serves(alloc, documents, session.moment),
    }
}

/// Runs steps, until one refuses.
pub fn run_steps<C: CryptoProvider, M: Armor, R: Repository, S: MetadataStore>(
    alloc: Global,
    session: &Session<'_, C, M>,
    documents: &mut InForce,
    repo: &mut R,
    store: &mut S,
    steps: &[Step],
) -> Result<(), Error>
    ensures { RunsSteps (session_by C.CryptoProvider M.Armor session.now) steps.now (state_of documents.old (R.seen repo.old) (S.seen store.old))
        (state_of documents.new (R.seen repo.new) (S.seen store.new)) result }
{
    for step in steps {
        match run_step(alloc, session, documents, repo, store, *step) {
            Ok(()) => {}
            Err(e) => return Err(e),
        }
    }
    Ok(())
}
