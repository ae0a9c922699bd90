// The search for a target, its file, and the chain of documents by which it is trusted.
ghost use Rattle.std.specs.Prelude.{◌≡◌, ◌≢◌, Some, Ok, Err, IfOk, IfErr, OnOk, map, option_copied};
ghost use Rattle.sigstore_tuf_outside.specs.Repository.{target_files};
ghost use Rattle.sigstore_tuf_rules.specs.Names.{kept_target};
ghost use Rattle.sigstore_tuf_runs.specs.Adopt.{FetchesNamed, LoadsNamed, Saves};
ghost use Rattle.sigstore_tuf_runs.specs.State.{state_of, session_by};
ghost use Rattle.sigstore_tuf_runs.specs.Target.{within_of, fetch_name_of, file_of, Recalls, TakesFile, Downloads, Obtains};
ghost use Rattle.sigstore_tuf_runs.specs.Search.{listed_by, entry_after, GivesInfo};
ghost use Rattle.sigstore_tuf_runs.specs.Chain.{role_doc_in, chain_in, chain_of, found_of, GivesChain, GetsTarget};

use crate::adopt::{load_named, save, transport};
use crate::search::find_visits;
use foundation::{Duplicate, NoMemory, Sequence};
use sigstore_keys::CryptoProvider;
use sigstore_tuf_outside::{MetadataStore, Repository};
use sigstore_tuf_parts::{
    Error, Mismatch, Snapshot, TargetFile, Timestamp, TransportFault, check_integrity,
};
use sigstore_tuf_rules::{
    Held, InForce, RoleDoc, TrustChain, UpdaterConfig, Visit, is_consistent, kept_target,
    target_name,
};
use sigstore_tuf_runs::Session;
use sigstore_types_parts::{Armor, Bytes, Text};
use std::alloc::Global;

/// A target whose file is wanted: its path, what is listed of it, the limits, and whether the root in force has consistent names.
#[derive(Drop)]
pub struct Wanted<'w> {
    pub consistent: bool,
    pub config: &'w UpdaterConfig,
    pub entry: &'w TargetFile,
    pub path: &'w str,
}

// A search that was made: the documents in force, the path that was sought, and the visits.
#[derive(Drop)]
pub(crate) struct Sought<'s> {
    documents: &'s InForce,
    path: &'s str,
    visits: &'s [Visit],
}

// What the document of a role lists under a path.
fn listed<'d>(documents: &'d InForce, path: &str, name: &Text) -> Option<&'d TargetFile>
    ensures { option_copied result ≡ listed_by documents.now path.now name.now }
{
    match documents.targets.get(name.as_str()) {
        Some(held) => held.document.signed().target(path),
        None => None,
    }
}

// The entry that the last visit of a search lists.
fn last_entry<'d>(documents: &'d InForce, path: &str, visits: &[Visit]) -> Option<&'d TargetFile>
    ensures { option_copied result ≡ entry_after documents.now path.now visits.now }
{
    match visits.last() {
        Some(visit) => listed(documents, path, &visit.name),
        None => None,
    }
}

// A copy of the entry that the last visit of a search lists.
fn copied_entry(
    alloc: Global,
    documents: &InForce,
    path: &str,
    visits: &[Visit],
) -> Result<Option<TargetFile>, NoMemory>
    ensures { IfOk result (λ entry. entry ≡ entry_after documents.now path.now visits.now) }
{
    match last_entry(documents, path, visits) {
        Some(entry) => Ok(Some(entry.duplicate(alloc)?)),
        None => Ok(None),
    }
}

/// The entry of a path, found by a search.
pub fn find_info<C: CryptoProvider, M: Armor, R: Repository, S: MetadataStore>(
    alloc: Global,
    session: &Session<'_, C, M>,
    documents: &mut InForce,
    repo: &mut R,
    store: &mut S,
    path: &str,
) -> Result<Option<TargetFile>, Error>
    ensures { GivesInfo (session_by C.CryptoProvider M.Armor session.now) path.now (state_of documents.old (R.seen repo.old) (S.seen store.old))
        (state_of documents.new (R.seen repo.new) (S.seen store.new)) result }
{
    match find_visits(alloc, session, documents, repo, store, path) {
        Ok(visits) => match copied_entry(alloc, documents, path, visits.as_slice()) {
            Ok(entry) => Ok(entry),
            Err(e) => Err(Error::from(e)),
        },
        Err(e) => Err(e),
    }
}

// The entry has to be there.
fn find_entry<'s>(alloc: Global, sought: &Sought<'s>) -> Result<&'s TargetFile, Error>
    ensures ok { IfOk result (λ entry. entry_after sought.now.documents.now sought.now.path.now sought.now.visits.now ≡ Some entry.now) }
    ensures err { IfErr result (λ e. e ≢ Error.NoMemory →
        found_of sought.now.path.now (entry_after sought.now.documents.now sought.now.path.now sought.now.visits.now) ≡ Err e) }
{
    match last_entry(sought.documents, sought.path, sought.visits) {
        Some(entry) => Ok(entry),
        None => Err(Error::TargetNotFound {
            path: Text::new(alloc, sought.path)?,
        }),
    }
}

// The listed length is within the limit (5.7, 'endless data attack': else a listed length of 2^60 lets a repository send bytes without end).
fn check_within(config: &UpdaterConfig, entry: &TargetFile) -> Result<(), Error>
    ensures { result ≡ within_of config.now entry.now }
{
    if config.target_max_length < entry.length {
        return Err(Error::IntegrityMismatch(Mismatch::TooLong));
    }
    Ok(())
}

// The file has the listed length and digests (5.7, 'arbitrary software attack': else a repository or a store gives any file).
fn check_file(entry: &TargetFile, bytes: &Bytes) -> Result<(), Error>
    ensures { result ≡ file_of entry.now bytes.now }
{
    check_integrity(Some(entry.length), Some(&entry.hashes), bytes.as_bytes())
}

// ---- the file

fn load_target<S: MetadataStore>(
    alloc: Global,
    store: &mut S,
    path: &str,
) -> Result<Option<Bytes>, Error>
    ensures { LoadsNamed (kept_target path.now) (S.seen store.old) (S.seen store.new) result }
{
    match kept_target(alloc, path) {
        Ok(name) => load_named(alloc, store, name.as_str()),
        Err(e) => Err(Error::from(e)),
    }
}

/// The store's file of an entry, where it is the entry's.
pub fn recall_target<S: MetadataStore>(
    alloc: Global,
    store: &mut S,
    entry: &TargetFile,
    path: &str,
) -> Result<Option<Bytes>, Error>
    ensures { Recalls entry.now path.now (S.seen store.old) (S.seen store.new) result }
{
    match load_target(alloc, store, path) {
        Ok(Some(bytes)) => match check_file(entry, &bytes) {
            Ok(()) => Ok(Some(bytes)),
            Err(_) => Ok(None),
        },
        Ok(None) => Ok(None),
        Err(e) => Err(e),
    }
}

fn fetch_file<R: Repository>(
    alloc: Global,
    repo: &mut R,
    path: &str,
    max: u64,
) -> Result<Option<Bytes>, Error>
    ensures { FetchesNamed target_files path.now max (R.seen repo.old) (R.seen repo.new) result }
{
    match repo.fetch_target(alloc, path, max) {
        Ok(file) => Ok(file),
        Err(fault) => Err(transport(fault, max)),
    }
}

fn save_target<S: MetadataStore>(
    alloc: Global,
    store: &mut S,
    path: &str,
    bytes: &Bytes,
) -> Result<(), Error>
    ensures { Saves bytes.now (kept_target path.now) (S.seen store.old) (S.seen store.new) result }
{
    match kept_target(alloc, path) {
        Ok(name) => save(alloc, store, name.as_str(), bytes.as_bytes()),
        Err(e) => Err(Error::from(e)),
    }
}

// A fetched file is held against its entry, and written.
fn take_file<S: MetadataStore>(
    alloc: Global,
    store: &mut S,
    entry: &TargetFile,
    path: &str,
    bytes: Bytes,
) -> Result<Bytes, Error>
    ensures { TakesFile entry.now path.now bytes (S.seen store.old) (S.seen store.new) result }
{
    match check_file(entry, &bytes) {
        Ok(()) => match save_target(alloc, store, path, &bytes) {
            Ok(()) => Ok(bytes),
            Err(e) => Err(e),
        },
        Err(e) => Err(e),
    }
}

// The name by which the file of an entry is fetched.
#[tactic(auto, unfolding(sigstore_tuf_runs::specs::Target::fetch_name_of))]
fn fetch_name(alloc: Global, wanted: &Wanted<'_>) -> Result<Text, Error>
    ensures ok { IfOk result (λ name.
        fetch_name_of wanted.now.consistent wanted.now.config.now wanted.now.entry.now wanted.now.path.now ≡ Ok name) }
    ensures err { IfErr result (λ e. e ≢ Error.NoMemory →
        fetch_name_of wanted.now.consistent wanted.now.config.now wanted.now.entry.now wanted.now.path.now ≡ Err e) }
{
    check_within(wanted.config, wanted.entry)?;
    match target_name(alloc, wanted.consistent, wanted.entry, wanted.path)? {
        Some(name) => Ok(name),
        None => Err(Error::IntegrityMismatch(Mismatch::NoDigest)),
    }
}

/// The repository's file of an entry.
pub fn download<R: Repository, S: MetadataStore>(
    alloc: Global,
    wanted: &Wanted<'_>,
    repo: &mut R,
    store: &mut S,
) -> Result<Bytes, Error>
    ensures { Downloads wanted.now.consistent wanted.now.config.now wanted.now.entry.now wanted.now.path.now
        (R.seen repo.old) (R.seen repo.new) (S.seen store.old) (S.seen store.new) result }
{
    match fetch_name(alloc, wanted) {
        Ok(name) => match fetch_file(alloc, repo, name.as_str(), wanted.entry.length) {
            Ok(Some(bytes)) => take_file(alloc, store, wanted.entry, wanted.path, bytes),
            Ok(None) => Err(Error::Transport(TransportFault::Absent)),
            Err(e) => Err(e),
        },
        Err(e) => Err(e),
    }
}

// The file of an entry, from the store or else from the repository.
fn obtain<R: Repository, S: MetadataStore>(
    alloc: Global,
    wanted: &Wanted<'_>,
    repo: &mut R,
    store: &mut S,
) -> Result<Bytes, Error>
    ensures { Obtains wanted.now.consistent wanted.now.config.now wanted.now.entry.now wanted.now.path.now
        (R.seen repo.old) (R.seen repo.new) (S.seen store.old) (S.seen store.new) result }
{
    match recall_target(alloc, store, wanted.entry, wanted.path) {
        Ok(Some(bytes)) => Ok(bytes),
        Ok(None) => download(alloc, wanted, repo, store),
        Err(e) => Err(e),
    }
}

// ---- the chain

// A visit, with the bytes of the document that it read.
fn role_doc(alloc: Global, documents: &InForce, visit: &Visit) -> Result<RoleDoc, NoMemory>
    ensures { IfOk result (λ doc. doc ≡ role_doc_in documents.now visit.now) }
{
    let bytes = match documents.targets.get(visit.name.as_str()) {
        Some(held) => Some(held.bytes.duplicate(alloc)?),
        None => None,
    };
    Ok(RoleDoc {
        name: visit.name.duplicate(alloc)?,
        delegator: visit.delegator.duplicate(alloc)?,
        bytes,
    })
}

// The visits of a search, each with its document.
fn role_docs(
    alloc: Global,
    documents: &InForce,
    visits: &[Visit],
) -> Result<Sequence<RoleDoc>, NoMemory>
    ensures { IfOk result (λ docs. docs ≡ map (role_doc_in documents.now) visits.now) }
{
    let mut docs = Sequence::new(alloc);
    for visit in visits {
        docs.push(role_doc(alloc, documents, visit)?)?;
    }
    Ok(docs)
}

fn assembled(
    alloc: Global,
    sought: &Sought<'_>,
    timestamp: &Held<Timestamp>,
    snapshot: &Held<Snapshot>,
    entry: &TargetFile,
    file: Bytes,
) -> Result<TrustChain, NoMemory>
    ensures { IfOk result (λ chain.
        chain_in sought.now.documents.now (Some timestamp.now) (Some snapshot.now) sought.now.visits.now entry.now file ≡ Ok chain) }
{
    Ok(TrustChain {
        roots: sought.documents.roots.duplicate(alloc)?,
        timestamp: timestamp.bytes.duplicate(alloc)?,
        snapshot: snapshot.bytes.duplicate(alloc)?,
        roles: role_docs(alloc, sought.documents, sought.visits)?,
        target: entry.duplicate(alloc)?,
        file,
    })
}

// The documents in force, with the visits of a search, an entry and its file.
fn chain(
    alloc: Global,
    sought: &Sought<'_>,
    entry: &TargetFile,
    file: Bytes,
) -> Result<TrustChain, Error>
    ensures ok { IfOk result (λ chain. chain_of sought.now.documents.now sought.now.visits.now entry.now file ≡ Ok chain) }
    ensures err { IfErr result (λ e. e ≢ Error.NoMemory →
        chain_of sought.now.documents.now sought.now.visits.now entry.now file ≡ Err e) }
{
    match (&sought.documents.timestamp, &sought.documents.snapshot) {
        (Some(timestamp), Some(snapshot)) => {
            match assembled(alloc, sought, timestamp, snapshot, entry, file) {
                Ok(chain) => Ok(chain),
                Err(e) => Err(Error::from(e)),
            }
        }
        _ => Err(Error::NotRefreshed),
    }
}

// The file of the entry that the last visit of a search lists, and the chain of the documents by which it is trusted.
fn chain_after<R: Repository, S: MetadataStore>(
    alloc: Global,
    sought: &Sought<'_>,
    config: &UpdaterConfig,
    repo: &mut R,
    store: &mut S,
) -> Result<TrustChain, Error>
    ensures { GivesChain config.now sought.now.path.now sought.now.visits.now
        (state_of sought.now.documents.now (R.seen repo.old) (S.seen store.old))
        (state_of sought.now.documents.now (R.seen repo.new) (S.seen store.new)) result }
{
    match find_entry(alloc, sought) {
        Ok(entry) => {
            let wanted = Wanted {
                consistent: is_consistent(sought.documents),
                config,
                entry,
                path: sought.path,
            };
            match obtain(alloc, &wanted, repo, store) {
                Ok(file) => match chain(alloc, sought, entry, file) {
                    Ok(chain) => Ok(chain),
                    Err(e) => Err(e),
                },
                Err(e) => Err(e),
            }
        }
        Err(e) => Err(e),
    }
}

/// A search for a target and its file.
pub fn find_chain<C: CryptoProvider, M: Armor, R: Repository, S: MetadataStore>(
    alloc: Global,
    session: &Session<'_, C, M>,
    documents: &mut InForce,
    repo: &mut R,
    store: &mut S,
    path: &str,
) -> Result<TrustChain, Error>
    ensures { GetsTarget (session_by C.CryptoProvider M.Armor session.now) path.now (state_of documents.old (R.seen repo.old) (S.seen store.old))
        (state_of documents.new (R.seen repo.new) (S.seen store.new)) result }
{
    match find_visits(alloc, session, documents, repo, store, path) {
        Ok(visits) => {
            let sought = Sought {
                documents: &*documents,
                path,
                visits: visits.as_slice(),
            };
            chain_after(alloc, &sought, session.config, repo, store)
        }
        Err(e) => Err(e),
    }
}
