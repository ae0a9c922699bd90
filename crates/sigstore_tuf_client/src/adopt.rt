// The adoption of one document, from the repository or from the store.
ghost use Rattle.std.specs.Prelude.{◌≡◌, [], ◌∷◌, option_copied};
ghost use Rattle.foundation.specs.Watched.{Watched};
ghost use Rattle.sigstore_keys.specs.Crypto.{crypto_with};
ghost use Rattle.sigstore_tuf_outside.specs.Repository.{Folders, metadata_files};
ghost use Rattle.sigstore_tuf_runs.specs.State.{state_of, session_by};
ghost use Rattle.sigstore_tuf_rules.specs.Names.{kept_name, history_name, pinned_name, both_names, kept_names};
ghost use Rattle.sigstore_tuf_rules.specs.declared.kind.Kind.TheVariants as kind;
ghost use Rattle.sigstore_tuf_rules.specs.Taking.{bytes_in};
ghost use Rattle.sigstore_tuf_runs.specs.Adopt.{transport_of, FetchesNamed, FetchesDocument, LoadsNamed, Saves, SavesAll, Keeps, KeepsWhere, absence_of, Adopts, passed_over, Seeds};

use sigstore_keys::{CryptoProvider, Providers};
use sigstore_tuf_outside::{FetchFault, MetadataStore, Repository, StoreFault};
use sigstore_tuf_parts::{
    Error, MetaFile, SNAPSHOT_NAME, TARGETS_NAME, TIMESTAMP_NAME, TransportFault, root_name,
    versioned_name,
};
use sigstore_tuf_rules::{
    InForce, Kind, ROOT_FILE, bytes_in, history_name, is_consistent, max_length, pinned_name,
    snapshot_pin_in, take, targets_pin_in,
};
use sigstore_tuf_runs::Session;
use sigstore_types_parts::{Armor, Bytes};
use std::alloc::Global;

// ---- the repository

// A repository's fault as the client's refusal.
pub(crate) fn transport(fault: FetchFault, max: u64) -> Error
    ensures { result ≡ transport_of max fault }
{
    match fault {
        FetchFault::Failed => Error::Transport(TransportFault::Failed),
        FetchFault::TooLong { seen } => Error::Transport(TransportFault::TooLong { max, seen }),
        FetchFault::NoMemory => Error::NoMemory,
    }
}

// A metadata file, where it is there.
pub(crate) fn fetch_named<R: Repository>(
    alloc: Global,
    repo: &mut R,
    name: &str,
    max: u64,
) -> Result<Option<Bytes>, Error>
    ensures { FetchesNamed metadata_files name.now max (R.seen repo.old) (R.seen repo.new) result }
{
    match repo.fetch_metadata(alloc, name, max) {
        Ok(file) => Ok(file),
        Err(fault) => Err(transport(fault, max)),
    }
}

// The file of a document that is pinned so, where it is there.
fn fetch_pinned<R: Repository>(
    alloc: Global,
    repo: &mut R,
    consistent: bool,
    pin: Option<&MetaFile>,
    name: &str,
    max: u64,
) -> Result<Option<Bytes>, Error>
    ensures { FetchesNamed metadata_files (pinned_name consistent (option_copied pin.entry) name.now) max (R.seen repo.old) (R.seen repo.new) result }
{
    match pinned_name(alloc, consistent, pin, name) {
        Ok(name) => fetch_named(alloc, repo, name.as_str(), max),
        Err(e) => Err(Error::from(e)),
    }
}

// A document's file, by the name that the documents in force give it, where it is there.
fn fetch_document<C: CryptoProvider, M: Armor, R: Repository>(
    alloc: Global,
    session: &Session<'_, C, M>,
    documents: &InForce,
    repo: &mut R,
    kind: Kind,
) -> Result<Option<Bytes>, Error>
    ensures { FetchesDocument (session_by C.CryptoProvider M.Armor session.now) documents.now kind (R.seen repo.old) (R.seen repo.new) result }
{
    let max = max_length(session.config, kind);
    let consistent = is_consistent(documents);
    match kind {
        Kind::Root(number) => match root_name(alloc, number) {
            Ok(name) => fetch_named(alloc, repo, name.as_str(), max),
            Err(e) => Err(Error::from(e)),
        },
        Kind::Timestamp => fetch_named(alloc, repo, TIMESTAMP_NAME, max),
        Kind::Snapshot => {
            let pin = snapshot_pin_in(documents);
            fetch_pinned(alloc, repo, consistent, pin, SNAPSHOT_NAME, max)
        }
        Kind::Targets => {
            let pin = targets_pin_in(documents);
            fetch_pinned(alloc, repo, consistent, pin, TARGETS_NAME, max)
        }
    }
}

// ---- the store

// A file of the store, where it is there; a fault is passed over.
pub(crate) fn load_named<S: MetadataStore>(
    alloc: Global,
    store: &mut S,
    name: &str,
) -> Result<Option<Bytes>, Error>
    ensures { LoadsNamed name.now (S.seen store.old) (S.seen store.new) result }
{
    match store.load(alloc, name) {
        Ok(file) => Ok(file),
        Err(StoreFault::Failed) => Ok(None),
        Err(StoreFault::BadName) => Ok(None),
        Err(StoreFault::NoMemory) => Err(Error::NoMemory),
    }
}

// A document's file in the store, where it is there.
fn load_document<S: MetadataStore>(
    alloc: Global,
    store: &mut S,
    kind: Kind,
) -> Result<Option<Bytes>, Error>
    ensures { LoadsNamed (kept_name kind) (S.seen store.old) (S.seen store.new) result }
{
    match kind {
        Kind::Root(number) => match history_name(alloc, number) {
            Ok(name) => load_named(alloc, store, name.as_str()),
            Err(e) => Err(Error::from(e)),
        },
        Kind::Timestamp => load_named(alloc, store, TIMESTAMP_NAME),
        Kind::Snapshot => load_named(alloc, store, SNAPSHOT_NAME),
        Kind::Targets => load_named(alloc, store, TARGETS_NAME),
    }
}

// Writes a file to the store; a fault is passed over.
pub(crate) fn save<S: MetadataStore>(
    alloc: Global,
    store: &mut S,
    name: &str,
    bytes: &[u8],
) -> Result<(), Error>
    ensures { Saves bytes.now name.now (S.seen store.old) (S.seen store.new) result }
{
    match store.store(alloc, name, bytes) {
        Ok(()) => Ok(()),
        Err(StoreFault::Failed) => Ok(()),
        Err(StoreFault::BadName) => Ok(()),
        Err(StoreFault::NoMemory) => Err(Error::NoMemory),
    }
}

fn save_history<S: MetadataStore>(
    alloc: Global,
    store: &mut S,
    number: u64,
    bytes: &[u8],
) -> Result<(), Error>
    ensures { Saves bytes.now (history_name number) (S.seen store.old) (S.seen store.new) result }
{
    match history_name(alloc, number) {
        Ok(name) => save(alloc, store, name.as_str(), bytes),
        Err(e) => Err(Error::from(e)),
    }
}

// Writes a root as one of its number, then as the one in force.
fn save_root<S: MetadataStore>(
    alloc: Global,
    store: &mut S,
    number: u64,
    bytes: &[u8],
) -> Result<(), Error>
    ensures { (set : InForce) → Keeps (kept_names set (kind.Root number)) bytes.now (S.seen store.old) (S.seen store.new) result }
{
    match save_history(alloc, store, number, bytes) {
        Ok(()) => match save(alloc, store, ROOT_FILE, bytes) {
            Ok(()) => Ok(()),
            Err(e) => Err(e),
        },
        Err(e) => Err(e),
    }
}

pub(crate) fn save_alone<S: MetadataStore>(
    alloc: Global,
    store: &mut S,
    name: &str,
    bytes: &[u8],
) -> Result<(), Error>
    ensures { SavesAll bytes.now (name.now ∷ []) (S.seen store.old) (S.seen store.new) result }
{
    match save(alloc, store, name, bytes) {
        Ok(()) => Ok(()),
        Err(e) => Err(e),
    }
}

// Writes a file under one name, then under another.
fn save_twice<S: MetadataStore>(
    alloc: Global,
    store: &mut S,
    first: &str,
    second: &str,
    bytes: &[u8],
) -> Result<(), Error>
    ensures { SavesAll bytes.now (first.now ∷ second.now ∷ []) (S.seen store.old) (S.seen store.new) result }
{
    match save(alloc, store, first, bytes) {
        Ok(()) => match save(alloc, store, second, bytes) {
            Ok(()) => Ok(()),
            Err(e) => Err(e),
        },
        Err(e) => Err(e),
    }
}

// Writes a document that is pinned so: under consistent names by its version too.
fn save_pinned<S: MetadataStore>(
    alloc: Global,
    store: &mut S,
    consistent: bool,
    pin: Option<&MetaFile>,
    name: &str,
    bytes: &[u8],
) -> Result<(), Error>
    ensures { SavesAll bytes.now (both_names consistent (option_copied pin.entry) name.now) (S.seen store.old) (S.seen store.new) result }
{
    match (consistent, pin) {
        (true, Some(pin)) => match versioned_name(alloc, pin.version, name) {
            Ok(versioned) => save_twice(alloc, store, versioned.as_str(), name, bytes),
            Err(e) => Err(Error::from(e)),
        },
        _ => save_alone(alloc, store, name, bytes),
    }
}

// Writes a document under the names that the documents in force give it.
pub(crate) fn save_document<S: MetadataStore>(
    alloc: Global,
    store: &mut S,
    documents: &InForce,
    kind: Kind,
    bytes: &[u8],
) -> Result<(), Error>
    ensures { Keeps (kept_names documents.now kind) bytes.now (S.seen store.old) (S.seen store.new) result }
{
    match kind {
        Kind::Root(number) => save_root(alloc, store, number, bytes),
        Kind::Timestamp => save_alone(alloc, store, TIMESTAMP_NAME, bytes),
        Kind::Snapshot => {
            let consistent = is_consistent(documents);
            let pin = snapshot_pin_in(documents);
            save_pinned(alloc, store, consistent, pin, SNAPSHOT_NAME, bytes)
        }
        Kind::Targets => save_alone(alloc, store, TARGETS_NAME, bytes),
    }
}

// Writes the document in force.
pub(crate) fn save_in_force<S: MetadataStore>(
    alloc: Global,
    store: &mut S,
    documents: &InForce,
    kind: Kind,
) -> Result<(), Error>
    ensures { KeepsWhere (kept_names documents.now kind) (bytes_in kind documents.now) (S.seen store.old) (S.seen store.new) result }
{
    match bytes_in(documents, kind) {
        Some(bytes) => save_document(alloc, store, documents, kind, bytes),
        None => Ok(()),
    }
}

// ---- the adoption

fn absence(kind: Kind) -> Result<bool, Error>
    ensures { result ≡ absence_of kind }
{
    match kind {
        Kind::Root(_) => Ok(false),
        _ => Err(Error::Transport(TransportFault::Absent)),
    }
}

// Fetches a document and adopts it; whether it was there.
pub(crate) fn adopt<C: CryptoProvider, M: Armor, R: Repository, S: MetadataStore>(
    alloc: Global,
    session: &Session<'_, C, M>,
    documents: &mut InForce,
    repo: &mut R,
    store: &mut S,
    kind: Kind,
) -> Result<bool, Error>
    ensures { Adopts (session_by C.CryptoProvider M.Armor session.now) kind (state_of documents.old (R.seen repo.old) (S.seen store.old))
        (state_of documents.new (R.seen repo.new) (S.seen store.new)) result }
{
    match fetch_document(alloc, session, documents, repo, kind) {
        Ok(Some(bytes)) => {
            match take(
                alloc,
                &session.providers,
                documents,
                kind,
                bytes,
                Some(session.moment),
            ) {
                Ok(true) => match save_in_force(alloc, store, documents, kind) {
                    Ok(()) => Ok(true),
                    Err(e) => Err(e),
                },
                Ok(false) => Ok(true),
                Err(e) => Err(e),
            }
        }
        Ok(None) => absence(kind),
        Err(e) => Err(e),
    }
}

// ---- the seed

// A refusal is passed over, unless memory is wanting.
fn pass_over(e: Error) -> Result<bool, Error>
    ensures { result ≡ passed_over e }
{
    match e {
        Error::NoMemory => Err(Error::NoMemory),
        _ => Ok(false),
    }
}

// Puts a document of the store in force, unless it is refused; whether it was put there.
pub(crate) fn seed<C: CryptoProvider, M: Armor, S: MetadataStore>(
    alloc: Global,
    providers: &Providers<'_, C, M>,
    documents: &mut InForce,
    store: &mut S,
    kind: Kind,
    now: Option<jiff::Timestamp>,
) -> Result<bool, Error>
    ensures { (repo : Watched Folders) → Seeds (crypto_with C.CryptoProvider M.Armor providers.now) kind now
        (state_of documents.old repo (S.seen store.old)) (state_of documents.new repo (S.seen store.new)) result }
{
    match load_document(alloc, store, kind) {
        Ok(Some(bytes)) => match take(alloc, providers, documents, kind, bytes, now) {
            Ok(was) => Ok(was),
            Err(e) => pass_over(e),
        },
        Ok(None) => Ok(false),
        Err(e) => Err(e),
    }
}
