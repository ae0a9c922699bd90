// What is asked of the documents in force, by a refresh and by a search. Nothing is fetched or kept here.
ghost use Rattle.std.specs.Prelude.{◌≡◌, ◌≢◌, Ok, Err, IfErr, OnOk, option_copied};
ghost use Rattle.sigstore_tuf_rules.specs.declared.kind.Kind.TheVariants as kind;
ghost use Rattle.sigstore_tuf_rules.specs.Serving.{root_serves_of, timestamp_serves_of, snapshot_serves_of, serves, is_current};
ghost use Rattle.sigstore_tuf_rules.specs.SearchServing.{fresh_timestamp_of, fresh_snapshot_of, unexpired_of, pinned_version_of, pinned_by_of, all_pinned_of, search_serves_of};

use crate::documents::{Held, InForce};
use crate::kind::Kind;
use crate::update::targets_pin;
use sigstore_tuf_parts::{
    Error, MetaFile, Mismatch, Role, Rule, Snapshot, Targets, Timestamp, is_past,
};
use std::alloc::Global;

// ---- what a refresh asks

/// The root in force isn't expired (5.3.10, 'freeze attack': else a repository holds back the root that takes lost keys back).
pub fn check_root_serves(
    alloc: Global,
    documents: &InForce,
    now: jiff::Timestamp,
) -> Result<(), Error>
    ensures ok { OnOk result (root_serves_of documents.now now ≡ Ok tt) }
    ensures err { IfErr result (λ e. e ≢ Error.NoMemory → root_serves_of documents.now now ≡ Err e) }
{
    match documents.root.signed().check_fresh(alloc, now) {
        Ok(()) => Ok(()),
        Err(e) => Err(e),
    }
}

/// The timestamp in force pins the snapshot, and isn't expired (5.4, 'freeze attack': its day may have passed since it was adopted).
#[tactic(auto, unfolding(crate::specs::Serving::timestamp_serves_of))]
pub fn check_timestamp_serves(
    alloc: Global,
    documents: &InForce,
    now: jiff::Timestamp,
) -> Result<(), Error>
    ensures ok { OnOk result (timestamp_serves_of documents.now now ≡ Ok tt) }
    ensures err { IfErr result (λ e. e ≢ Error.NoMemory → timestamp_serves_of documents.now now ≡ Err e) }
{
    let Some(timestamp) = &documents.timestamp else {
        return Err(Error::Malformed(Rule::NoTimestamp));
    };
    let content = timestamp.document.signed();
    match content.snapshot_meta() {
        Some(_) => match content.check_fresh(alloc, now) {
            Ok(()) => Ok(()),
            Err(e) => Err(e),
        },
        None => Err(Error::Malformed(Rule::Unpinned)),
    }
}

/// The snapshot in force isn't expired, and pins the targets document (5.5: else any targets document that was ever signed would do).
#[tactic(auto, unfolding(crate::specs::Serving::snapshot_serves_of))]
pub fn check_snapshot_serves(
    alloc: Global,
    documents: &InForce,
    now: jiff::Timestamp,
) -> Result<(), Error>
    ensures ok { OnOk result (snapshot_serves_of documents.now now ≡ Ok tt) }
    ensures err { IfErr result (λ e. e ≢ Error.NoMemory → snapshot_serves_of documents.now now ≡ Err e) }
{
    targets_pin(alloc, documents, &Some(now))?;
    Ok(())
}

// ---- a document that serves isn't fetched again

// The pin's version, and not expired.
fn is_served(
    pin: Option<&MetaFile>,
    version: u64,
    expires: jiff::Timestamp,
    now: jiff::Timestamp,
) -> bool
    ensures { result ≡ serves (option_copied pin.entry) version expires now }
{
    match pin {
        Some(pin) => pin.version == version && !is_past(expires, now),
        None => false,
    }
}

// The trusted snapshot has the pinned version and isn't expired.
fn keeps_snapshot(documents: &InForce, now: jiff::Timestamp) -> bool
    ensures { result ≡ is_current kind.Snapshot documents.now now }
{
    match (&documents.timestamp, &documents.snapshot) {
        (Some(timestamp), Some(snapshot)) => {
            let content = snapshot.document.signed();
            let pin = timestamp.document.signed().snapshot_meta();
            is_served(pin, content.version, content.expires, now)
        }
        _ => false,
    }
}

// The trusted targets document has the pinned version and isn't expired.
fn keeps_targets(documents: &InForce, now: jiff::Timestamp) -> bool
    ensures { result ≡ is_current kind.Targets documents.now now }
{
    match (&documents.snapshot, documents.targets.get("targets")) {
        (Some(snapshot), Some(targets)) => {
            let content = targets.document.signed();
            let pin = snapshot.document.signed().targets_meta();
            is_served(pin, content.version, content.expires, now)
        }
        _ => false,
    }
}

/// The document in force serves, so that none is fetched.
pub fn is_current(documents: &InForce, kind: Kind, now: jiff::Timestamp) -> bool
    ensures { result ≡ is_current kind documents.now now }
{
    match kind {
        Kind::Snapshot => keeps_snapshot(documents, now),
        Kind::Targets => keeps_targets(documents, now),
        _ => false,
    }
}

// ---- what a search asks

/// The timestamp, where one is in force, isn't expired (5.4, 'freeze attack').
pub fn check_fresh_timestamp(
    alloc: Global,
    timestamp: &Option<Held<Timestamp>>,
    now: jiff::Timestamp,
) -> Result<(), Error>
    ensures ok { OnOk result (fresh_timestamp_of timestamp.now now ≡ Ok tt) }
    ensures err { IfErr result (λ e. e ≢ Error.NoMemory → fresh_timestamp_of timestamp.now now ≡ Err e) }
{
    match timestamp {
        Some(held) => match held.document.signed().check_fresh(alloc, now) {
            Ok(()) => Ok(()),
            Err(e) => Err(e),
        },
        None => Ok(()),
    }
}

/// The snapshot, where one is in force, isn't expired (5.5, 'freeze attack').
pub fn check_fresh_snapshot(
    alloc: Global,
    snapshot: &Option<Held<Snapshot>>,
    now: jiff::Timestamp,
) -> Result<(), Error>
    ensures ok { OnOk result (fresh_snapshot_of snapshot.now now ≡ Ok tt) }
    ensures err { IfErr result (λ e. e ≢ Error.NoMemory → fresh_snapshot_of snapshot.now now ≡ Err e) }
{
    match snapshot {
        Some(held) => match held.document.signed().check_fresh(alloc, now) {
            Ok(()) => Ok(()),
            Err(e) => Err(e),
        },
        None => Ok(()),
    }
}

// None of the three above the targets is expired (5.3 to 5.5, 'freeze attack': else a client that refreshed long ago goes on searching).
#[tactic(auto, unfolding(crate::specs::SearchServing::unexpired_of))]
fn check_unexpired(alloc: Global, documents: &InForce, now: jiff::Timestamp) -> Result<(), Error>
    ensures ok { OnOk result (unexpired_of documents.now now ≡ Ok tt) }
    ensures err { IfErr result (λ e. e ≢ Error.NoMemory → unexpired_of documents.now now ≡ Err e) }
{
    documents.root.signed().check_fresh(alloc, now)?;
    check_fresh_timestamp(alloc, &documents.timestamp, now)?;
    check_fresh_snapshot(alloc, &documents.snapshot, now)?;
    Ok(())
}

// The pin has that version (5.5 and 5.6, 'mix-and-match attack': else documents of two states of the repository are read together).
fn check_pinned_version(pin: Option<&MetaFile>, version: u64) -> Result<(), Error>
    ensures { result ≡ pinned_version_of (option_copied pin.entry) version }
{
    match pin {
        Some(pin) => if pin.version == version {
            Ok(())
        } else {
            Err(Error::IntegrityMismatch(Mismatch::Version))
        },
        None => Err(Error::IntegrityMismatch(Mismatch::Version)),
    }
}

// The targets document isn't expired, and each document has the version by which the one before it pins it (5.6).
#[tactic(auto, unfolding(crate::specs::SearchServing::pinned_by_of))]
fn check_pinned_by(
    alloc: Global,
    timestamp: &Timestamp,
    snapshot: &Snapshot,
    targets: &Targets,
    now: jiff::Timestamp,
) -> Result<(), Error>
    ensures ok { OnOk result (pinned_by_of timestamp.now snapshot.now targets.now now ≡ Ok tt) }
    ensures err { IfErr result
        (λ e. e ≢ Error.NoMemory → pinned_by_of timestamp.now snapshot.now targets.now now ≡ Err e) }
{
    targets.check_fresh(alloc, now)?;
    check_pinned_version(timestamp.snapshot_meta(), snapshot.version)?;
    check_pinned_version(snapshot.targets_meta(), targets.version)?;
    Ok(())
}

// All three documents are there (5.6): a search without one of them would read what nothing pins.
fn check_all_pinned(
    alloc: Global,
    timestamp: &Option<Held<Timestamp>>,
    snapshot: &Option<Held<Snapshot>>,
    targets: Option<&Held<Targets>>,
    now: jiff::Timestamp,
) -> Result<(), Error>
    ensures ok { OnOk result
        (all_pinned_of timestamp.now snapshot.now (option_copied targets.entry) now ≡ Ok tt) }
    ensures err { IfErr result (λ e. e ≢ Error.NoMemory →
        all_pinned_of timestamp.now snapshot.now (option_copied targets.entry) now ≡ Err e) }
{
    match (timestamp, snapshot, targets) {
        (Some(timestamp), Some(snapshot), Some(targets)) => match check_pinned_by(
            alloc,
            timestamp.document.signed(),
            snapshot.document.signed(),
            targets.document.signed(),
            now,
        ) {
            Ok(()) => Ok(()),
            Err(e) => Err(e),
        },
        _ => Err(Error::NotRefreshed),
    }
}

/// The documents in force serve a search (5.6.7): none is expired, none is missing, and each is pinned by the one before it.
#[tactic(auto, unfolding(crate::specs::SearchServing::search_serves_of))]
pub fn check_search(alloc: Global, documents: &InForce, now: jiff::Timestamp) -> Result<(), Error>
    ensures ok { OnOk result (search_serves_of documents.now now ≡ Ok tt) }
    ensures err { IfErr result (λ e. e ≢ Error.NoMemory → search_serves_of documents.now now ≡ Err e) }
{
    check_unexpired(alloc, documents, now)?;
    check_all_pinned(
        alloc,
        &documents.timestamp,
        &documents.snapshot,
        documents.targets.get("targets"),
        now,
    )?;
    Ok(())
}
