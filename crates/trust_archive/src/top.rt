// The documents before the roles: the roots, the timestamp and the snapshot come into force one after another.
ghost use Rattle.std.specs.Prelude.{◌≡◌, ◌≢◌, Ok, Err, IfOk, IfErr, OnOk};
ghost use Rattle.sigstore_keys.specs.Crypto.{crypto_with};
ghost use Rattle.sigstore_tuf_rules.specs.Update.{first_root_of, update_root_of, Updates};
ghost use Rattle.trust_archive.specs.Judgement.{at_root, later_roots_of, fresh_root_of, followed_roots_of, roots_of, timed_of, snapshot_judged_of, snapshot_read_of, having_snapshot, snapped_of, both_of, top_of};

use crate::archive::Archive;
use crate::error::ArchiveError;
use foundation::Duplicate;
use sigstore_keys::{CryptoProvider, Providers};
use sigstore_tuf_parts::{Error, MetaFile, Metadata, Role, Root, Rule, Snapshot, check_version};
use sigstore_tuf_rules::{
    Held, InForce, check_root_serves, first_root, snapshot_pin_in, update_root, update_timestamp,
};
use sigstore_types_parts::{Armor, Bytes};
use std::alloc::Global;
use std::mem;

// ---- which document is refused

fn root_error(position: u64, fault: Error) -> ArchiveError
    ensures { result ≢ ArchiveError.NoMemory → (fault ≢ Error.NoMemory) × (result ≡ ArchiveError.Root position fault) }
{
    match fault {
        Error::NoMemory => ArchiveError::NoMemory,
        fault => ArchiveError::Root { position, fault },
    }
}

fn timestamp_error(fault: Error) -> ArchiveError
    ensures { result ≢ ArchiveError.NoMemory → (fault ≢ Error.NoMemory) × (result ≡ ArchiveError.Timestamp fault) }
{
    match fault {
        Error::NoMemory => ArchiveError::NoMemory,
        fault => ArchiveError::Timestamp { fault },
    }
}

fn snapshot_error(fault: Error) -> ArchiveError
    ensures { result ≢ ArchiveError.NoMemory → (fault ≢ Error.NoMemory) × (result ≡ ArchiveError.Snapshot fault) }
{
    match fault {
        Error::NoMemory => ArchiveError::NoMemory,
        fault => ArchiveError::Snapshot { fault },
    }
}

// ---- the roots

// Puts the next root in force.
fn adopt_root<C: CryptoProvider, M: Armor>(
    alloc: Global,
    providers: &Providers<'_, C, M>,
    documents: &mut InForce,
    root: &Bytes,
) -> Result<(), Error>
    ensures { Updates (update_root_of (crypto_with C.CryptoProvider M.Armor providers.now) documents.old root.now)
        documents.old documents.new result }
{
    match root.duplicate(alloc) {
        Ok(bytes) => update_root(alloc, providers, documents, bytes),
        Err(e) => Err(Error::from(e)),
    }
}

// Puts the roots behind the first in force, one after another.
fn adopt_roots<C: CryptoProvider, M: Armor>(
    alloc: Global,
    providers: &Providers<'_, C, M>,
    documents: &mut InForce,
    roots: &[Bytes],
) -> Result<(), ArchiveError>
    ensures ok { OnOk result (later_roots_of (crypto_with C.CryptoProvider M.Armor providers.now) 1 roots.now documents.old ≡ Ok documents.new) }
    ensures err { IfErr result (λ e. e ≢ ArchiveError.NoMemory →
        later_roots_of (crypto_with C.CryptoProvider M.Armor providers.now) 1 roots.now documents.old ≡ Err e) }
{
    let mut position = 0u64;
    for root in roots {
        position += 1;
        match adopt_root(alloc, providers, documents, root) {
            Ok(()) => {}
            Err(e) => return Err(root_error(position, e)),
        }
    }
    Ok(())
}

// The root in force, which is the last of so many, isn't expired.
fn check_root(
    alloc: Global,
    documents: &InForce,
    last: u64,
    now: jiff::Timestamp,
) -> Result<(), ArchiveError>
    ensures ok { OnOk result (fresh_root_of last now documents.now ≡ Ok documents.now) }
    ensures err { IfErr result (λ e. e ≢ ArchiveError.NoMemory → fresh_root_of last now documents.now ≡ Err e) }
{
    match check_root_serves(alloc, documents, now) {
        Ok(()) => Ok(()),
        Err(e) => Err(root_error(last, e)),
    }
}

// The first root, which is the given one.
fn given_root<C: CryptoProvider, M: Armor>(
    alloc: Global,
    providers: &Providers<'_, C, M>,
    root: &Bytes,
) -> Result<InForce, ArchiveError>
    ensures ok { IfOk result (λ set. at_root 0 (first_root_of (crypto_with C.CryptoProvider M.Armor providers.now) root.now) ≡ Ok set) }
    ensures err { IfErr result (λ e. e ≢ ArchiveError.NoMemory →
        at_root 0 (first_root_of (crypto_with C.CryptoProvider M.Armor providers.now) root.now) ≡ Err e) }
{
    match first_root(alloc, providers, root.as_bytes()) {
        Ok(documents) => Ok(documents),
        Err(e) => Err(root_error(0, e)),
    }
}

// The roots behind the first, the last of which isn't expired.
fn follow_roots<C: CryptoProvider, M: Armor>(
    alloc: Global,
    providers: &Providers<'_, C, M>,
    documents: &mut InForce,
    roots: &[Bytes],
    now: jiff::Timestamp,
) -> Result<(), ArchiveError>
    ensures ok { OnOk result (followed_roots_of (crypto_with C.CryptoProvider M.Armor providers.now) now roots.now documents.old ≡ Ok documents.new) }
    ensures err { IfErr result (λ e. e ≢ ArchiveError.NoMemory →
        followed_roots_of (crypto_with C.CryptoProvider M.Armor providers.now) now roots.now documents.old ≡ Err e) }
{
    adopt_roots(alloc, providers, documents, roots)?;
    check_root(alloc, documents, roots.len() as u64, now)?;
    Ok(())
}

// The documents in force with the roots of an archive.
#[tactic(auto, unfolding(crate::specs::Judgement::roots_of))]
fn rooted<C: CryptoProvider, M: Armor>(
    alloc: Global,
    providers: &Providers<'_, C, M>,
    given: &[u8],
    now: jiff::Timestamp,
    roots: &[Bytes],
) -> Result<InForce, ArchiveError>
    ensures ok { IfOk result (λ set. roots_of (crypto_with C.CryptoProvider M.Armor providers.now) given.now now roots.now ≡ Ok set) }
    ensures err { IfErr result (λ e. e ≢ ArchiveError.NoMemory →
        roots_of (crypto_with C.CryptoProvider M.Armor providers.now) given.now now roots.now ≡ Err e) }
{
    let [first, later @ ..] = roots else {
        return Err(ArchiveError::FirstRoot);
    };
    if first.as_bytes() != given {
        return Err(ArchiveError::FirstRoot);
    }
    let mut documents = given_root(alloc, providers, first)?;
    match follow_roots(alloc, providers, &mut documents, later, now) {
        Ok(()) => Ok(documents),
        Err(e) => {
            drop(documents);
            Err(e)
        }
    }
}

// ---- the timestamp and the snapshot

// Puts the timestamp in force.
#[tactic(auto, unfolding(crate::specs::Judgement::timed_of))]
fn adopt_timestamp<C: CryptoProvider, M: Armor>(
    alloc: Global,
    providers: &Providers<'_, C, M>,
    documents: &mut InForce,
    bytes: &Bytes,
    now: jiff::Timestamp,
) -> Result<(), ArchiveError>
    ensures ok { OnOk result (timed_of (crypto_with C.CryptoProvider M.Armor providers.now) now bytes.now documents.old ≡ Ok documents.new) }
    ensures err { IfErr result (λ e. e ≢ ArchiveError.NoMemory →
        timed_of (crypto_with C.CryptoProvider M.Armor providers.now) now bytes.now documents.old ≡ Err e) }
{
    let bytes = bytes.duplicate(alloc)?;
    match update_timestamp(alloc, providers, documents, bytes, Some(now)) {
        Ok(()) => Ok(()),
        Err(e) => Err(timestamp_error(e)),
    }
}

// The snapshot that was read is signed as the root asks, has the pinned version, and isn't expired.
#[tactic(auto, unfolding(crate::specs::Judgement::snapshot_judged_of))]
fn check_snapshot<C: CryptoProvider, M: Armor>(
    alloc: Global,
    providers: &Providers<'_, C, M>,
    root: &Root,
    pin: &MetaFile,
    document: &Metadata<Snapshot>,
    now: jiff::Timestamp,
) -> Result<(), Error>
    ensures ok { OnOk result
        (snapshot_judged_of (crypto_with C.CryptoProvider M.Armor providers.now) now root.now pin.now document.now ≡ Ok tt) }
    ensures err { IfErr result (λ e. e ≢ Error.NoMemory →
        snapshot_judged_of (crypto_with C.CryptoProvider M.Armor providers.now) now root.now pin.now document.now ≡ Err e) }
{
    document.verify_role(alloc, providers.provider, providers.armor, root, "snapshot")?;
    check_version(pin, document.signed().version)?;
    document.signed().check_fresh(alloc, now)?;
    Ok(())
}

// The snapshot of these bytes.
#[tactic(auto, unfolding(crate::specs::Judgement::snapshot_read_of))]
fn read_snapshot<C: CryptoProvider, M: Armor>(
    alloc: Global,
    providers: &Providers<'_, C, M>,
    root: &Root,
    pin: &MetaFile,
    bytes: &[u8],
    now: jiff::Timestamp,
) -> Result<Metadata<Snapshot>, Error>
    ensures ok { IfOk result (λ document.
        snapshot_read_of (crypto_with C.CryptoProvider M.Armor providers.now) now root.now pin.now bytes.now ≡ Ok document) }
    ensures err { IfErr result (λ e. e ≢ Error.NoMemory →
        snapshot_read_of (crypto_with C.CryptoProvider M.Armor providers.now) now root.now pin.now bytes.now ≡ Err e) }
{
    let document = Metadata::<Snapshot>::from_slice(alloc, bytes)?;
    match check_snapshot(alloc, providers, root, pin, &document, now) {
        Ok(()) => Ok(document),
        Err(e) => {
            drop(document);
            Err(e)
        }
    }
}

// The snapshot of these bytes, which the timestamp in force pins.
#[tactic(auto, unfolding(crate::specs::Judgement::snapped_of))]
fn pinned_snapshot<C: CryptoProvider, M: Armor>(
    alloc: Global,
    providers: &Providers<'_, C, M>,
    documents: &InForce,
    bytes: &Bytes,
    now: jiff::Timestamp,
) -> Result<Held<Snapshot>, ArchiveError>
    ensures ok { IfOk result (λ held. snapped_of (crypto_with C.CryptoProvider M.Armor providers.now) now bytes.now documents.now
        ≡ Ok (having_snapshot documents.now held.bytes held.document)) }
    ensures err { IfErr result (λ e. e ≢ ArchiveError.NoMemory →
        snapped_of (crypto_with C.CryptoProvider M.Armor providers.now) now bytes.now documents.now ≡ Err e) }
{
    let Some(pin) = snapshot_pin_in(documents) else {
        return Err(ArchiveError::Timestamp {
            fault: Error::Malformed(Rule::Unpinned),
        });
    };
    let copy = bytes.duplicate(alloc)?;
    let root = documents.root.signed();
    match read_snapshot(alloc, providers, root, pin, bytes.as_bytes(), now) {
        Ok(document) => Ok(Held {
            bytes: copy,
            document,
        }),
        Err(e) => {
            drop(copy);
            Err(snapshot_error(e))
        }
    }
}

// Puts the snapshot in force.
fn adopt_snapshot<C: CryptoProvider, M: Armor>(
    alloc: Global,
    providers: &Providers<'_, C, M>,
    documents: &mut InForce,
    bytes: &Bytes,
    now: jiff::Timestamp,
) -> Result<(), ArchiveError>
    ensures ok { OnOk result (snapped_of (crypto_with C.CryptoProvider M.Armor providers.now) now bytes.now documents.old ≡ Ok documents.new) }
    ensures err { IfErr result (λ e. e ≢ ArchiveError.NoMemory →
        snapped_of (crypto_with C.CryptoProvider M.Armor providers.now) now bytes.now documents.old ≡ Err e) }
{
    match pinned_snapshot(alloc, providers, documents, bytes, now) {
        Ok(held) => {
            drop(mem::replace(&mut documents.snapshot, Some(held)));
            Ok(())
        }
        Err(e) => Err(e),
    }
}

// Both, one after the other.
fn adopt_both<C: CryptoProvider, M: Armor>(
    alloc: Global,
    providers: &Providers<'_, C, M>,
    documents: &mut InForce,
    archive: &Archive,
    now: jiff::Timestamp,
) -> Result<(), ArchiveError>
    ensures ok { OnOk result (both_of (crypto_with C.CryptoProvider M.Armor providers.now) now archive.now documents.old ≡ Ok documents.new) }
    ensures err { IfErr result (λ e. e ≢ ArchiveError.NoMemory →
        both_of (crypto_with C.CryptoProvider M.Armor providers.now) now archive.now documents.old ≡ Err e) }
{
    adopt_timestamp(alloc, providers, documents, &archive.timestamp, now)?;
    adopt_snapshot(alloc, providers, documents, &archive.snapshot, now)?;
    Ok(())
}

/// The documents in force before the roles. Errors: `FirstRoot`, `Root`, `Timestamp`, `Snapshot`.
#[tactic(auto, unfolding(crate::specs::Judgement::top_of))]
pub(crate) fn top<C: CryptoProvider, M: Armor>(
    alloc: Global,
    providers: &Providers<'_, C, M>,
    given: &[u8],
    now: jiff::Timestamp,
    archive: &Archive,
) -> Result<InForce, ArchiveError>
    ensures ok { IfOk result (λ set. top_of (crypto_with C.CryptoProvider M.Armor providers.now) given.now now archive.now ≡ Ok set) }
    ensures err { IfErr result (λ e. e ≢ ArchiveError.NoMemory →
        top_of (crypto_with C.CryptoProvider M.Armor providers.now) given.now now archive.now ≡ Err e) }
{
    let mut documents = rooted(alloc, providers, given, now, archive.roots.as_slice())?;
    match adopt_both(alloc, providers, &mut documents, archive, now) {
        Ok(()) => Ok(documents),
        Err(e) => {
            drop(documents);
            Err(e)
        }
    }
}
