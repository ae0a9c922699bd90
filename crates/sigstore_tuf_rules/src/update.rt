// The rules of the documents in force: each update, or the first check that fails. Nothing here reads or writes anything outside
// its arguments, so that every rule can be tried by itself, on documents in memory.
ghost use Rattle.std.specs.Prelude.{◌≡◌, ◌≢◌, [], ◌∷◌, ◌++◌, Ok, Err, IfOk, IfErr, OnOk, OnErr, codes, option_copied};
ghost use Rattle.sigstore_keys.specs.Crypto.{crypto_with};
ghost use Rattle.sigstore_tuf_parts.specs.Document.{content_in};
ghost use Rattle.sigstore_tuf_parts.specs.RootRoles.{root_document, meets_role_of};
ghost use Rattle.sigstore_tuf_rules.specs.Update.{first_root_of, next_number_of, root_checks_of, update_root_of, fresh_at_of, not_below_of, other_of, newer_than_of, newer_of, pins_not_below_of, timestamp_checks_of, update_timestamp_of, snapshot_pin_of, kept_pin_of, kept_pins_in, kept_pins_of, snapshot_checks_of, update_snapshot_of, targets_pin_of, targets_checks_of, update_targets_of, with_root, with_timestamp, with_snapshot, with_targets, Updates};

use crate::documents::{Held, InForce};
use foundation::Sequence;
use sigstore_keys::{CryptoProvider, Providers};
use sigstore_tuf_parts::{
    Error, MetaFile, Metadata, Mismatch, Role, Root, Rule, Snapshot, Targets, Timestamp,
    check_integrity, check_version,
};
use sigstore_types_parts::{Armor, Bytes, Text, TextMap};
use std::alloc::Global;
use std::mem;

// A list of these bytes alone.
fn alone(alloc: Global, bytes: &[u8]) -> Result<Sequence<Bytes>, Error>
    ensures ok { IfOk result (λ list. list ≡ bytes.now ∷ []) }
    ensures err { IfErr result (λ e. e ≡ Error.NoMemory) }
{
    let mut list = Sequence::new(alloc);
    list.push(Bytes::new(alloc, bytes)?)?;
    Ok(list)
}

// The root of these bytes, which meets its own role.
#[tactic(auto, unfolding(crate::specs::Update::first_root_of))]
fn own_root<C: CryptoProvider, M: Armor>(
    alloc: Global,
    providers: &Providers<'_, C, M>,
    bytes: &[u8],
) -> Result<Metadata<Root>, Error>
    ensures read { IfOk result (λ root. root_document bytes.now ≡ Ok root) }
    ensures met { IfOk result (λ root.
        meets_role_of (crypto_with C.CryptoProvider M.Armor providers.now) (content_in root) (codes "root") root ≡ Ok tt) }
    ensures err { IfErr result (λ e. e ≢ Error.NoMemory →
        first_root_of (crypto_with C.CryptoProvider M.Armor providers.now) bytes.now ≡ Err e) }
{
    let root = Metadata::from_slice(alloc, bytes)?;
    match root.verify_role(
        alloc,
        providers.provider,
        providers.armor,
        root.signed(),
        "root",
    ) {
        Ok(()) => Ok(root),
        Err(e) => {
            drop(root);
            Err(e)
        }
    }
}

/// The documents in force with a first root, which meets its own role. Errors: those of a document, then
/// `UnknownRole`, then those of a threshold.
#[tactic(auto, unfolding(crate::specs::Update::first_root_of))]
pub fn first_root<C: CryptoProvider, M: Armor>(
    alloc: Global,
    providers: &Providers<'_, C, M>,
    bytes: &[u8],
) -> Result<InForce, Error>
    ensures ok { IfOk result (λ set.
        first_root_of (crypto_with C.CryptoProvider M.Armor providers.now) bytes.now ≡ Ok set) }
    ensures err { IfErr result (λ e. e ≢ Error.NoMemory →
        first_root_of (crypto_with C.CryptoProvider M.Armor providers.now) bytes.now ≡ Err e) }
{
    let roots = alone(alloc, bytes)?;
    let root = own_root(alloc, providers, bytes)?;
    Ok(InForce {
        roots,
        root,
        timestamp: None,
        snapshot: None,
        targets: TextMap::new(alloc),
    })
}

// The number is the next one (5.3.5): a lower one would bring back keys that were taken back, a higher one skip the root that does so.
fn check_next_number(trusted: u64, new: u64) -> Result<(), Error>
    ensures { result ≡ next_number_of trusted new }
{
    if trusted < u64::MAX && new == trusted + 1 {
        Ok(())
    } else {
        Err(Error::BadRootVersion { trusted, new })
    }
}

// The checks of a next root that was read: signed as the root before it asks (5.3.4: else anyone hands on), and as it asks itself.
#[tactic(auto, unfolding(crate::specs::Update::root_checks_of))]
fn check_root<C: CryptoProvider, M: Armor>(
    alloc: Global,
    providers: &Providers<'_, C, M>,
    old: &Metadata<Root>,
    new: &Metadata<Root>,
) -> Result<(), Error>
    ensures ok { OnOk result
        (root_checks_of (crypto_with C.CryptoProvider M.Armor providers.now) old.now new.now ≡ Ok tt) }
    ensures err { IfErr result (λ e. e ≢ Error.NoMemory →
        root_checks_of (crypto_with C.CryptoProvider M.Armor providers.now) old.now new.now ≡ Err e) }
{
    check_next_number(old.signed().version, new.signed().version)?;
    new.verify_role(
        alloc,
        providers.provider,
        providers.armor,
        old.signed(),
        "root",
    )?;
    new.verify_role(
        alloc,
        providers.provider,
        providers.armor,
        new.signed(),
        "root",
    )?;
    Ok(())
}

// The document of these bytes, which follows the root in force.
#[tactic(auto, unfolding(crate::specs::Update::update_root_of))]
fn next_root<C: CryptoProvider, M: Armor>(
    alloc: Global,
    providers: &Providers<'_, C, M>,
    documents: &InForce,
    bytes: &Bytes,
) -> Result<Metadata<Root>, Error>
    ensures ok { IfOk result (λ new. update_root_of (crypto_with C.CryptoProvider M.Armor providers.now)
        documents.now bytes.now ≡ Ok (with_root documents.now bytes.now new)) }
    ensures err { IfErr result (λ e. e ≢ Error.NoMemory →
        update_root_of (crypto_with C.CryptoProvider M.Armor providers.now) documents.now bytes.now ≡ Err e) }
{
    let new = Metadata::from_slice(alloc, bytes.as_bytes())?;
    match check_root(alloc, providers, &documents.root, &new) {
        Ok(()) => Ok(new),
        Err(e) => {
            drop(new);
            Err(e)
        }
    }
}

// The documents below a root are dropped.
fn drop_below_root(alloc: Global, documents: &mut InForce)
    ensures { documents.new ≡ record documents.old { timestamp = None; snapshot = None; targets = [] } }
{
    drop(mem::replace(&mut documents.timestamp, None));
    drop(mem::replace(&mut documents.snapshot, None));
    drop(mem::replace(&mut documents.targets, TextMap::new(alloc)));
}

// Puts a next root in force.
fn put_root(
    alloc: Global,
    documents: &mut InForce,
    bytes: Bytes,
    root: Metadata<Root>,
) -> Result<(), Error>
    ensures ok { OnOk result (documents.new ≡ with_root documents.old bytes root) }
    ensures err { IfErr result (λ e. e ≡ Error.NoMemory) }
    ensures kept { OnErr result (documents.new ≡ documents.old) }
{
    match documents.roots.push(bytes) {
        Ok(()) => {
            drop(mem::replace(&mut documents.root, root));
            drop_below_root(alloc, documents);
            Ok(())
        }
        Err(e) => {
            drop(root);
            Err(Error::from(e))
        }
    }
}

/// Puts the next root of these bytes in force. Errors: those of a document, `BadRootVersion`, `UnknownRole`
/// and those of a threshold for the root in force, then for its own.
pub fn update_root<C: CryptoProvider, M: Armor>(
    alloc: Global,
    providers: &Providers<'_, C, M>,
    documents: &mut InForce,
    bytes: Bytes,
) -> Result<(), Error>
    ensures { Updates (update_root_of (crypto_with C.CryptoProvider M.Armor providers.now) documents.old bytes)
        documents.old documents.new result }
{
    match next_root(alloc, providers, documents, &bytes) {
        Ok(root) => match put_root(alloc, documents, bytes, root) {
            Ok(()) => Ok(()),
            Err(e) => Err(e),
        },
        Err(e) => Err(e),
    }
}

// The document isn't expired at the moment that is given (5.3 to 5.6, 'freeze attack': else a repository hides every later release).
pub(crate) fn check_fresh_at<T: Role>(
    alloc: Global,
    content: &T,
    now: &Option<jiff::Timestamp>,
) -> Result<(), Error>
    ensures ok { OnOk result (fresh_at_of T.kind (T.expires_in content.now) now.now ≡ Ok tt) }
    ensures err { IfErr result
        (λ e. e ≢ Error.NoMemory → fresh_at_of T.kind (T.expires_in content.now) now.now ≡ Err e) }
{
    match now {
        Some(now) => match content.check_fresh(alloc, *now) {
            Ok(()) => Ok(()),
            Err(e) => Err(e),
        },
        None => Ok(()),
    }
}

// The number isn't below the trusted one (5.4 and 5.5, 'rollback attack': else an old state with a known hole is served again).
fn check_not_below(alloc: Global, role: &str, trusted: u64, new: u64) -> Result<(), Error>
    ensures ok { OnOk result (not_below_of role.now trusted new ≡ Ok tt) }
    ensures err { IfErr result (λ e. e ≢ Error.NoMemory → not_below_of role.now trusted new ≡ Err e) }
{
    if new < trusted {
        return Err(Error::Rollback {
            role: Text::new(alloc, role)?,
            trusted,
            new,
        });
    }
    Ok(())
}

// The number is another one (5.4): an equal one says nothing new, and would put another document in the place of the trusted one.
fn check_other(alloc: Global, role: &str, trusted: u64, new: u64) -> Result<(), Error>
    ensures ok { OnOk result (other_of role.now trusted new ≡ Ok tt) }
    ensures err { IfErr result (λ e. e ≢ Error.NoMemory → other_of role.now trusted new ≡ Err e) }
{
    if new == trusted {
        return Err(Error::EqualVersion {
            role: Text::new(alloc, role)?,
            version: new,
        });
    }
    Ok(())
}

// The snapshot's pin isn't lower (5.4, 'rollback attack': else a new timestamp brings an old snapshot back).
fn check_pins(alloc: Global, old: Option<&MetaFile>, new: Option<&MetaFile>) -> Result<(), Error>
    ensures ok { OnOk result (pins_not_below_of (option_copied old.entry) (option_copied new.entry) ≡ Ok tt) }
    ensures err { IfErr result
        (λ e. e ≢ Error.NoMemory → pins_not_below_of (option_copied old.entry) (option_copied new.entry) ≡ Err e) }
{
    match (old, new) {
        (Some(old), Some(new)) => check_not_below(alloc, "snapshot", old.version, new.version),
        _ => Ok(()),
    }
}

// A timestamp is newer than another by its own number and by that of its pin (5.4).
#[tactic(auto, unfolding(crate::specs::Update::newer_than_of))]
fn check_newer(alloc: Global, old: &Timestamp, new: &Timestamp) -> Result<(), Error>
    ensures ok { OnOk result (newer_than_of old.now new.now ≡ Ok tt) }
    ensures err { IfErr result (λ e. e ≢ Error.NoMemory → newer_than_of old.now new.now ≡ Err e) }
{
    check_not_below(alloc, "timestamp", old.version, new.version)?;
    check_other(alloc, "timestamp", old.version, new.version)?;
    check_pins(alloc, old.snapshot_meta(), new.snapshot_meta())?;
    Ok(())
}

// The same where a timestamp is in force (5.4): without one there is nothing to fall below.
fn check_newer_in(
    alloc: Global,
    old: &Option<Held<Timestamp>>,
    new: &Timestamp,
) -> Result<(), Error>
    ensures ok { OnOk result (newer_of old.now new.now ≡ Ok tt) }
    ensures err { IfErr result (λ e. e ≢ Error.NoMemory → newer_of old.now new.now ≡ Err e) }
{
    match old {
        Some(held) => {
            check_newer(alloc, held.document.signed(), new)?;
            Ok(())
        }
        None => Ok(()),
    }
}

// The checks of a timestamp that was read (5.4): its signatures ('arbitrary software attack'), rollback, freeze.
#[tactic(auto, unfolding(crate::specs::Update::timestamp_checks_of))]
fn check_timestamp<C: CryptoProvider, M: Armor>(
    alloc: Global,
    providers: &Providers<'_, C, M>,
    documents: &InForce,
    document: &Metadata<Timestamp>,
    now: &Option<jiff::Timestamp>,
) -> Result<(), Error>
    ensures ok { OnOk result
        (timestamp_checks_of (crypto_with C.CryptoProvider M.Armor providers.now) documents.now document.now now.now ≡ Ok tt) }
    ensures err { IfErr result (λ e. e ≢ Error.NoMemory →
        timestamp_checks_of (crypto_with C.CryptoProvider M.Armor providers.now) documents.now document.now now.now ≡ Err e) }
{
    let content = document.signed();
    document.verify_role(
        alloc,
        providers.provider,
        providers.armor,
        documents.root.signed(),
        "timestamp",
    )?;
    check_newer_in(alloc, &documents.timestamp, content)?;
    check_fresh_at(alloc, content, now)?;
    Ok(())
}

// The timestamp of these bytes, where it may be adopted.
#[tactic(auto, unfolding(crate::specs::Update::update_timestamp_of))]
fn new_timestamp<C: CryptoProvider, M: Armor>(
    alloc: Global,
    providers: &Providers<'_, C, M>,
    documents: &InForce,
    bytes: Bytes,
    now: &Option<jiff::Timestamp>,
) -> Result<Held<Timestamp>, Error>
    ensures ok { IfOk result (λ held.
        update_timestamp_of (crypto_with C.CryptoProvider M.Armor providers.now) documents.now bytes now.now
        ≡ Ok (with_timestamp documents.now held)) }
    ensures err { IfErr result (λ e. e ≢ Error.NoMemory →
        update_timestamp_of (crypto_with C.CryptoProvider M.Armor providers.now) documents.now bytes now.now ≡ Err e) }
{
    let document = Metadata::<Timestamp>::from_slice(alloc, bytes.as_bytes())?;
    match check_timestamp(alloc, providers, documents, &document, now) {
        Ok(()) => Ok(Held { bytes, document }),
        Err(e) => {
            drop(document);
            Err(e)
        }
    }
}

/// Puts the timestamp of these bytes in force. Errors: those of a document, `UnknownRole`, those of a threshold, `Rollback`,
/// `EqualVersion`, `Rollback` of the snapshot's pin, then `Expired` where a moment is given.
pub fn update_timestamp<C: CryptoProvider, M: Armor>(
    alloc: Global,
    providers: &Providers<'_, C, M>,
    documents: &mut InForce,
    bytes: Bytes,
    now: Option<jiff::Timestamp>,
) -> Result<(), Error>
    ensures { Updates (update_timestamp_of (crypto_with C.CryptoProvider M.Armor providers.now) documents.old bytes now)
        documents.old documents.new result }
{
    match new_timestamp(alloc, providers, documents, bytes, &now) {
        Ok(held) => {
            drop(mem::replace(&mut documents.timestamp, Some(held)));
            Ok(())
        }
        Err(e) => Err(e),
    }
}

// The snapshot's pin in the timestamp in force, which isn't expired.
#[tactic(auto, unfolding(crate::specs::Update::snapshot_pin_of))]
fn snapshot_pin<'d>(
    alloc: Global,
    documents: &'d InForce,
    now: &Option<jiff::Timestamp>,
) -> Result<&'d MetaFile, Error>
    ensures ok { IfOk result (λ pin. snapshot_pin_of documents.now now.now ≡ Ok pin.now) }
    ensures err { IfErr result (λ e. e ≢ Error.NoMemory → snapshot_pin_of documents.now now.now ≡ Err e) }
{
    let Some(timestamp) = &documents.timestamp else {
        return Err(Error::Malformed(Rule::NoTimestamp));
    };
    let content = timestamp.document.signed();
    if let Err(e) = check_fresh_at(alloc, content, now) {
        return Err(e);
    }
    match content.snapshot_meta() {
        Some(pin) => Ok(pin),
        None => Err(Error::Malformed(Rule::Unpinned)),
    }
}

// A trusted pin is still there, and not lower (5.5, 'rollback attack': else a role's document vanishes from the search, or an old one is back).
fn check_kept_pin(
    alloc: Global,
    name: &str,
    old: &MetaFile,
    new: Option<&MetaFile>,
) -> Result<(), Error>
    ensures ok { OnOk result (kept_pin_of name.now old.now (option_copied new.entry) ≡ Ok tt) }
    ensures err { IfErr result
        (λ e. e ≢ Error.NoMemory → kept_pin_of name.now old.now (option_copied new.entry) ≡ Err e) }
{
    match new {
        Some(new) => {
            check_not_below(alloc, name, old.version, new.version)?;
            Ok(())
        }
        None => Err(Error::IntegrityMismatch(Mismatch::Vanished)),
    }
}

// The same of each trusted pin (5.5), in ascending order of names.
fn check_kept_pins(alloc: Global, old: &TextMap<MetaFile>, new: &Snapshot) -> Result<(), Error>
    ensures ok { OnOk result (kept_pins_in old.now new.now ≡ Ok tt) }
    ensures err { IfErr result (λ e. e ≢ Error.NoMemory → kept_pins_in old.now new.now ≡ Err e) }
{
    for (name, pin) in old.iter() {
        check_kept_pin(alloc, name.as_str(), pin, new.meta.get(name.as_str()))?;
    }
    Ok(())
}

// The same where a snapshot is in force (5.5).
fn check_kept(alloc: Global, old: &Option<Held<Snapshot>>, new: &Snapshot) -> Result<(), Error>
    ensures ok { OnOk result (kept_pins_of old.now new.now ≡ Ok tt) }
    ensures err { IfErr result (λ e. e ≢ Error.NoMemory → kept_pins_of old.now new.now ≡ Err e) }
{
    match old {
        Some(held) => {
            check_kept_pins(alloc, &held.document.signed().meta, new)?;
            Ok(())
        }
        None => Ok(()),
    }
}

// The checks of a snapshot that was read (5.5): its signatures, the pinned version ('mix-and-match attack'), rollback, freeze.
#[tactic(auto, unfolding(crate::specs::Update::snapshot_checks_of))]
fn check_snapshot<C: CryptoProvider, M: Armor>(
    alloc: Global,
    providers: &Providers<'_, C, M>,
    documents: &InForce,
    pin: &MetaFile,
    document: &Metadata<Snapshot>,
    now: &Option<jiff::Timestamp>,
) -> Result<(), Error>
    ensures ok { OnOk result
        (snapshot_checks_of (crypto_with C.CryptoProvider M.Armor providers.now) documents.now pin.now document.now now.now ≡ Ok tt) }
    ensures err { IfErr result (λ e. e ≢ Error.NoMemory →
        snapshot_checks_of (crypto_with C.CryptoProvider M.Armor providers.now) documents.now pin.now document.now now.now ≡ Err e) }
{
    let content = document.signed();
    document.verify_role(
        alloc,
        providers.provider,
        providers.armor,
        documents.root.signed(),
        "snapshot",
    )?;
    check_version(pin, content.version)?;
    check_kept(alloc, &documents.snapshot, content)?;
    check_fresh_at(alloc, content, now)?;
    Ok(())
}

// The snapshot of these bytes, where it may be adopted.
#[tactic(auto, unfolding(crate::specs::Update::update_snapshot_of))]
fn new_snapshot<C: CryptoProvider, M: Armor>(
    alloc: Global,
    providers: &Providers<'_, C, M>,
    documents: &InForce,
    bytes: Bytes,
    now: &Option<jiff::Timestamp>,
) -> Result<Held<Snapshot>, Error>
    ensures ok { IfOk result (λ held.
        update_snapshot_of (crypto_with C.CryptoProvider M.Armor providers.now) documents.now bytes now.now
        ≡ Ok (with_snapshot documents.now held)) }
    ensures err { IfErr result (λ e. e ≢ Error.NoMemory →
        update_snapshot_of (crypto_with C.CryptoProvider M.Armor providers.now) documents.now bytes now.now ≡ Err e) }
{
    let pin = snapshot_pin(alloc, documents, now)?;
    check_integrity(pin.length, pin.hashes.as_ref(), bytes.as_bytes())?;
    let document = Metadata::<Snapshot>::from_slice(alloc, bytes.as_bytes())?;
    match check_snapshot(alloc, providers, documents, pin, &document, now) {
        Ok(()) => Ok(Held { bytes, document }),
        Err(e) => {
            drop(document);
            Err(e)
        }
    }
}

// Puts a snapshot in force; the targets documents are dropped.
fn put_snapshot(alloc: Global, documents: &mut InForce, held: Held<Snapshot>)
    ensures { documents.new ≡ with_snapshot documents.old held }
{
    drop(mem::replace(&mut documents.snapshot, Some(held)));
    drop(mem::replace(&mut documents.targets, TextMap::new(alloc)));
}

/// Puts the snapshot of these bytes in force. Errors: `Malformed` without a timestamp, `Expired` of it, `Malformed` where it
/// pins no snapshot, `IntegrityMismatch`, those of a document, `UnknownRole`, those of a threshold, `IntegrityMismatch` for the
/// version and for a pin that vanished, `Rollback` of a pin, then `Expired`; each expiry where a moment is given.
pub fn update_snapshot<C: CryptoProvider, M: Armor>(
    alloc: Global,
    providers: &Providers<'_, C, M>,
    documents: &mut InForce,
    bytes: Bytes,
    now: Option<jiff::Timestamp>,
) -> Result<(), Error>
    ensures { Updates (update_snapshot_of (crypto_with C.CryptoProvider M.Armor providers.now) documents.old bytes now)
        documents.old documents.new result }
{
    match new_snapshot(alloc, providers, documents, bytes, &now) {
        Ok(held) => {
            put_snapshot(alloc, documents, held);
            Ok(())
        }
        Err(e) => Err(e),
    }
}

// The pin of the top-level targets document in the snapshot in force, which isn't expired.
#[tactic(auto, unfolding(crate::specs::Update::targets_pin_of))]
pub(crate) fn targets_pin<'d>(
    alloc: Global,
    documents: &'d InForce,
    now: &Option<jiff::Timestamp>,
) -> Result<&'d MetaFile, Error>
    ensures ok { IfOk result (λ pin. targets_pin_of documents.now now.now ≡ Ok pin.now) }
    ensures err { IfErr result (λ e. e ≢ Error.NoMemory → targets_pin_of documents.now now.now ≡ Err e) }
{
    let Some(snapshot) = &documents.snapshot else {
        return Err(Error::Malformed(Rule::NoSnapshot));
    };
    check_fresh_at(alloc, snapshot.document.signed(), now)?;
    match snapshot.document.signed().targets_meta() {
        Some(pin) => Ok(pin),
        None => Err(Error::Malformed(Rule::Unpinned)),
    }
}

// The checks of a targets document that was read (5.6): the pinned version ('mix-and-match attack'), its signatures, freeze.
#[tactic(auto, unfolding(crate::specs::Update::targets_checks_of))]
fn check_targets<C: CryptoProvider, M: Armor>(
    alloc: Global,
    providers: &Providers<'_, C, M>,
    documents: &InForce,
    pin: &MetaFile,
    document: &Metadata<Targets>,
    now: &Option<jiff::Timestamp>,
) -> Result<(), Error>
    ensures ok { OnOk result
        (targets_checks_of (crypto_with C.CryptoProvider M.Armor providers.now) documents.now pin.now document.now now.now ≡ Ok tt) }
    ensures err { IfErr result (λ e. e ≢ Error.NoMemory →
        targets_checks_of (crypto_with C.CryptoProvider M.Armor providers.now) documents.now pin.now document.now now.now ≡ Err e) }
{
    check_version(pin, document.signed().version)?;
    document.verify_role(
        alloc,
        providers.provider,
        providers.armor,
        documents.root.signed(),
        "targets",
    )?;
    check_fresh_at(alloc, document.signed(), now)?;
    Ok(())
}

// The top-level targets document of these bytes, where it may be adopted.
#[tactic(auto, unfolding(crate::specs::Update::update_targets_of))]
fn new_targets<C: CryptoProvider, M: Armor>(
    alloc: Global,
    providers: &Providers<'_, C, M>,
    documents: &InForce,
    bytes: Bytes,
    now: &Option<jiff::Timestamp>,
) -> Result<Held<Targets>, Error>
    ensures ok { IfOk result (λ held.
        update_targets_of (crypto_with C.CryptoProvider M.Armor providers.now) documents.now bytes now.now
        ≡ Ok (with_targets documents.now held)) }
    ensures err { IfErr result (λ e. e ≢ Error.NoMemory →
        update_targets_of (crypto_with C.CryptoProvider M.Armor providers.now) documents.now bytes now.now ≡ Err e) }
{
    let pin = targets_pin(alloc, documents, now)?;
    check_integrity(pin.length, pin.hashes.as_ref(), bytes.as_bytes())?;
    let document = Metadata::<Targets>::from_slice(alloc, bytes.as_bytes())?;
    match check_targets(alloc, providers, documents, pin, &document, now) {
        Ok(()) => Ok(Held { bytes, document }),
        Err(e) => {
            drop(document);
            Err(e)
        }
    }
}

// Puts a targets document in force.
fn put_targets(alloc: Global, documents: &mut InForce, held: Held<Targets>) -> Result<(), Error>
    ensures ok { OnOk result (documents.new ≡ with_targets documents.old held) }
    ensures err { IfErr result (λ e. e ≡ Error.NoMemory) }
    ensures kept { OnErr result (documents.new ≡ documents.old) }
{
    match Text::new(alloc, "targets") {
        Ok(name) => {
            documents.targets.insert(name, held)?;
            Ok(())
        }
        Err(e) => {
            drop(held);
            Err(Error::from(e))
        }
    }
}

/// Puts the top-level targets document of these bytes in force. Errors: `Malformed` without a snapshot, `Expired` of it,
/// `Malformed` where it pins no targets document, `IntegrityMismatch`, those of a document, `IntegrityMismatch` for the version,
/// `UnknownRole`, those of a threshold, then `Expired`; each expiry where a moment is given.
pub fn update_targets<C: CryptoProvider, M: Armor>(
    alloc: Global,
    providers: &Providers<'_, C, M>,
    documents: &mut InForce,
    bytes: Bytes,
    now: Option<jiff::Timestamp>,
) -> Result<(), Error>
    ensures { Updates (update_targets_of (crypto_with C.CryptoProvider M.Armor providers.now) documents.old bytes now)
        documents.old documents.new result }
{
    match new_targets(alloc, providers, documents, bytes, &now) {
        Ok(held) => match put_targets(alloc, documents, held) {
            Ok(()) => Ok(()),
            Err(e) => Err(e),
        },
        Err(e) => Err(e),
    }
}
