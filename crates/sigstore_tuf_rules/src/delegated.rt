// The rules of delegated roles: who signs for one, its update, and whether the one in force serves.
ghost use Rattle.std.specs.Prelude.{◌≡◌, ◌≢◌, Some, Ok, Err, IfOk, IfErr, OnOk, OnErr, find, bytes_eq, option_copied};
ghost use Rattle.sigstore_types_parts.specs.Entries.{at_name};
ghost use Rattle.sigstore_keys.specs.Crypto.{crypto_with};
ghost use Rattle.sigstore_tuf_rules.specs.Order.{by, is_top_level};
ghost use Rattle.sigstore_tuf_rules.specs.Update.{fresh_at_of, Updates};
ghost use Rattle.sigstore_tuf_rules.specs.Delegated.{authority_by, not_top_level_of, delegation_of, meets_delegation_of, with_role, role_pin_of, role_checks_of, role_document_of, update_role_of, role_serves_of};

use crate::documents::{Held, InForce};
use crate::update::check_fresh_at;
use crate::visit::Visit;
use sigstore_keys::{CryptoProvider, Providers};
use sigstore_tuf_parts::{
    DelegatedRole, Delegations, Error, Key, MetaFile, Metadata, Rule, Targets, check_fresh,
    check_integrity, check_version, pin_name,
};
use sigstore_types_parts::{Armor, Bytes, Text, TextMap};
use std::alloc::Global;

// A delegation, with the keys beside it.
#[derive(Drop)]
pub(crate) struct Delegation<'d> {
    keys: &'d TextMap<Key>,
    role: &'d DelegatedRole,
}

// What a role's document is held against: its delegation, its pin in the snapshot, and its name.
#[derive(Drop)]
pub(crate) struct Expected<'d> {
    delegation: Delegation<'d>,
    pin: &'d MetaFile,
    name: &'d str,
}

/// Whether the name is that of a top-level role.
pub fn is_top_level(name: &str) -> bool
    ensures { result ≡ is_top_level name.now }
{
    "root" == name || "timestamp" == name || "snapshot" == name || "targets" == name
}

// The first delegation of a name.
fn first_delegation<'d>(delegations: &'d Delegations, name: &str) -> Option<&'d DelegatedRole>
    ensures { option_copied result ≡ find (λ r. bytes_eq r.name name.now) delegations.now.roles }
{
    delegations
        .roles
        .as_slice()
        .iter()
        .find(|role| role.name.as_str() == name)
}

// Who signs for a role, as the document of its delegator in force says.
#[tactic(auto, unfolding(crate::specs::Delegated::delegation_of))]
fn find_delegation<'d>(
    alloc: Global,
    documents: &'d InForce,
    name: &str,
    delegator: &str,
) -> Result<Delegation<'d>, Error>
    ensures ok { IfOk result (λ d. delegation_of documents.now (by delegator.now name.now) ≡ Ok (authority_by d)) }
    ensures err { IfErr result (λ e. e ≢ Error.NoMemory → delegation_of documents.now (by delegator.now name.now) ≡ Err e) }
{
    if is_top_level(name) {
        return Err(Error::Malformed(Rule::TopLevel));
    }
    let Some(held) = documents.targets.get(delegator) else {
        return Err(Error::UnknownRole {
            name: Text::new(alloc, delegator)?,
        });
    };
    let Some(delegations) = &held.document.signed().delegations else {
        return Err(Error::Malformed(Rule::NoDelegations));
    };
    match first_delegation(delegations, name) {
        Some(role) => Ok(Delegation {
            keys: &delegations.keys,
            role,
        }),
        None => Err(Error::UnknownRole {
            name: Text::new(alloc, name)?,
        }),
    }
}

// The document has the signatures that a delegation asks for (5.6.7, 'arbitrary software attack': else anyone speaks for the role).
fn check_delegation<C: CryptoProvider, M: Armor>(
    alloc: Global,
    providers: &Providers<'_, C, M>,
    delegation: &Delegation<'_>,
    name: &str,
    document: &Metadata<Targets>,
) -> Result<(), Error>
    ensures ok { OnOk result
        (meets_delegation_of (crypto_with C.CryptoProvider M.Armor providers.now) (authority_by delegation.now) name.now document.now ≡ Ok tt) }
    ensures err { IfErr result (λ e. e ≢ Error.NoMemory →
        meets_delegation_of (crypto_with C.CryptoProvider M.Armor providers.now) (authority_by delegation.now) name.now document.now ≡ Err e) }
{
    let role_keys = delegation.role.role_keys(alloc)?;
    match document.verify_threshold(
        alloc,
        providers.provider,
        providers.armor,
        delegation.keys,
        &role_keys,
        name,
    ) {
        Ok(()) => Ok(()),
        Err(e) => {
            drop(role_keys);
            Err(e)
        }
    }
}

// The pin of a role's document in the snapshot in force, which isn't expired.
#[tactic(auto, unfolding(crate::specs::Delegated::role_pin_of))]
fn role_pin<'d>(
    alloc: Global,
    documents: &'d InForce,
    name: &str,
    now: &Option<jiff::Timestamp>,
) -> Result<&'d MetaFile, Error>
    ensures ok { IfOk result (λ pin. role_pin_of documents.now name.now now.now ≡ Ok pin.now) }
    ensures err { IfErr result (λ e. e ≢ Error.NoMemory → role_pin_of documents.now name.now now.now ≡ Err e) }
{
    let Some(snapshot) = &documents.snapshot else {
        return Err(Error::Malformed(Rule::NoSnapshot));
    };
    check_fresh_at(alloc, snapshot.document.signed(), now)?;
    let pinned = pin_name(alloc, name)?;
    match snapshot.document.signed().meta.get(pinned.as_str()) {
        Some(pin) => Ok(pin),
        None => Err(Error::Malformed(Rule::Unpinned)),
    }
}

// A role's document isn't expired at the moment that is given (5.6, 'freeze attack').
fn check_fresh_role(
    alloc: Global,
    name: &str,
    expires: jiff::Timestamp,
    now: &Option<jiff::Timestamp>,
) -> Result<(), Error>
    ensures ok { OnOk result (fresh_at_of name.now expires now.now ≡ Ok tt) }
    ensures err { IfErr result (λ e. e ≢ Error.NoMemory → fresh_at_of name.now expires now.now ≡ Err e) }
{
    match now {
        Some(now) => match check_fresh(alloc, name, expires, *now) {
            Ok(()) => Ok(()),
            Err(e) => Err(e),
        },
        None => Ok(()),
    }
}

// The checks of a role's document that was read (5.6.7), as of the top-level one: the pinned version, its delegation's signatures, freeze.
#[tactic(auto, unfolding(crate::specs::Delegated::role_checks_of))]
fn check_role<C: CryptoProvider, M: Armor>(
    alloc: Global,
    providers: &Providers<'_, C, M>,
    expected: &Expected<'_>,
    document: &Metadata<Targets>,
    now: &Option<jiff::Timestamp>,
) -> Result<(), Error>
    ensures ok { OnOk result (role_checks_of (crypto_with C.CryptoProvider M.Armor providers.now)
        (authority_by expected.now.delegation) expected.now.pin.now expected.now.name.now document.now now.now ≡ Ok tt) }
    ensures err { IfErr result (λ e. e ≢ Error.NoMemory → role_checks_of (crypto_with C.CryptoProvider M.Armor providers.now)
        (authority_by expected.now.delegation) expected.now.pin.now expected.now.name.now document.now now.now ≡ Err e) }
{
    check_version(expected.pin, document.signed().version)?;
    check_delegation(
        alloc,
        providers,
        &expected.delegation,
        expected.name,
        document,
    )?;
    check_fresh_role(alloc, expected.name, document.signed().expires, now)?;
    Ok(())
}

// The document of these bytes, for its pin and its delegation.
#[tactic(auto, unfolding(crate::specs::Delegated::role_document_of))]
fn read_role<C: CryptoProvider, M: Armor>(
    alloc: Global,
    providers: &Providers<'_, C, M>,
    expected: &Expected<'_>,
    bytes: &[u8],
    now: &Option<jiff::Timestamp>,
) -> Result<Metadata<Targets>, Error>
    ensures ok { IfOk result (λ document. role_document_of (crypto_with C.CryptoProvider M.Armor providers.now)
        (authority_by expected.now.delegation) expected.now.pin.now expected.now.name.now bytes.now now.now ≡ Ok document) }
    ensures err { IfErr result (λ e. e ≢ Error.NoMemory → role_document_of (crypto_with C.CryptoProvider M.Armor providers.now)
        (authority_by expected.now.delegation) expected.now.pin.now expected.now.name.now bytes.now now.now ≡ Err e) }
{
    check_integrity(expected.pin.length, expected.pin.hashes.as_ref(), bytes)?;
    let document = Metadata::<Targets>::from_slice(alloc, bytes)?;
    match check_role(alloc, providers, expected, &document, now) {
        Ok(()) => Ok(document),
        Err(e) => {
            drop(document);
            Err(e)
        }
    }
}

// The document of these bytes, where it may be adopted.
#[tactic(auto, unfolding(crate::specs::Delegated::update_role_of))]
fn new_role<C: CryptoProvider, M: Armor>(
    alloc: Global,
    providers: &Providers<'_, C, M>,
    documents: &InForce,
    visit: &Visit,
    bytes: Bytes,
    now: &Option<jiff::Timestamp>,
) -> Result<Held<Targets>, Error>
    ensures ok { IfOk result (λ held. update_role_of (crypto_with C.CryptoProvider M.Armor providers.now) documents.now
        visit.now bytes now.now ≡ Ok (with_role documents.now visit.now.name held)) }
    ensures err { IfErr result (λ e. e ≢ Error.NoMemory → update_role_of (crypto_with C.CryptoProvider M.Armor providers.now)
        documents.now visit.now bytes now.now ≡ Err e) }
{
    let name = visit.name.as_str();
    let delegation = find_delegation(alloc, documents, name, visit.delegator.as_str())?;
    let pin = role_pin(alloc, documents, name, now)?;
    let expected = Expected {
        delegation,
        pin,
        name,
    };
    let document = read_role(alloc, providers, &expected, bytes.as_bytes(), now)?;
    Ok(Held { bytes, document })
}

// Puts a role's document in force.
fn put_role(
    alloc: Global,
    documents: &mut InForce,
    name: &str,
    held: Held<Targets>,
) -> Result<(), Error>
    ensures ok { OnOk result (documents.new ≡ with_role documents.old name.now held) }
    ensures err { IfErr result (λ e. e ≡ Error.NoMemory) }
    ensures kept { OnErr result (documents.new ≡ documents.old) }
{
    match Text::new(alloc, name) {
        Ok(name) => {
            documents.targets.insert(name, held)?;
            Ok(())
        }
        Err(e) => {
            drop(held);
            Err(Error::from(e))
        }
    }
}

/// Puts the document of a delegated role in force. Errors: `Malformed` for a top-level name, `UnknownRole` for the delegator,
/// `Malformed` where it delegates to none, `UnknownRole` where not to this one; then `Malformed` without a snapshot, `Expired` of it,
/// `Malformed` where it doesn't pin the role, `IntegrityMismatch`, those of a document, `IntegrityMismatch` for the version, those of
/// a threshold, then `Expired`; each expiry where a moment is given.
pub fn update_role<C: CryptoProvider, M: Armor>(
    alloc: Global,
    providers: &Providers<'_, C, M>,
    documents: &mut InForce,
    visit: &Visit,
    bytes: Bytes,
    now: Option<jiff::Timestamp>,
) -> Result<(), Error>
    ensures { Updates (update_role_of (crypto_with C.CryptoProvider M.Armor providers.now) documents.old
        visit.now bytes now) documents.old documents.new result }
{
    match new_role(alloc, providers, documents, visit, bytes, &now) {
        Ok(held) => match put_role(alloc, documents, visit.name.as_str(), held) {
            Ok(()) => Ok(()),
            Err(e) => Err(e),
        },
        Err(e) => Err(e),
    }
}

/// The same by bytes that are copied.
pub fn update_role_copied<C: CryptoProvider, M: Armor>(
    alloc: Global,
    providers: &Providers<'_, C, M>,
    documents: &mut InForce,
    visit: &Visit,
    bytes: &[u8],
    now: Option<jiff::Timestamp>,
) -> Result<(), Error>
    ensures { Updates (update_role_of (crypto_with C.CryptoProvider M.Armor providers.now) documents.old
        visit.now bytes.now now) documents.old documents.new result }
{
    match Bytes::new(alloc, bytes) {
        Ok(bytes) => update_role(alloc, providers, documents, visit, bytes, now),
        Err(e) => Err(Error::from(e)),
    }
}

/// The document of a delegated role in force, where it serves at a moment by what its delegator's says now. Errors: those of the
/// delegation as in `update_role`, `UnknownRole` where none is in force, those of a threshold, then `Expired`.
#[tactic(auto, unfolding(crate::specs::Delegated::role_serves_of))]
pub fn serving_role<'d, C: CryptoProvider, M: Armor>(
    alloc: Global,
    providers: &Providers<'_, C, M>,
    documents: &'d InForce,
    visit: &Visit,
    now: jiff::Timestamp,
) -> Result<&'d Held<Targets>, Error>
    ensures ok { IfOk result (λ held. role_serves_of (crypto_with C.CryptoProvider M.Armor providers.now) documents.now
        visit.now now ≡ Ok tt) }
    ensures same { IfOk result (λ held. at_name visit.now.name documents.now.targets ≡ Some held.now) }
    ensures err { IfErr result (λ e. e ≢ Error.NoMemory → role_serves_of (crypto_with C.CryptoProvider M.Armor providers.now)
        documents.now visit.now now ≡ Err e) }
{
    let name = visit.name.as_str();
    let delegation = find_delegation(alloc, documents, name, visit.delegator.as_str())?;
    let Some(held) = documents.targets.get(name) else {
        return Err(Error::UnknownRole {
            name: Text::new(alloc, name)?,
        });
    };
    check_delegation(alloc, providers, &delegation, name, &held.document)?;
    check_fresh(alloc, name, held.document.signed().expires, now)?;
    Ok(held)
}
