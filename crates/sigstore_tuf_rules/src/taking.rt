// One document of any kind: its update, and whether it was taken in. Nothing is fetched or kept here.
ghost use Rattle.std.specs.Prelude.{◌≡◌, option_copied};
ghost use Rattle.sigstore_keys.specs.Crypto.{crypto_with};
ghost use Rattle.sigstore_tuf_rules.specs.Update.{Updates};
ghost use Rattle.sigstore_tuf_rules.specs.Taking.{update_of, judged_of, Takes, bytes_in, there_of, there_unless_equal};

use crate::documents::InForce;
use crate::kind::Kind;
use crate::update::{update_root, update_snapshot, update_targets, update_timestamp};
use sigstore_keys::{CryptoProvider, Providers};
use sigstore_tuf_parts::Error;
use sigstore_types_parts::{Armor, Bytes};
use std::alloc::Global;

fn update<C: CryptoProvider, M: Armor>(
    alloc: Global,
    providers: &Providers<'_, C, M>,
    documents: &mut InForce,
    kind: Kind,
    bytes: Bytes,
    now: Option<jiff::Timestamp>,
) -> Result<(), Error>
    ensures { Updates (update_of (crypto_with C.CryptoProvider M.Armor providers.now) kind documents.old bytes now)
        documents.old documents.new result }
{
    match kind {
        Kind::Root(_) => update_root(alloc, providers, documents, bytes),
        Kind::Timestamp => update_timestamp(alloc, providers, documents, bytes, now),
        Kind::Snapshot => update_snapshot(alloc, providers, documents, bytes, now),
        Kind::Targets => update_targets(alloc, providers, documents, bytes, now),
    }
}

/// An update by bytes that are copied; a root's number is what its file is asked for by, and the update reads it of the document.
pub fn update_copied<C: CryptoProvider, M: Armor>(
    alloc: Global,
    providers: &Providers<'_, C, M>,
    documents: &mut InForce,
    kind: Kind,
    bytes: &[u8],
    now: Option<jiff::Timestamp>,
) -> Result<(), Error>
    ensures { Updates (update_of (crypto_with C.CryptoProvider M.Armor providers.now) kind documents.old bytes.now now)
        documents.old documents.new result }
{
    match Bytes::new(alloc, bytes) {
        Ok(bytes) => update(alloc, providers, documents, kind, bytes, now),
        Err(e) => Err(Error::from(e)),
    }
}

/// What was taken in.
pub fn taken(updated: Result<(), Error>) -> Result<bool, Error>
    ensures { result ≡ there_of updated }
{
    match updated {
        Ok(()) => Ok(true),
        Err(e) => Err(e),
    }
}

// A timestamp of the trusted version leaves the trusted one.
fn unless_equal(updated: Result<(), Error>) -> Result<bool, Error>
    ensures { result ≡ there_unless_equal updated }
{
    match updated {
        Ok(()) => Ok(true),
        Err(Error::EqualVersion { .. }) => Ok(false),
        Err(e) => Err(e),
    }
}

/// Takes a document in; whether it was taken in.
pub fn take<C: CryptoProvider, M: Armor>(
    alloc: Global,
    providers: &Providers<'_, C, M>,
    documents: &mut InForce,
    kind: Kind,
    bytes: Bytes,
    now: Option<jiff::Timestamp>,
) -> Result<bool, Error>
    ensures { Takes (judged_of (crypto_with C.CryptoProvider M.Armor providers.now) kind documents.old bytes now)
        documents.old documents.new result }
{
    let updated = update(alloc, providers, documents, kind, bytes, now);
    match kind {
        Kind::Timestamp => unless_equal(updated),
        _ => taken(updated),
    }
}

/// The bytes of the document in force.
pub fn bytes_in(documents: &InForce, kind: Kind) -> Option<&[u8]>
    ensures { option_copied result ≡ bytes_in kind documents.now }
{
    match kind {
        Kind::Root(_) => match documents.roots.as_slice().last() {
            Some(bytes) => Some(bytes.as_bytes()),
            None => None,
        },
        Kind::Timestamp => match &documents.timestamp {
            Some(held) => Some(held.bytes.as_bytes()),
            None => None,
        },
        Kind::Snapshot => match &documents.snapshot {
            Some(held) => Some(held.bytes.as_bytes()),
            None => None,
        },
        Kind::Targets => match documents.targets.get("targets") {
            Some(held) => Some(held.bytes.as_bytes()),
            None => None,
        },
    }
}
