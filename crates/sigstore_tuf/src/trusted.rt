// The documents in force, with who judges their signatures.
ghost use Rattle.std.specs.Prelude.{◌≡◌, ◌≢◌, Ok, Err, IfOk, IfErr, OnOk, None, Some, codes, option_copied, option_map};
ghost use Rattle.std.specs.List.{last_or};
ghost use Rattle.sigstore_keys.specs.Crypto.{crypto_by};
ghost use Rattle.sigstore_tuf_parts.specs.Document.{content_in};
ghost use Rattle.sigstore_types_parts.specs.Entries.{at_name};
ghost use Rattle.sigstore_tuf_rules.specs.Documents.{content_of};
ghost use Rattle.sigstore_tuf_rules.specs.Update.{first_root_of, update_root_of, update_timestamp_of, update_snapshot_of, update_targets_of};
ghost use Rattle.sigstore_tuf_rules.specs.Order.{by};
ghost use Rattle.sigstore_tuf_rules.specs.Delegated.{update_role_of, role_serves_of};
ghost use Rattle.sigstore_tuf_rules.specs.SearchServing.{fresh_timestamp_of, fresh_snapshot_of};
ghost use Rattle.sigstore_tuf_parts.specs.Integrity.{fresh_of};
ghost use Rattle.sigstore_tuf_rules.specs.Authorised.{IsAuthorised, crypto_in, SameJudges, UpdatesSet};

use sigstore_keys::{CryptoProvider, Providers};
use sigstore_tuf_parts::{Error, Role, Root, Snapshot, Targets, Timestamp};
use sigstore_tuf_rules::{
    InForce, Kind, Visit, check_fresh_snapshot, check_fresh_timestamp, first_root, serving_role,
    update_copied, update_role_copied,
};
use sigstore_types_parts::Armor;
use std::alloc::Global;
use std::marker::Model;

/// The documents in force, and the provider and the armour by which their signatures are judged. Contracts
/// see both judges as one, and the documents; these are authorised from the first root in every state.
#[derive(Drop)]
pub struct TrustedMetadataSet<'p, C: CryptoProvider, M: Armor> {
    pub(crate) providers: Providers<'p, C, M>,
    pub(crate) documents: InForce,
}

impl<'p, C: CryptoProvider, M: Armor> Model for TrustedMetadataSet<'p, C, M> {
    ghost use Rattle.sigstore_keys.specs.Crypto.{crypto_with};
    ghost use Rattle.sigstore_tuf_rules.specs.Authorised.{IsAuthorised, TrustedSet};
    ghost use Rattle.sigstore_types_parts.specs.contracts.json_value.Json as json;
    ghost use Rattle.std.specs.Coded.{codes as coded_types};

    ghost Value = { TrustedSet C M };

    ghost coded = { Prim.hlevel (coded_types, json.the_row.coded) };

    ghost view = { λ s. record { provider = s.providers.provider.now; armor = s.providers.armor.now; documents = s.documents } };

    ghost invariant = { λ s. IsAuthorised (crypto_with C.CryptoProvider M.Armor s.providers) s.documents };
}

impl<'p, C: CryptoProvider, M: Armor> TrustedMetadataSet<'p, C, M> {
    /// A set of a first root, which is trusted as it is given and meets its own role. Errors: those of a
    /// document, then `UnknownRole`, then those of a threshold.
    pub fn from_root(
        alloc: Global,
        provider: &'p C,
        armor: &'p M,
        bytes: &[u8],
    ) -> Result<TrustedMetadataSet<'p, C, M>, Error>
        ensures ok { IfOk result (λ set.
            first_root_of (crypto_by C.CryptoProvider M.Armor provider.now armor.now) bytes.now ≡ Ok set.documents) }
        ensures judges { IfOk result (λ set. (set.provider ≡ provider.now) × (set.armor ≡ armor.now)) }
        ensures authorised { IfOk result (λ set.
            IsAuthorised (crypto_by C.CryptoProvider M.Armor provider.now armor.now) set.documents) }
        ensures err { IfErr result (λ e. e ≢ Error.NoMemory →
            first_root_of (crypto_by C.CryptoProvider M.Armor provider.now armor.now) bytes.now ≡ Err e) }
    {
        let providers = Providers { provider, armor };
        match first_root(alloc, &providers, bytes) {
            Ok(documents) => Ok(TrustedMetadataSet {
                providers,
                documents,
            }),
            Err(e) => Err(e),
        }
    }

    /// The root in force.
    pub fn root(&self) -> &Root
        ensures { result.now ≡ content_in self.now.documents.root }
    {
        self.documents.root.signed()
    }

    /// The bytes of the root in force.
    pub fn root_bytes(&self) -> &[u8]
        ensures { Some result.now ≡ last_or None self.now.documents.roots }
    {
        match self.documents.roots.as_slice().last() {
            Some(bytes) => bytes.as_bytes(),
            None => &[],
        }
    }

    /// The timestamp in force.
    pub fn timestamp(&self) -> Option<&Timestamp>
        ensures { option_copied result ≡ option_map content_of self.now.documents.timestamp }
    {
        match &self.documents.timestamp {
            Some(held) => Some(held.document.signed()),
            None => None,
        }
    }

    /// The snapshot in force.
    pub fn snapshot(&self) -> Option<&Snapshot>
        ensures { option_copied result ≡ option_map content_of self.now.documents.snapshot }
    {
        match &self.documents.snapshot {
            Some(held) => Some(held.document.signed()),
            None => None,
        }
    }

    /// The targets document in force of a role.
    pub fn targets_role(&self, name: &str) -> Option<&Targets>
        ensures { option_copied result ≡ option_map content_of (at_name name.now self.now.documents.targets) }
    {
        match self.documents.targets.get(name) {
            Some(held) => Some(held.document.signed()),
            None => None,
        }
    }

    /// Whether the root in force isn't expired at a moment. Errors: `Expired`.
    pub fn check_root_expired(&self, alloc: Global, now: jiff::Timestamp) -> Result<(), Error>
        ensures ok { OnOk result (fresh_of (codes "root") (content_in self.now.documents.root).expires now ≡ Ok tt) }
        ensures err { IfErr result (λ e. e ≢ Error.NoMemory →
            fresh_of (codes "root") (content_in self.now.documents.root).expires now ≡ Err e) }
    {
        match self.documents.root.signed().check_fresh(alloc, now) {
            Ok(()) => Ok(()),
            Err(e) => Err(e),
        }
    }

    /// Whether the timestamp in force, where there is one, isn't expired at a moment. Errors: `Expired`.
    pub fn check_timestamp_expired(&self, alloc: Global, now: jiff::Timestamp) -> Result<(), Error>
        ensures ok { OnOk result (fresh_timestamp_of self.now.documents.timestamp now ≡ Ok tt) }
        ensures err { IfErr result (λ e. e ≢ Error.NoMemory → fresh_timestamp_of self.now.documents.timestamp now ≡ Err e) }
    {
        check_fresh_timestamp(alloc, &self.documents.timestamp, now)
    }

    /// Whether the snapshot in force, where there is one, isn't expired at a moment. Errors: `Expired`.
    pub fn check_snapshot_expired(&self, alloc: Global, now: jiff::Timestamp) -> Result<(), Error>
        ensures ok { OnOk result (fresh_snapshot_of self.now.documents.snapshot now ≡ Ok tt) }
        ensures err { IfErr result (λ e. e ≢ Error.NoMemory → fresh_snapshot_of self.now.documents.snapshot now ≡ Err e) }
    {
        check_fresh_snapshot(alloc, &self.documents.snapshot, now)
    }

    /// Puts the next root of these bytes in force, and drops the other documents. Errors: those of a document,
    /// `BadRootVersion`, `UnknownRole` and those of a threshold for the root in force, then for its own; all
    /// stays as it was.
    pub fn update_root(&mut self, alloc: Global, bytes: &[u8]) -> Result<(), Error>
        ensures updates { let crypto = crypto_in C.CryptoProvider M.Armor self.old in
            UpdatesSet (update_root_of crypto self.old.documents bytes.now) crypto self.old.documents self.new.documents result }
        ensures judges { SameJudges self.old self.new }
    {
        update_copied(
            alloc,
            &self.providers,
            &mut self.documents,
            Kind::Root(0),
            bytes,
            None,
        )
    }

    /// Puts the timestamp of these bytes in force. Errors: those of a document, `UnknownRole`, those of a
    /// threshold, `Rollback`, `EqualVersion`, `Rollback` of the snapshot's pin, then `Expired`; all stays as it
    /// was.
    pub fn update_timestamp(
        &mut self,
        alloc: Global,
        bytes: &[u8],
        now: jiff::Timestamp,
    ) -> Result<(), Error>
        ensures updates { let crypto = crypto_in C.CryptoProvider M.Armor self.old in
            UpdatesSet (update_timestamp_of crypto self.old.documents bytes.now (Some now)) crypto self.old.documents self.new.documents result }
        ensures judges { SameJudges self.old self.new }
    {
        update_copied(
            alloc,
            &self.providers,
            &mut self.documents,
            Kind::Timestamp,
            bytes,
            Some(now),
        )
    }

    /// Puts the snapshot of these bytes in force, and drops the targets documents. Errors: `Malformed` without a
    /// timestamp, `Expired` of it, `Malformed` where it pins no snapshot, `IntegrityMismatch`, those of a
    /// document, `UnknownRole`, those of a threshold, `IntegrityMismatch` for the version, then pin by pin for
    /// one that vanished or `Rollback`, then `Expired`; all stays as it was.
    pub fn update_snapshot(
        &mut self,
        alloc: Global,
        bytes: &[u8],
        now: jiff::Timestamp,
    ) -> Result<(), Error>
        ensures updates { let crypto = crypto_in C.CryptoProvider M.Armor self.old in
            UpdatesSet (update_snapshot_of crypto self.old.documents bytes.now (Some now)) crypto self.old.documents self.new.documents result }
        ensures judges { SameJudges self.old self.new }
    {
        update_copied(
            alloc,
            &self.providers,
            &mut self.documents,
            Kind::Snapshot,
            bytes,
            Some(now),
        )
    }

    /// Puts the top-level targets document of these bytes in force. Errors: `Malformed` without a snapshot,
    /// `Expired` of it, `Malformed` where it pins no targets document, `IntegrityMismatch`, those of a document,
    /// `IntegrityMismatch` for the version, `UnknownRole`, those of a threshold, then `Expired`; all stays as it
    /// was.
    pub fn update_targets(
        &mut self,
        alloc: Global,
        bytes: &[u8],
        now: jiff::Timestamp,
    ) -> Result<(), Error>
        ensures updates { let crypto = crypto_in C.CryptoProvider M.Armor self.old in
            UpdatesSet (update_targets_of crypto self.old.documents bytes.now (Some now)) crypto self.old.documents self.new.documents result }
        ensures judges { SameJudges self.old self.new }
    {
        update_copied(
            alloc,
            &self.providers,
            &mut self.documents,
            Kind::Targets,
            bytes,
            Some(now),
        )
    }

    /// Puts the document of a delegated role in force, by the first delegation of its name in the document of its
    /// delegator (TUF specification, section 5.6.7). Errors: `Malformed` for a top-level name, `UnknownRole` for
    /// the delegator, `Malformed` where it delegates to none, `UnknownRole` where not to this role; then
    /// `Malformed` without a snapshot, `Expired` of it, `Malformed` where it doesn't pin the role,
    /// `IntegrityMismatch`, those of a document, `IntegrityMismatch` for the version, those of a threshold, then
    /// `Expired`; all stays as it was.
    pub fn update_delegated_targets(
        &mut self,
        alloc: Global,
        bytes: &[u8],
        role: &str,
        delegator: &str,
        now: jiff::Timestamp,
    ) -> Result<(), Error>
        ensures updates { let crypto = crypto_in C.CryptoProvider M.Armor self.old in
            UpdatesSet (update_role_of crypto self.old.documents (by delegator.now role.now) bytes.now (Some now)) crypto
            self.old.documents self.new.documents result }
        ensures judges { SameJudges self.old self.new }
    {
        match Visit::new(alloc, role, delegator) {
            Ok(visit) => update_role_copied(
                alloc,
                &self.providers,
                &mut self.documents,
                &visit,
                bytes,
                Some(now),
            ),
            Err(e) => Err(Error::from(e)),
        }
    }

    /// The document in force of a delegated role, where it serves at a moment by what the document of its
    /// delegator says now. Errors: those of the delegation as in `update_delegated_targets`, `UnknownRole` where
    /// the role has no document in force, those of a threshold, then `Expired`.
    pub fn verify_delegated_targets(
        &self,
        alloc: Global,
        role: &str,
        delegator: &str,
        now: jiff::Timestamp,
    ) -> Result<&Targets, Error>
        ensures ok { IfOk result (λ targets.
            role_serves_of (crypto_in C.CryptoProvider M.Armor self.now) self.now.documents (by delegator.now role.now) now ≡ Ok tt) }
        ensures same { IfOk result (λ targets. option_map content_of (at_name role.now self.now.documents.targets) ≡ Some targets.now) }
        ensures err { IfErr result (λ e. e ≢ Error.NoMemory →
            role_serves_of (crypto_in C.CryptoProvider M.Armor self.now) self.now.documents (by delegator.now role.now) now ≡ Err e) }
    {
        match Visit::new(alloc, role, delegator) {
            Ok(visit) => match serving_role(alloc, &self.providers, &self.documents, &visit, now) {
                Ok(held) => Ok(held.document.signed()),
                Err(e) => Err(e),
            },
            Err(e) => Err(Error::from(e)),
        }
    }
}
