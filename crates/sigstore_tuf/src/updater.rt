// The client over a lent repository.
ghost use Rattle.std.specs.Prelude.{◌≡◌, ◌≢◌, Some, None, Ok, Err, IfOk, IfErr, OnOk, OnErr, option_map, option_copied};
ghost use Rattle.foundation.specs.Watched.{Watched};
ghost use Rattle.sigstore_keys.specs.Crypto.{crypto_by};
ghost use Rattle.sigstore_tuf_rules.specs.Config.{default_config};
ghost use Rattle.sigstore_tuf_outside.specs.Repository.{Folders};
ghost use Rattle.sigstore_tuf_rules.specs.Update.{first_root_of};
ghost use Rattle.sigstore_tuf_runs.specs.State.{state_of, session_of};
ghost use Rattle.sigstore_tuf_rules.specs.Authorised.{IsAuthorised, crypto_in, SameJudges};
ghost use Rattle.sigstore_tuf_runs.specs.Promises.{Attached, Refreshed, Informed, Got};
ghost use Rattle.sigstore_tuf_runs.specs.Run.{said};
ghost use Rattle.sigstore_tuf_runs.specs.Carried.{CarriesFloor};
ghost use Rattle.sigstore_tuf_rules.specs.Names.{is_consistent};
ghost use Rattle.sigstore_tuf_runs.specs.Target.{Recalls, Downloads};
ghost use Rattle.sigstore_tuf.specs.Updater.{SameOption, option_seen, GivesFile};

use crate::parts::{attach_parts, get_target_parts, refresh_parts, target_info};
use crate::trusted::TrustedMetadataSet;
use foundation::{Duplicate, NoMemory};
use sigstore_keys::CryptoProvider;
use sigstore_tuf_client::{Wanted, download, recall_target};
use sigstore_tuf_outside::{MetadataStore, NoStore, Repository};
use sigstore_tuf_parts::{Error, TargetFile};
use sigstore_tuf_rules::{TrustChain, UpdaterConfig};
use sigstore_types_parts::{Armor, Bytes};
use std::alloc::Global;
use std::mem;

// What a search is asked: its limits, the path, and the moment.
#[derive(Drop)]
pub(crate) struct Asked<'a> {
    config: &'a UpdaterConfig,
    path: &'a str,
    moment: jiff::Timestamp,
}

// A refresh over the store that is there, or over none.
fn refresh_held<C: CryptoProvider, M: Armor, R: Repository, S: MetadataStore>(
    alloc: Global,
    set: &mut TrustedMetadataSet<'_, C, M>,
    repo: &mut R,
    store: &mut Option<&mut S>,
    config: &UpdaterConfig,
    now: jiff::Timestamp,
) -> Result<(), Error>
    ensures same_store { SameOption store.old store.new }
    ensures refreshed { Refreshed (session_of (crypto_in C.CryptoProvider M.Armor set.old) config.now now)
        (state_of set.old.documents (R.seen repo.old) (option_seen S.seen store.old))
        (state_of set.new.documents (R.seen repo.new) (option_seen S.seen store.new)) result }
    ensures judges { SameJudges set.old set.new }
    ensures authorised { IsAuthorised (crypto_in C.CryptoProvider M.Armor set.new) set.new.documents }
{
    match store {
        Some(store) => refresh_parts(alloc, set, repo, *store, config, now),
        None => refresh_parts(alloc, set, repo, &mut NoStore, config, now),
    }
}

// A search for an entry over the store that is there, or over none.
fn info_held<C: CryptoProvider, M: Armor, R: Repository, S: MetadataStore>(
    alloc: Global,
    set: &mut TrustedMetadataSet<'_, C, M>,
    repo: &mut R,
    store: &mut Option<&mut S>,
    asked: &Asked<'_>,
) -> Result<Option<TargetFile>, Error>
    ensures same_store { SameOption store.old store.new }
    ensures informed { Informed (session_of (crypto_in C.CryptoProvider M.Armor set.old) asked.now.config.now asked.now.moment) asked.now.path.now
        (state_of set.old.documents (R.seen repo.old) (option_seen S.seen store.old))
        (state_of set.new.documents (R.seen repo.new) (option_seen S.seen store.new)) result }
    ensures judges { SameJudges set.old set.new }
    ensures authorised { IsAuthorised (crypto_in C.CryptoProvider M.Armor set.new) set.new.documents }
{
    let (config, path, now) = (asked.config, asked.path, asked.moment);
    match store {
        Some(store) => target_info(alloc, set, repo, *store, config, path, now),
        None => target_info(alloc, set, repo, &mut NoStore, config, path, now),
    }
}

// A search over the store that is there, or over none.
fn get_target_held<C: CryptoProvider, M: Armor, R: Repository, S: MetadataStore>(
    alloc: Global,
    set: &mut TrustedMetadataSet<'_, C, M>,
    repo: &mut R,
    store: &mut Option<&mut S>,
    asked: &Asked<'_>,
) -> Result<TrustChain, Error>
    ensures same_store { SameOption store.old store.new }
    ensures got { Got (session_of (crypto_in C.CryptoProvider M.Armor set.old) asked.now.config.now asked.now.moment) asked.now.path.now
        (state_of set.old.documents (R.seen repo.old) (option_seen S.seen store.old))
        (state_of set.new.documents (R.seen repo.new) (option_seen S.seen store.new)) result }
    ensures judges { SameJudges set.old set.new }
    ensures authorised { IsAuthorised (crypto_in C.CryptoProvider M.Armor set.new) set.new.documents }
{
    let (config, path, now) = (asked.config, asked.path, asked.moment);
    match store {
        Some(store) => get_target_parts(alloc, set, repo, *store, config, path, now),
        None => get_target_parts(alloc, set, repo, &mut NoStore, config, path, now),
    }
}

// A target's file in the store that is there.
fn recall_held<S: MetadataStore>(
    alloc: Global,
    store: &mut Option<&mut S>,
    target: &TargetFile,
    path: &str,
) -> Result<Option<Bytes>, Error>
    ensures same_store { SameOption store.old store.new }
    ensures recalls { Recalls target.now path.now (option_seen S.seen store.old) (option_seen S.seen store.new) result }
{
    match store {
        Some(store) => recall_target(alloc, *store, target, path),
        None => recall_target(alloc, &mut NoStore, target, path),
    }
}

// A target's file of the repository, written to the store that is there.
fn download_held<R: Repository, S: MetadataStore>(
    alloc: Global,
    wanted: &Wanted<'_>,
    repo: &mut R,
    store: &mut Option<&mut S>,
) -> Result<Bytes, Error>
    ensures same_store { SameOption store.old store.new }
    ensures downloads { Downloads wanted.now.consistent wanted.now.config.now wanted.now.entry.now wanted.now.path.now
        (R.seen repo.old) (R.seen repo.new) (option_seen S.seen store.old) (option_seen S.seen store.new) result }
{
    match store {
        Some(store) => download(alloc, wanted, repo, *store),
        None => download(alloc, wanted, repo, &mut NoStore),
    }
}

/// A client of one repository, from a root that is trusted as it is given (TUF specification,
/// section 5); its caller names the type of the store that it may be given.
#[derive(Drop)]
pub struct Updater<'a, C: CryptoProvider, M: Armor, R: Repository, S: MetadataStore> {
    set: TrustedMetadataSet<'a, C, M>,
    repo: &'a mut R,
    store: Option<&'a mut S>,
    config: UpdaterConfig,
    chain: Option<TrustChain>,
}

impl<'a, C: CryptoProvider, M: Armor, R: Repository, S: MetadataStore> Updater<'a, C, M, R, S> {
    /// A client under the default limits, without a store. Errors are those of `TrustedMetadataSet::from_root`.
    pub fn new(
        alloc: Global,
        provider: &'a C,
        armor: &'a M,
        repo: &'a mut R,
        root_bytes: &[u8],
    ) -> Result<Updater<'a, C, M, R, S>, Error>
        ensures set { IfOk result (λ u.
            first_root_of (crypto_by C.CryptoProvider M.Armor provider.now armor.now) root_bytes.now ≡ Ok u.set.documents) }
        ensures judges { IfOk result (λ u. (u.set.provider ≡ provider.now) × (u.set.armor ≡ armor.now)) }
        ensures authorised { IfOk result (λ u.
            IsAuthorised (crypto_by C.CryptoProvider M.Armor provider.now armor.now) u.set.documents) }
        ensures repo { IfOk result (λ u. u.repo.now ≡ repo.old) }
        ensures same_repo { IfOk result (λ u. u.repo.ghost_name ≡ repo.entry.ghost_name) }
        ensures store { IfOk result (λ u. u.store ≡ None) }
        ensures config { IfOk result (λ u. u.config ≡ default_config) }
        ensures chain { IfOk result (λ u. u.chain ≡ None) }
        ensures err { IfErr result (λ e. e ≢ Error.NoMemory →
            first_root_of (crypto_by C.CryptoProvider M.Armor provider.now armor.now) root_bytes.now ≡ Err e) }
    {
        match TrustedMetadataSet::from_root(alloc, provider, armor, root_bytes) {
            Ok(set) => Ok(Updater {
                set,
                repo,
                store: None,
                config: UpdaterConfig::default(),
                chain: None,
            }),
            Err(e) => Err(e),
        }
    }

    /// The same client under these limits.
    pub fn with_config(self, config: UpdaterConfig) -> Updater<'a, C, M, R, S>
        ensures set { result.set ≡ self.entry.set }
        ensures repo { result.repo ≡ self.entry.repo }
        ensures store { result.store ≡ self.entry.store }
        ensures config { result.config ≡ config }
        ensures chain { result.chain ≡ self.entry.chain }
    {
        let Updater {
            set,
            repo,
            store,
            config: _,
            chain,
        } = self;
        Updater {
            set,
            repo,
            store,
            config,
            chain,
        }
    }

    /// The same client with a store: its next roots are adopted, as long as each is accepted, and the root then
    /// in force is written. Errors: `NoMemory`; then the client is dropped, and the store is its owner's again.
    pub fn with_store(
        self,
        alloc: Global,
        store: &'a mut S,
    ) -> Result<Updater<'a, C, M, R, S>, Error>
        ensures attached { IfOk result (λ u. (repo : Watched Folders) → Attached (crypto_in C.CryptoProvider M.Armor self.entry.set)
            (state_of self.entry.set.documents repo (S.seen store.old))
            (state_of u.set.documents repo (option_seen S.seen u.store)) (Ok tt)) }
        ensures judges { IfOk result (λ u. SameJudges self.entry.set u.set) }
        ensures authorised { IfOk result (λ u. IsAuthorised (crypto_in C.CryptoProvider M.Armor u.set) u.set.documents) }
        ensures repo { IfOk result (λ u. u.repo ≡ self.entry.repo) }
        ensures same_store { IfOk result (λ u. option_map (λ b. b.ghost_name) u.store ≡ Some store.entry.ghost_name) }
        ensures config { IfOk result (λ u. u.config ≡ self.entry.config) }
        ensures chain { IfOk result (λ u. u.chain ≡ self.entry.chain) }
        ensures err { IfErr result (λ e. e ≡ Error.NoMemory) }
    {
        let Updater {
            mut set,
            repo,
            store: _,
            config,
            chain,
        } = self;
        match attach_parts(alloc, &mut set, store) {
            Ok(()) => Ok(Updater {
                set,
                repo,
                store: Some(store),
                config,
                chain,
            }),
            Err(e) => {
                drop(set);
                drop(chain);
                Err(e)
            }
        }
    }

    /// The documents in force.
    pub fn trusted(&self) -> &TrustedMetadataSet<'a, C, M>
        ensures { result.now ≡ self.now.set }
    {
        &self.set
    }

    /// Brings the documents in force up to date at a moment, as `refresh_parts` does. Errors are those of the
    /// first step that refuses; the documents that were adopted before it stay in force.
    pub fn refresh(&mut self, alloc: Global, now: jiff::Timestamp) -> Result<(), Error>
        ensures same_repo { self.new.repo.ghost_name ≡ self.old.repo.ghost_name }
        ensures same_store { SameOption self.old.store self.new.store }
        ensures refreshed { Refreshed (session_of (crypto_in C.CryptoProvider M.Armor self.old.set) self.old.config now)
            (state_of self.old.set.documents (R.seen self.old.repo.now) (option_seen S.seen self.old.store))
            (state_of self.new.set.documents (R.seen self.new.repo.now) (option_seen S.seen self.new.store)) result }
        ensures authorised { IsAuthorised (crypto_in C.CryptoProvider M.Armor self.new.set) self.new.set.documents }
        ensures judges { SameJudges self.old.set self.new.set }
        ensures same { (self.new.config ≡ self.old.config) × (self.new.chain ≡ self.old.chain) }
    {
        refresh_held(
            alloc,
            &mut self.set,
            self.repo,
            &mut self.store,
            &self.config,
            now,
        )
    }

    /// What is listed of a target at a moment, by the last role of the search over the delegated ones (TUF
    /// specification, section 5.6.7), whose documents are fetched on the way; None where that one doesn't list
    /// it. Errors, in this order: `Expired` of root, timestamp and snapshot, `NotRefreshed`, `Expired` of the
    /// targets document, `IntegrityMismatch(Version)`; then of each role that the search comes to those of its
    /// fetch, its pin, its signatures and its expiry, and `Malformed(Pattern)`. What was adopted before stays.
    pub fn get_target_info(
        &mut self,
        alloc: Global,
        path: &str,
        now: jiff::Timestamp,
    ) -> Result<Option<TargetFile>, Error>
        ensures same_repo { self.new.repo.ghost_name ≡ self.old.repo.ghost_name }
        ensures same_store { SameOption self.old.store self.new.store }
        ensures informed { Informed (session_of (crypto_in C.CryptoProvider M.Armor self.old.set) self.old.config now) path.now
            (state_of self.old.set.documents (R.seen self.old.repo.now) (option_seen S.seen self.old.store))
            (state_of self.new.set.documents (R.seen self.new.repo.now) (option_seen S.seen self.new.store)) result }
        ensures authorised { IsAuthorised (crypto_in C.CryptoProvider M.Armor self.new.set) self.new.set.documents }
        ensures judges { SameJudges self.old.set self.new.set }
        ensures same { (self.new.config ≡ self.old.config) × (self.new.chain ≡ self.old.chain) }
    {
        let asked = Asked {
            config: &self.config,
            path,
            moment: now,
        };
        info_held(alloc, &mut self.set, self.repo, &mut self.store, &asked)
    }

    /// The store's file of a target, where it is the listed one by its length and digests; None too where there
    /// is no store, or where its call fails. Errors: `NoMemory`.
    pub fn find_cached_target(
        &mut self,
        alloc: Global,
        target: &TargetFile,
        path: &str,
    ) -> Result<Option<Bytes>, Error>
        ensures same_store { SameOption self.old.store self.new.store }
        ensures recalls { Recalls target.now path.now (option_seen S.seen self.old.store) (option_seen S.seen self.new.store) result }
        ensures carries { CarriesFloor (crypto_in C.CryptoProvider M.Armor self.old.set)
            (state_of self.old.set.documents (R.seen self.old.repo.now) (option_seen S.seen self.old.store))
            (state_of self.new.set.documents (R.seen self.new.repo.now) (option_seen S.seen self.new.store)) (said result) }
        ensures err { IfErr result (λ e. e ≡ Error.NoMemory) }
        ensures same { (self.new.set ≡ self.old.set) × (self.new.repo ≡ self.old.repo)
            × (self.new.config ≡ self.old.config) × (self.new.chain ≡ self.old.chain) }
    {
        recall_held(alloc, &mut self.store, target, path)
    }

    /// The repository's file of a target, which is then written to the store; where the root in force has
    /// consistent names, the file's name has its digest. Errors, in this order: `IntegrityMismatch(TooLong)`
    /// where the listed length is above the limit, `IntegrityMismatch(NoDigest)` where the name has none, those
    /// of the fetch, then `IntegrityMismatch` of the file's length and digests.
    pub fn download_target(
        &mut self,
        alloc: Global,
        target: &TargetFile,
        path: &str,
    ) -> Result<Bytes, Error>
        ensures same_repo { self.new.repo.ghost_name ≡ self.old.repo.ghost_name }
        ensures same_store { SameOption self.old.store self.new.store }
        ensures downloads { Downloads (is_consistent self.old.set.documents) self.old.config target.now path.now (R.seen self.old.repo.now) (R.seen self.new.repo.now)
            (option_seen S.seen self.old.store) (option_seen S.seen self.new.store) result }
        ensures carries { CarriesFloor (crypto_in C.CryptoProvider M.Armor self.old.set)
            (state_of self.old.set.documents (R.seen self.old.repo.now) (option_seen S.seen self.old.store))
            (state_of self.new.set.documents (R.seen self.new.repo.now) (option_seen S.seen self.new.store)) (said result) }
        ensures same { (self.new.set ≡ self.old.set)
            × (self.new.config ≡ self.old.config) × (self.new.chain ≡ self.old.chain) }
    {
        let wanted = Wanted {
            consistent: self.set.root().consistent_snapshot,
            config: &self.config,
            entry: target,
            path,
        };
        download_held(alloc, &wanted, self.repo, &mut self.store)
    }

    /// The file of a target, which `chain` then explains: the store's where it is the listed one, else the
    /// repository's. Errors, in this order: those of `get_target_info`, `TargetNotFound`, then those of
    /// `download_target`.
    pub fn get_target(
        &mut self,
        alloc: Global,
        path: &str,
        now: jiff::Timestamp,
    ) -> Result<Bytes, Error>
        ensures same_repo { self.new.repo.ghost_name ≡ self.old.repo.ghost_name }
        ensures same_store { SameOption self.old.store self.new.store }
        ensures gives { GivesFile (session_of (crypto_in C.CryptoProvider M.Armor self.old.set) self.old.config now) path.now
            (state_of self.old.set.documents (R.seen self.old.repo.now) (option_seen S.seen self.old.store))
            (state_of self.new.set.documents (R.seen self.new.repo.now) (option_seen S.seen self.new.store)) self.new.chain result }
        ensures carries { CarriesFloor (crypto_in C.CryptoProvider M.Armor self.old.set)
            (state_of self.old.set.documents (R.seen self.old.repo.now) (option_seen S.seen self.old.store))
            (state_of self.new.set.documents (R.seen self.new.repo.now) (option_seen S.seen self.new.store)) (said result) }
        ensures kept { OnErr result (self.new.chain ≡ self.old.chain) }
        ensures judges { SameJudges self.old.set self.new.set }
        ensures authorised { IsAuthorised (crypto_in C.CryptoProvider M.Armor self.new.set) self.new.set.documents }
        ensures same { self.new.config ≡ self.old.config }
    {
        let asked = Asked {
            config: &self.config,
            path,
            moment: now,
        };
        match get_target_held(alloc, &mut self.set, self.repo, &mut self.store, &asked) {
            Ok(chain) => match chain.file.duplicate(alloc) {
                Ok(file) => {
                    drop(mem::replace(&mut self.chain, Some(chain)));
                    Ok(file)
                }
                Err(_) => {
                    drop(chain);
                    Err(Error::NoMemory)
                }
            },
            Err(e) => Err(e),
        }
    }

    /// The chain of the last `get_target` that answered Ok; none where none did.
    pub fn chain(&self, alloc: Global) -> Result<Option<TrustChain>, NoMemory>
        ensures { IfOk result (λ chain. chain ≡ self.now.chain) }
    {
        self.chain.duplicate(alloc)
    }
}
