// The client's calls over an owned set of documents, and a lent repository and store.
ghost use Rattle.std.specs.Prelude.{◌≡◌, ◌≢◌, Ok, Err, IfOk, IfErr};
ghost use Rattle.foundation.specs.Watched.{Watched};
ghost use Rattle.sigstore_tuf_outside.specs.Repository.{Folders};
ghost use Rattle.sigstore_tuf_runs.specs.State.{state_of, session_of};
ghost use Rattle.sigstore_tuf_rules.specs.Authorised.{IsAuthorised, crypto_in, SameJudges};
ghost use Rattle.sigstore_tuf_runs.specs.Promises.{Attached, Refreshed, Informed, Got};

use crate::trusted::TrustedMetadataSet;
use foundation::Duplicate;
use sigstore_keys::{CryptoProvider, Providers};
use sigstore_tuf_client::{attach, find_chain, find_info, run_steps};
use sigstore_tuf_outside::{MetadataStore, Repository};
use sigstore_tuf_parts::{Error, TargetFile};
use sigstore_tuf_rules::{Kind, TrustChain, UpdaterConfig};
use sigstore_tuf_runs::{Session, Step};
use sigstore_types_parts::Armor;
use std::alloc::Global;

/// Begins with a store: adopts its next roots, as long as each is accepted, and writes the root then in force.
/// Errors: `NoMemory`.
pub fn attach_parts<C: CryptoProvider, M: Armor, S: MetadataStore>(
    alloc: Global,
    set: &mut TrustedMetadataSet<'_, C, M>,
    store: &mut S,
) -> Result<(), Error>
    ensures attached { (repo : Watched Folders) → Attached (crypto_in C.CryptoProvider M.Armor set.old) (state_of set.old.documents repo (S.seen store.old))
        (state_of set.new.documents repo (S.seen store.new)) result }
    ensures judges { SameJudges set.old set.new }
    ensures authorised { IsAuthorised (crypto_in C.CryptoProvider M.Armor set.new) set.new.documents }
{
    attach(alloc, &set.providers, &mut set.documents, store)
}

/// Brings the documents in force up to date at a moment: next roots of the repository; then what the store has
/// of a timestamp, a snapshot and a targets document, each where none is in force; then those of the
/// repository, each unless the one in force serves. What is adopted is written to the store. After Ok the
/// repository has no next root, and its timestamp is of the version in force. Errors are those of the first
/// step that refuses; what was adopted before it stays in force, and a fault of the store is none.
pub fn refresh_parts<C: CryptoProvider, M: Armor, R: Repository, S: MetadataStore>(
    alloc: Global,
    set: &mut TrustedMetadataSet<'_, C, M>,
    repo: &mut R,
    store: &mut S,
    config: &UpdaterConfig,
    now: jiff::Timestamp,
) -> Result<(), Error>
    ensures refreshed { Refreshed (session_of (crypto_in C.CryptoProvider M.Armor set.old) config.now now) (state_of set.old.documents (R.seen repo.old) (S.seen store.old))
        (state_of set.new.documents (R.seen repo.new) (S.seen store.new)) result }
    ensures judges { SameJudges set.old set.new }
    ensures authorised { IsAuthorised (crypto_in C.CryptoProvider M.Armor set.new) set.new.documents }
{
    let session = Session {
        providers: Providers {
            provider: set.providers.provider,
            armor: set.providers.armor,
        },
        config,
        moment: now,
    };
    run_steps(
        alloc,
        &session,
        &mut set.documents,
        repo,
        store,
        &[
            Step::WalkRoots,
            Step::CheckRoot,
            Step::Seed(Kind::Timestamp),
            Step::Seed(Kind::Snapshot),
            Step::Seed(Kind::Targets),
            Step::Fetch(Kind::Timestamp),
            Step::CheckTimestamp,
            Step::Fetch(Kind::Snapshot),
            Step::CheckSnapshot,
            Step::Fetch(Kind::Targets),
        ],
    )
}

/// What the documents in force list of a target at a moment, after those of the delegated roles that the search
/// reads were fetched; None where none lists it.
pub(crate) fn target_info<C: CryptoProvider, M: Armor, R: Repository, S: MetadataStore>(
    alloc: Global,
    set: &mut TrustedMetadataSet<'_, C, M>,
    repo: &mut R,
    store: &mut S,
    config: &UpdaterConfig,
    path: &str,
    now: jiff::Timestamp,
) -> Result<Option<TargetFile>, Error>
    ensures informed { Informed (session_of (crypto_in C.CryptoProvider M.Armor set.old) config.now now) path.now (state_of set.old.documents (R.seen repo.old) (S.seen store.old))
        (state_of set.new.documents (R.seen repo.new) (S.seen store.new)) result }
    ensures judges { SameJudges set.old set.new }
    ensures authorised { IsAuthorised (crypto_in C.CryptoProvider M.Armor set.new) set.new.documents }
{
    let session = Session {
        providers: Providers {
            provider: set.providers.provider,
            armor: set.providers.armor,
        },
        config,
        moment: now,
    };
    find_info(alloc, &session, &mut set.documents, repo, store, path)
}

/// Finds a target at a moment, and gives the chain of documents by which it is trusted, with its file: the
/// store's where it is the listed one, else the repository's, which is then written to the store. Errors, in
/// this order: `Expired` of root, timestamp and snapshot, `NotRefreshed`, `Expired` of the targets document,
/// `IntegrityMismatch(Version)`, those of the roles that the search comes to and `Malformed(Pattern)`,
/// `TargetNotFound`, `IntegrityMismatch(TooLong)`,
/// `IntegrityMismatch(NoDigest)` where the file's name needs a digest and there is none, then those of the
/// fetch and of the file's length and digests.
pub fn get_target_parts<C: CryptoProvider, M: Armor, R: Repository, S: MetadataStore>(
    alloc: Global,
    set: &mut TrustedMetadataSet<'_, C, M>,
    repo: &mut R,
    store: &mut S,
    config: &UpdaterConfig,
    path: &str,
    now: jiff::Timestamp,
) -> Result<TrustChain, Error>
    ensures got { Got (session_of (crypto_in C.CryptoProvider M.Armor set.old) config.now now) path.now (state_of set.old.documents (R.seen repo.old) (S.seen store.old))
        (state_of set.new.documents (R.seen repo.new) (S.seen store.new)) result }
    ensures judges { SameJudges set.old set.new }
    ensures authorised { IsAuthorised (crypto_in C.CryptoProvider M.Armor set.new) set.new.documents }
{
    let session = Session {
        providers: Providers {
            provider: set.providers.provider,
            armor: set.providers.armor,
        },
        config,
        moment: now,
    };
    find_chain(alloc, &session, &mut set.documents, repo, store, path)
}
