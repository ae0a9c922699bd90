// The judgement of an archive.
ghost use Rattle.std.specs.Prelude.{◌≡◌, ◌≢◌, Ok, Err, IfOk, IfErr};
ghost use Rattle.sigstore_keys.specs.Crypto.{crypto_with};
ghost use Rattle.trust_archive.specs.Judgement.{roles_of, begun, file_of, with_file_of, judged_of, chain_of};
ghost use Rattle.trust_archive.specs.Archive.{IsArchive};
ghost use Rattle.trust_archive.specs.Cause.{ArchiveCause};

use crate::archive::Archive;
use crate::error::ArchiveError;
use crate::reading::archive_in;
use crate::roles::visits;
use crate::top::top;
use sigstore_keys::{CryptoProvider, Providers};
use sigstore_tuf_parts::{TargetFile, check_integrity};
use sigstore_tuf_rules::{InForce, TrustChain};
use sigstore_types_parts::Armor;
use std::alloc::Global;

/// By what an archive is judged: the root that is pinned, the path of the target, how many roles are visited at most, and the
/// moment.
#[derive(Drop)]
pub struct ArchiveTerms<'t> {
    pub root: &'t [u8],
    pub path: &'t str,
    pub max_delegations: u32,
    pub moment: jiff::Timestamp,
}

// The file is the one that is listed.
#[tactic(auto, unfolding(crate::specs::Judgement::file_of))]
fn check_file(target: &TargetFile, bytes: &[u8]) -> Result<(), ArchiveError>
    ensures { result ≡ file_of target.now bytes.now }
{
    match check_integrity(Some(target.length), Some(&target.hashes), bytes) {
        Ok(()) => Ok(()),
        Err(_) => Err(ArchiveError::File),
    }
}

// The same of a target that was found.
fn with_file(
    found: Result<TargetFile, ArchiveError>,
    bytes: &[u8],
) -> Result<TargetFile, ArchiveError>
    ensures { result ≡ with_file_of bytes.now found }
{
    match found {
        Ok(target) => match check_file(&target, bytes) {
            Ok(()) => Ok(target),
            Err(e) => {
                drop(target);
                Err(e)
            }
        },
        Err(e) => Err(e),
    }
}

// The target, under the documents in force before the roles.
fn target_under<C: CryptoProvider, M: Armor>(
    alloc: Global,
    providers: &Providers<'_, C, M>,
    terms: &ArchiveTerms<'_>,
    documents: &mut InForce,
    archive: &Archive,
) -> Result<TargetFile, ArchiveError>
    ensures ok { IfOk result (λ target. with_file_of archive.now.file (roles_of (crypto_with C.CryptoProvider M.Armor providers.now)
        terms.now.moment terms.now.path.now 0 archive.now.roles (begun documents.old terms.now.max_delegations)) ≡ Ok target) }
    ensures err { IfErr result (λ e. e ≢ ArchiveError.NoMemory →
        with_file_of archive.now.file (roles_of (crypto_with C.CryptoProvider M.Armor providers.now)
        terms.now.moment terms.now.path.now 0 archive.now.roles (begun documents.old terms.now.max_delegations)) ≡ Err e) }
{
    let found = visits(alloc, providers, terms, documents, archive.roles.as_slice());
    with_file(found, archive.file.as_bytes())
}

// The target that an archive is of.
#[tactic(auto, unfolding(crate::specs::Judgement::judged_of))]
fn target_of<C: CryptoProvider, M: Armor>(
    alloc: Global,
    providers: &Providers<'_, C, M>,
    terms: &ArchiveTerms<'_>,
    archive: &Archive,
) -> Result<TargetFile, ArchiveError>
    ensures ok { IfOk result (λ target. judged_of (crypto_with C.CryptoProvider M.Armor providers.now)
        terms.now.root.now terms.now.moment terms.now.max_delegations terms.now.path.now archive.now ≡ Ok target) }
    ensures err { IfErr result (λ e. e ≢ ArchiveError.NoMemory → judged_of (crypto_with C.CryptoProvider M.Armor providers.now)
        terms.now.root.now terms.now.moment terms.now.max_delegations terms.now.path.now archive.now ≡ Err e) }
{
    let mut documents = top(alloc, providers, terms.root, terms.moment, archive)?;
    let found = target_under(alloc, providers, terms, &mut documents, archive);
    drop(documents);
    found
}

// The chain, by the definition of the judgement.
#[tactic(auto, unfolding(crate::specs::Judgement::chain_of))]
fn judged_chain<C: CryptoProvider, M: Armor>(
    alloc: Global,
    providers: &Providers<'_, C, M>,
    terms: &ArchiveTerms<'_>,
    bytes: &[u8],
) -> Result<TrustChain, ArchiveError>
    ensures ok { IfOk result (λ chain. chain_of (crypto_with C.CryptoProvider M.Armor providers.now)
        terms.now.root.now terms.now.moment terms.now.max_delegations terms.now.path.now bytes.now ≡ Ok chain) }
    ensures err { IfErr result (λ e. e ≢ ArchiveError.NoMemory → chain_of (crypto_with C.CryptoProvider M.Armor providers.now)
        terms.now.root.now terms.now.moment terms.now.max_delegations terms.now.path.now bytes.now ≡ Err e) }
{
    let archive = archive_in(alloc, bytes)?;
    match target_of(alloc, providers, terms, &archive) {
        Ok(target) => Ok(archive.into_chain(target)),
        Err(e) => {
            drop(archive);
            Err(e)
        }
    }
}

/// The chain that an archive holds, trusted for a root, a path, so many visits and a moment. Errors, the first that comes: `Format`,
/// `FirstRoot`, `Root`, `Timestamp`, `Snapshot`, for each role `Order` and then `Role`, `Order` at the end of the list, `File`.
pub fn read_archive<C: CryptoProvider, M: Armor>(
    alloc: Global,
    providers: &Providers<'_, C, M>,
    terms: &ArchiveTerms<'_>,
    bytes: &[u8],
) -> Result<TrustChain, ArchiveError>
    ensures ok { IfOk result (λ chain. chain_of (crypto_with C.CryptoProvider M.Armor providers.now)
        terms.now.root.now terms.now.moment terms.now.max_delegations terms.now.path.now bytes.now ≡ Ok chain) }
    ensures err { IfErr result (λ e. e ≢ ArchiveError.NoMemory → chain_of (crypto_with C.CryptoProvider M.Armor providers.now)
        terms.now.root.now terms.now.moment terms.now.max_delegations terms.now.path.now bytes.now ≡ Err e) }
    ensures cause { IfErr result (λ e. e ≢ ArchiveError.NoMemory → ArchiveCause (crypto_with C.CryptoProvider M.Armor providers.now)
        terms.now.root.now terms.now.moment terms.now.max_delegations terms.now.path.now bytes.now e) }
    ensures trusted { IfOk result (IsArchive (crypto_with C.CryptoProvider M.Armor providers.now)
        terms.now.root.now terms.now.moment terms.now.max_delegations terms.now.path.now bytes.now) }
    ensures refused { IfErr result (λ e. e ≢ ArchiveError.NoMemory → (chain : TrustChain)
        → IsArchive (crypto_with C.CryptoProvider M.Armor providers.now)
        terms.now.root.now terms.now.moment terms.now.max_delegations terms.now.path.now bytes.now chain → ⊥) }
{
    judged_chain(alloc, providers, terms, bytes)
}
