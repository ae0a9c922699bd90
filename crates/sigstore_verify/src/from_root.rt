// The top call: from a pinned root down to one artifact.
ghost use Rattle.std.specs.Prelude.{◌≡◌};
ghost use Rattle.sigstore_verify.specs.FromRoot.{root_of_tuf, root_of_verify};
ghost use Rattle.sigstore_verify.specs.Inputs.{anchor_with, inputs_with, outside_by};
ghost use Rattle.sigstore_verify.specs.Promises.{Promises};

use crate::anchor::Anchor;
use crate::chain::chain_from_root;
use foundation::{Duplicate, NoMemory, Sequence};
use sigstore_judgement::{Asked, Error, JudgedBundle, Policy, VerificationResult, judge_bundle};
use sigstore_keys::{ArtifactSource, CryptoProvider};
use sigstore_tuf::{MetadataStore, Repository, TrustChain};
use sigstore_types_parts::{Armor, ArtifactDigest};
use std::alloc::Global;
use std::fmt;

/// An acceptance: the report, the chain of documents that authorises the trust file, and the digests of
/// the artifact that were taken.
#[derive(Drop)]
pub struct Acceptance {
    pub result: VerificationResult,
    pub chain: TrustChain,
    pub digests: Sequence<ArtifactDigest>,
}

impl Duplicate for Acceptance {
    fn duplicate(&self, alloc: Global) -> Result<Acceptance, NoMemory> {
        Ok(Acceptance {
            result: self.result.duplicate(alloc)?,
            chain: self.chain.duplicate(alloc)?,
            digests: self.digests.duplicate(alloc)?,
        })
    }
}

/// A refusal of the top call: of the chain of documents; of the bundle, with the chain whose file it was
/// judged under; or want of memory.
#[derive(Drop)]
pub enum RootFault {
    /// No chain of documents authorises a trust file; the artifact wasn't read.
    Tuf(sigstore_tuf_parts::Error),
    /// The bundle isn't accepted under the trust file of this chain, which is trusted from the root.
    Verify { fault: Error, chain: TrustChain },
    /// An allocation was refused; nothing is said of root, repository or bundle.
    NoMemory,
}

pub(crate) fn tuf_fault(e: sigstore_tuf_parts::Error) -> RootFault
    ensures { result ≡ root_of_tuf e }
{
    match e {
        sigstore_tuf_parts::Error::NoMemory => RootFault::NoMemory,
        e => RootFault::Tuf(e),
    }
}

pub(crate) fn verify_fault(fault: Error, chain: TrustChain) -> RootFault
    ensures { result ≡ root_of_verify fault chain }
{
    match fault {
        Error::NoMemory => {
            drop(chain);
            RootFault::NoMemory
        }
        fault => RootFault::Verify { fault, chain },
    }
}

/// Verifies a bundle over an artifact from a pinned TUF root: begins a client with that root and the
/// store's next ones, refreshes it, gets the target `trusted_root.json`, reads it as the trust file, reads
/// the bundle and verifies the artifact as it is read. Errors are those of the first of these that refuses:
/// `Tuf`, or `Verify` with the chain whose file the bundle was judged under. The store is a cache: nothing
/// that it has is believed unsigned, and a fault of it is none; after Ok, a store that had none has the
/// documents of the chain and the trust file.
pub fn verify_from_root<
    R: Repository,
    S: MetadataStore,
    A: ArtifactSource,
    P: Policy,
    C: CryptoProvider,
    M: Armor,
>(
    alloc: Global,
    anchor: &Anchor<'_, C, M>,
    repo: &mut R,
    store: &mut S,
    artifact: &mut A,
    asked: &Asked<'_, P>,
) -> Result<Acceptance, RootFault>
    ensures { Promises (inputs_with P.Policy (anchor_with C.CryptoProvider M.Armor anchor.entry.now) asked.now)
        (outside_by (R.seen repo.old) (S.seen store.old) (A.seen artifact.old))
        (outside_by (R.seen repo.new) (S.seen store.new) (A.seen artifact.new)) result }
{
    let chain = match chain_from_root(alloc, anchor, repo, store) {
        Ok(chain) => chain,
        Err(e) => return Err(tuf_fault(e)),
    };
    match judge_bundle(
        alloc,
        &anchor.providers,
        chain.file.as_bytes(),
        anchor.now,
        artifact,
        asked,
    ) {
        Ok(kept) => {
            let JudgedBundle { result, digests } = kept;
            Ok(Acceptance {
                result,
                chain,
                digests,
            })
        }
        Err(fault) => Err(verify_fault(fault, chain)),
    }
}

impl fmt::Display for RootFault {
    fn fmt<W: fmt::Write>(&self, f: &mut fmt::Formatter<W>) -> fmt::Result {
        f.write_str(match self {
            RootFault::Tuf(_) => "Tuf",
            RootFault::Verify { .. } => "Verify",
            RootFault::NoMemory => "NoMemory",
        })
    }
}
