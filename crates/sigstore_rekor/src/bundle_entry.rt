// Entries of a log's answers as bundles have them.
ghost use Rattle.std.specs.Prelude.{◌≡◌, ◌≢◌, Ok, Err, IfOk, IfErr};
ghost use Rattle.sigstore_rekor.specs.BundleEntry.{proof_of, optional_proof_of, proof_in, promise_in, bundle_entry_of};

use crate::log_entry::{LogEntry, RekorInclusionProof, Verification};
use foundation::{Duplicate, NoMemory};
use sigstore_entries::{CheckpointData, InclusionProof, KindVersion, LogId, TransparencyLogEntry};
use sigstore_types_parts::{Bytes, SignedTimestamp, TypesError};
use std::alloc::Global;

#[tactic(auto, unfolding(crate::specs::BundleEntry::proof_of))]
fn proof(alloc: Global, proof: &RekorInclusionProof) -> Result<InclusionProof, TypesError>
    ensures ok { IfOk result (λ p. proof_of proof.now ≡ Ok p) }
    ensures err { IfErr result (λ e. e ≢ TypesError.NoMemory → proof_of proof.now ≡ Err e) }
{
    let text = Bytes::new(alloc, proof.checkpoint.as_str().as_bytes())?;
    let checkpoint = CheckpointData::new(alloc, text)?;
    Ok(InclusionProof {
        log_index: proof.log_index,
        root_hash: proof.root_hash.duplicate(alloc)?,
        tree_size: proof.tree_size,
        hashes: proof.hashes.duplicate(alloc)?,
        checkpoint,
    })
}

fn optional_proof(
    alloc: Global,
    there: &Option<RekorInclusionProof>,
) -> Result<Option<InclusionProof>, TypesError>
    ensures ok { IfOk result (λ p. optional_proof_of there.now ≡ Ok p) }
    ensures err { IfErr result (λ e. e ≢ TypesError.NoMemory → optional_proof_of there.now ≡ Err e) }
{
    match there {
        Some(there) => Ok(Some(proof(alloc, there)?)),
        None => Ok(None),
    }
}

fn proof_in(
    alloc: Global,
    verification: &Option<Verification>,
) -> Result<Option<InclusionProof>, TypesError>
    ensures ok { IfOk result (λ p. proof_in verification.now ≡ Ok p) }
    ensures err { IfErr result (λ e. e ≢ TypesError.NoMemory → proof_in verification.now ≡ Err e) }
{
    match verification {
        Some(verification) => match optional_proof(alloc, &verification.inclusion_proof) {
            Ok(found) => Ok(found),
            Err(e) => Err(e),
        },
        None => Ok(None),
    }
}

fn promise_in(
    alloc: Global,
    verification: &Option<Verification>,
) -> Result<Option<SignedTimestamp>, NoMemory>
    ensures { IfOk result (λ p. p ≡ promise_in verification.now) }
{
    match verification {
        Some(verification) => Ok(verification.signed_entry_timestamp.duplicate(alloc)?),
        None => Ok(None),
    }
}

impl LogEntry {
    /// The entry as bundles have it, of this kind and version; nothing of it is verified. Errors: `Hex` where
    /// the log's id isn't hexadecimal, then `Checkpoint` where the checkpoint is neither the empty text nor a
    /// checkpoint.
    #[tactic(auto, unfolding(crate::specs::BundleEntry::bundle_entry_of))]
    pub fn to_bundle_entry(
        &self,
        alloc: Global,
        kind_version: KindVersion,
    ) -> Result<TransparencyLogEntry, TypesError>
        ensures ok { IfOk result (λ entry. bundle_entry_of self.now kind_version ≡ Ok entry) }
        ensures err { IfErr result (λ e. e ≢ TypesError.NoMemory → bundle_entry_of self.now kind_version ≡ Err e) }
    {
        let key_id = self.log_id.to_log_key_id(alloc)?;
        let inclusion_proof = proof_in(alloc, &self.verification)?;
        let inclusion_promise = promise_in(alloc, &self.verification)?;
        let canonicalized_body = self.body.duplicate(alloc)?;
        Ok(TransparencyLogEntry {
            log_index: self.log_index,
            log_id: LogId { key_id },
            kind_version,
            integrated_time: self.integrated_time,
            inclusion_promise,
            inclusion_proof,
            canonicalized_body,
        })
    }
}
