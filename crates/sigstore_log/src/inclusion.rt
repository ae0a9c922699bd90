// Whether an entry stands in the tree of a log.
ghost use Rattle.std.specs.Prelude.{◌≡◌, Ok, Err, Some, if◌then◌else◌, option_copied};
ghost use Rattle.sigstore_log.specs.declared.error.LogError.TheVariants as refusal;
ghost use Rattle.sigstore_log.specs.Inclusion.{stands_at, stands_in, place_told, place_signed, included_of};

use crate::error::LogError;
use sigstore_entries::{Checkpoint, InclusionProof, KindVersion, TransparencyLogEntry};
use sigstore_merkle::{hash_leaf, verify_inclusion_proof};
use sigstore_types_parts::Sha256Hash;

// Whether the leaf of an entry's body stands at this place.
fn stands_at(
    entry: &TransparencyLogEntry,
    hashes: &[Sha256Hash],
    index: u64,
    size: u64,
    root: &Sha256Hash,
) -> bool
    ensures { result ≡ stands_at entry.now.canonicalized_body hashes.now (record { index = index; size = size; root = root.now }) }
{
    let leaf = hash_leaf(entry.canonicalized_body.as_bytes());
    verify_inclusion_proof(&leaf, index, size, hashes, root).is_ok()
}

fn or_refused(stands: bool) -> Result<(), LogError>
    ensures { result ≡ (if stands then Ok tt else Err refusal.InclusionProof) }
{
    if stands {
        Ok(())
    } else {
        Err(LogError::InclusionProof)
    }
}

// By the place that the proof tells.
fn check_told(entry: &TransparencyLogEntry, proof: &InclusionProof) -> Result<(), LogError>
    ensures { result ≡ stands_in entry.now.canonicalized_body proof.now.hashes (Some (place_told proof.now)) }
{
    or_refused(stands_at(
        entry,
        proof.hashes.as_slice(),
        proof.log_index.get(),
        proof.tree_size,
        &proof.root_hash,
    ))
}

// By the entry's index in the checkpoint's tree.
fn check_signed(
    entry: &TransparencyLogEntry,
    proof: &InclusionProof,
    checkpoint: Option<&Checkpoint>,
) -> Result<(), LogError>
    ensures { result ≡ stands_in entry.now.canonicalized_body proof.now.hashes (place_signed entry.now (option_copied checkpoint.entry)) }
{
    match checkpoint {
        Some(checkpoint) => or_refused(stands_at(
            entry,
            proof.hashes.as_slice(),
            entry.log_index.get(),
            checkpoint.tree_size(),
            checkpoint.root_hash(),
        )),
        None => Err(LogError::Checkpoint),
    }
}

/// Whether an entry's body stands in the tree by a proof (RFC 6962, section 2.1.1). Errors: `Checkpoint` where a
/// checkpoint would have to name the place and there is none, else `InclusionProof`.
pub(crate) fn check_inclusion(
    entry: &TransparencyLogEntry,
    proof: &InclusionProof,
) -> Result<(), LogError>
    ensures { result ≡ included_of entry.now proof.now }
{
    match entry.kind_version {
        KindVersion::HashedRekordV002 => check_signed(entry, proof, proof.checkpoint.checkpoint()),
        _ => check_told(entry, proof),
    }
}
