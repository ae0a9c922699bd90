// The log that has all bodies of a workload, and the bundle of each item.
ghost use Rattle.std.specs.Prelude.{◌≡◌, ◌≢◌, ◌∷◌, ◌<◌, ◌≤◌, ◌^◌, [], Ok, Err, string_bytes, IfOk, IfErr};
ghost use Rattle.sigstore_entries.specs.Entry.{checkpoint_data_of};
ghost use Rattle.workload.specs.Log.{signed_written, checkpoint_written, signed_text_of, checkpoint_text_of, IsLog, proof_of, entry_of, material_of, bundle_of};

use crate::drawn::Drawn;
use crate::keys::{in_base64, log_id};
use foundation::{Duplicate, NoMemory, Sequence};
use sigstore_entries::{
    CheckpointData, InclusionProof, KindVersion, LogId, LogIndex, TransparencyLogEntry,
};
use sigstore_types::{Bundle, VerificationMaterial, VerificationMaterialContent};
use sigstore_types_parts::{ByteString, Bytes, Sha256Hash, Text, TypesError};
use std::alloc::Global;

/// A log: how many entries it has, its root, and its checkpoint.
#[derive(Drop)]
pub struct Log {
    pub size: u64,
    pub root: Sha256Hash,
    pub checkpoint: CheckpointData,
}

// What a checkpoint signs.
fn signed_written(alloc: Global, size: u64, root: &str) -> Result<String, NoMemory>
    ensures { IfOk result (λ text. string_bytes text ≡ signed_written size root.now) }
{
    Ok(format!(in alloc; "log\n{size}\n{root}\n")?)
}

/// What the log signs of its tree.
pub fn signed_text(alloc: Global, size: u64, root: &Sha256Hash) -> Result<String, NoMemory>
    ensures { IfOk result (λ text. string_bytes text ≡ signed_text_of size root.now) }
{
    let root = in_base64(alloc, root.as_bytes())?;
    signed_written(alloc, size, root.as_str())
}

fn checkpoint_written(alloc: Global, signed: &str) -> Result<String, NoMemory>
    ensures { IfOk result (λ text. string_bytes text ≡ checkpoint_written signed.now) }
{
    Ok(format!(in alloc; "{signed}\n\u{2014} log BwcHB2M=\n")?)
}

fn checkpoint_text(alloc: Global, size: u64, root: &Sha256Hash) -> Result<Bytes, NoMemory>
    ensures { IfOk result (λ text. text ≡ checkpoint_text_of size root.now) }
{
    let signed = signed_text(alloc, size, root)?;
    let text = checkpoint_written(alloc, signed.as_str())?;
    Ok(Bytes::from_vec(text.into_bytes()))
}

// The checkpoint that a text is. (One that is none never comes here, and would be answered as want of memory.)
fn checkpoint(alloc: Global, text: Bytes) -> Result<CheckpointData, NoMemory>
    ensures { IfOk result (λ checkpoint. checkpoint_data_of text ≡ Ok checkpoint) }
{
    match CheckpointData::new(alloc, text) {
        Ok(checkpoint) => Ok(checkpoint),
        Err(_) => Err(NoMemory),
    }
}

impl Log {
    /// The log of a tree.
    pub fn new(alloc: Global, size: u64, root: Sha256Hash) -> Result<Log, NoMemory>
        ensures { IfOk result (IsLog size root) }
    {
        let text = checkpoint_text(alloc, size, &root)?;
        let checkpoint = checkpoint(alloc, text)?;
        Ok(Log {
            size,
            root,
            checkpoint,
        })
    }

    // That an entry is in the tree, by its path.
    fn proof(
        &self,
        alloc: Global,
        index: LogIndex,
        path: Sequence<Sha256Hash>,
    ) -> Result<InclusionProof, NoMemory>
        ensures { IfOk result (λ proof. proof ≡ proof_of self.now index path) }
    {
        let root_hash = self.root.duplicate(alloc)?;
        let checkpoint = self.checkpoint.duplicate(alloc)?;
        Ok(InclusionProof {
            log_index: index,
            root_hash,
            tree_size: self.size,
            hashes: path,
            checkpoint,
        })
    }

    // The entry of a place, with its path.
    fn entry(
        &self,
        alloc: Global,
        index: LogIndex,
        drawn: &Drawn,
        path: Sequence<Sha256Hash>,
    ) -> Result<TransparencyLogEntry, NoMemory>
        ensures { IfOk result (λ entry. entry ≡ entry_of self.now index drawn.now path) }
    {
        let inclusion_proof = Some(self.proof(alloc, index, path)?);
        let log_id = LogId {
            key_id: ByteString::new(log_id(alloc)?),
        };
        let canonicalized_body = drawn.body.duplicate(alloc)?;
        Ok(TransparencyLogEntry {
            log_index: index,
            log_id,
            kind_version: KindVersion::HashedRekordV002,
            integrated_time: None,
            inclusion_promise: None,
            inclusion_proof,
            canonicalized_body,
        })
    }
}

fn material(alloc: Global, entry: TransparencyLogEntry) -> Result<VerificationMaterial, NoMemory>
    ensures { IfOk result (λ material. material ≡ material_of entry) }
{
    let hint = Text::new(alloc, "k")?;
    let mut tlog_entries = Sequence::new(alloc);
    tlog_entries.push(entry)?;
    Ok(VerificationMaterial {
        content: VerificationMaterialContent::PublicKey { hint: Some(hint) },
        tlog_entries,
        rfc3161_timestamps: Sequence::new(alloc),
    })
}

/// The bundle of an item, by its place and its path.
pub fn bundle(
    alloc: Global,
    log: &Log,
    index: LogIndex,
    drawn: &Drawn,
    path: Sequence<Sha256Hash>,
) -> Result<Bundle, NoMemory>
    ensures { IfOk result (λ bundle. bundle ≡ bundle_of log.now index drawn.now path) }
{
    let entry = log.entry(alloc, index, drawn, path)?;
    let verification_material = material(alloc, entry)?;
    let media_type = Text::new(alloc, "application/vnd.dev.sigstore.bundle.v0.3+json")?;
    let content = drawn.content.duplicate(alloc)?;
    Ok(Bundle {
        media_type,
        content,
        verification_material,
    })
}
