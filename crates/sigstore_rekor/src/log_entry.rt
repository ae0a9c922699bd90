// Entries as the API of Rekor's first version tells them.
ghost use Rattle.std.specs.Prelude.{◌≡◌, ◌≢◌, Ok, Err, IfOk, IfErr};
ghost use Rattle.serde_json.specs.View.{view};
ghost use Rattle.sigstore_rekor.specs.LogEntry.{proof_of, verification_of, time_of, log_entry_of, log_entry_of_value};

use crate::entry_uuid::EntryUuid;
use crate::hex_hash::{HexSha256, hashes};
use crate::number::{Placed, Seconds, TreeSize};
use foundation::{Duplicate, NoMemory, Sequence};
use serde_json::Value;
use sigstore_entries::LogIndex;
use sigstore_rekor_parts::{Error, HexLogId, RekorMember, ResponseRule};
use sigstore_types_parts::{
    CanonicalizedBody, FromValue, Sha256Hash, SignedTimestamp, Text, contains_float, optional,
    required,
};
use std::alloc::Global;

/// An entry as a log's answer tells it.
#[derive(PartialEq, Drop)]
pub struct LogEntry {
    /// Its name in the log; empty where the entry was read without it.
    pub uuid: EntryUuid,
    /// What was logged.
    pub body: CanonicalizedBody,
    /// When it was logged, in seconds since 1970; 0 is a time.
    pub integrated_time: Option<i64>,
    /// The log.
    pub log_id: HexLogId,
    /// Its place in the log.
    pub log_index: LogIndex,
    pub verification: Option<Verification>,
}

/// What shows that an entry was logged.
#[derive(PartialEq, Drop)]
pub struct Verification {
    pub inclusion_proof: Option<RekorInclusionProof>,
    /// The log's promise to include the entry.
    pub signed_entry_timestamp: Option<SignedTimestamp>,
}

/// A proof that an entry is in a tree (RFC 6962, section 2.1.1), as a log's answer tells it.
#[derive(PartialEq, Drop)]
pub struct RekorInclusionProof {
    /// What the log signed of the tree, as its text.
    pub checkpoint: Text,
    /// The path from the leaf to the root.
    pub hashes: Sequence<Sha256Hash>,
    /// The entry's place in the tree.
    pub log_index: LogIndex,
    /// The tree's root.
    pub root_hash: Sha256Hash,
    /// How many entries the tree has; below 2^63 where it was read.
    pub tree_size: u64,
}

impl Duplicate for LogEntry {
    fn duplicate(&self, alloc: Global) -> Result<LogEntry, NoMemory> {
        Ok(LogEntry {
            uuid: self.uuid.duplicate(alloc)?,
            body: self.body.duplicate(alloc)?,
            integrated_time: self.integrated_time,
            log_id: self.log_id.duplicate(alloc)?,
            log_index: self.log_index,
            verification: self.verification.duplicate(alloc)?,
        })
    }
}

impl Duplicate for Verification {
    fn duplicate(&self, alloc: Global) -> Result<Verification, NoMemory> {
        Ok(Verification {
            inclusion_proof: self.inclusion_proof.duplicate(alloc)?,
            signed_entry_timestamp: self.signed_entry_timestamp.duplicate(alloc)?,
        })
    }
}

impl Duplicate for RekorInclusionProof {
    fn duplicate(&self, alloc: Global) -> Result<RekorInclusionProof, NoMemory> {
        Ok(RekorInclusionProof {
            checkpoint: self.checkpoint.duplicate(alloc)?,
            hashes: self.hashes.duplicate(alloc)?,
            log_index: self.log_index,
            root_hash: self.root_hash.duplicate(alloc)?,
            tree_size: self.tree_size,
        })
    }
}

impl FromValue<Error> for RekorInclusionProof {
    ghost reads = { proof_of };

    #[tactic(auto, unfolding(crate::specs::LogEntry::proof_of))]
    fn from_value(alloc: Global, value: &Value) -> Result<RekorInclusionProof, Error> {
        let checkpoint = required(alloc, value, RekorMember::Checkpoint)?;
        let list: Sequence<HexSha256> = required(alloc, value, RekorMember::Hashes)?;
        let place: Placed = required(alloc, value, RekorMember::LogIndex)?;
        let root: HexSha256 = required(alloc, value, RekorMember::RootHash)?;
        let tree: TreeSize = required(alloc, value, RekorMember::TreeSize)?;
        Ok(RekorInclusionProof {
            checkpoint,
            hashes: hashes(alloc, &list)?,
            log_index: place.index,
            root_hash: root.into_hash(),
            tree_size: tree.size,
        })
    }
}

impl FromValue<Error> for Verification {
    ghost reads = { verification_of };

    #[tactic(auto, unfolding(crate::specs::LogEntry::verification_of))]
    fn from_value(alloc: Global, value: &Value) -> Result<Verification, Error> {
        Ok(Verification {
            inclusion_proof: optional(alloc, value, RekorMember::InclusionProof)?,
            signed_entry_timestamp: optional(alloc, value, RekorMember::SignedEntryTimestamp)?,
        })
    }
}

fn time(seconds: Option<Seconds>) -> Option<i64>
    ensures { result ≡ time_of seconds }
{
    match seconds {
        Some(time) => Some(time.seconds),
        None => None,
    }
}

impl FromValue<Error> for LogEntry {
    ghost reads = { log_entry_of };

    #[tactic(auto, unfolding(crate::specs::LogEntry::log_entry_of))]
    fn from_value(alloc: Global, value: &Value) -> Result<LogEntry, Error> {
        let body = required(alloc, value, RekorMember::Body)?;
        let seconds: Option<Seconds> = optional(alloc, value, RekorMember::IntegratedTime)?;
        let log_id = required(alloc, value, RekorMember::LogId)?;
        let place: Placed = required(alloc, value, RekorMember::LogIndex)?;
        let verification = optional(alloc, value, RekorMember::Verification)?;
        Ok(LogEntry {
            uuid: EntryUuid::new(Text::from_string(String::new(alloc))),
            body,
            integrated_time: time(seconds),
            log_id,
            log_index: place.index,
            verification,
        })
    }
}

impl LogEntry {
    /// The entry that a JSON value is. Errors: `InvalidResponse` with `Float`, then the rule that the first
    /// wrong member breaks, in the order of the members.
    #[tactic(auto, unfolding(crate::specs::LogEntry::log_entry_of_value))]
    pub fn from_value(alloc: Global, value: &Value) -> Result<LogEntry, Error>
        ensures ok { IfOk result (λ entry. log_entry_of_value (view value.now) ≡ Ok entry) }
        ensures err { IfErr result (λ e. e ≢ Error.NoMemory → log_entry_of_value (view value.now) ≡ Err e) }
    {
        if contains_float(value) {
            return Err(Error::InvalidResponse {
                rule: ResponseRule::Float,
            });
        }
        Ok(<LogEntry as FromValue<Error>>::from_value(alloc, value)?)
    }
}
