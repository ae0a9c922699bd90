// Entries.
ghost use Rattle.std.specs.Prelude.{◌≡◌, ◌≢◌, Ok, Err, IfOk, IfErr};
ghost use Rattle.serde_json.specs.View.{view};
ghost use Rattle.sigstore_entries.specs.Entry.{promise_of, timestamp_of, placed_of, entry_of, entry_of_value};

use crate::inclusion_proof::InclusionProof;
use crate::kind_version::KindVersion;
use crate::log_id::LogId;
use crate::log_index::LogIndex;
use crate::members::place;
use crate::time::{Time, known_time};
use foundation::{Duplicate, NoMemory};
use serde_json::Value;
use sigstore_types_parts::{
    CanonicalizedBody, FromValue, SignedTimestamp, TypesError, TypesMember, contains_float,
    optional, required,
};
use std::alloc::Global;

/// An entry of a transparency log.
#[derive(PartialEq, Drop)]
pub struct TransparencyLogEntry {
    /// Its place in the log.
    pub log_index: LogIndex,
    /// The log.
    pub log_id: LogId,
    pub kind_version: KindVersion,
    /// When it was logged, in seconds since 1970; 0 is no time.
    pub integrated_time: Option<i64>,
    /// The log's promise to include it.
    pub inclusion_promise: Option<SignedTimestamp>,
    pub inclusion_proof: Option<InclusionProof>,
    /// What was logged.
    pub canonicalized_body: CanonicalizedBody,
}

impl Duplicate for TransparencyLogEntry {
    fn duplicate(&self, alloc: Global) -> Result<TransparencyLogEntry, NoMemory> {
        Ok(TransparencyLogEntry {
            log_index: self.log_index,
            log_id: self.log_id.duplicate(alloc)?,
            kind_version: self.kind_version,
            integrated_time: self.integrated_time,
            inclusion_promise: self.inclusion_promise.duplicate(alloc)?,
            inclusion_proof: self.inclusion_proof.duplicate(alloc)?,
            canonicalized_body: self.canonicalized_body.duplicate(alloc)?,
        })
    }
}

// A promise as it is written.
#[derive(Drop)]
struct InclusionPromise {
    signed_entry_timestamp: SignedTimestamp,
}

impl FromValue<TypesError> for InclusionPromise {
    ghost reads = { promise_of };

    #[tactic(auto, unfolding(crate::specs::Entry::promise_of))]
    fn from_value(alloc: Global, value: &Value) -> Result<InclusionPromise, TypesError> {
        Ok(InclusionPromise {
            signed_entry_timestamp: required(alloc, value, TypesMember::SignedEntryTimestamp)?,
        })
    }
}

fn timestamp(promise: Option<InclusionPromise>) -> Option<SignedTimestamp>
    ensures { result ≡ timestamp_of promise }
{
    match promise {
        Some(promise) => Some(promise.signed_entry_timestamp),
        None => None,
    }
}

// Where and when an entry was logged.
#[derive(Drop)]
struct Placed {
    log_index: LogIndex,
    log_id: LogId,
    kind_version: KindVersion,
    integrated_time: Option<i64>,
}

#[tactic(auto, unfolding(crate::specs::Entry::placed_of))]
fn read_placed(alloc: Global, value: &Value) -> Result<Placed, TypesError>
    ensures ok { IfOk result (λ p. placed_of (view value.now) ≡ Ok p) }
    ensures err { IfErr result (λ e. e ≢ TypesError.NoMemory → placed_of (view value.now) ≡ Err e) }
{
    let log_index = place(alloc, value, TypesMember::LogIndex)?;
    let log_id = required(alloc, value, TypesMember::LogId)?;
    let kind_version = required(alloc, value, TypesMember::KindVersion)?;
    let time: Option<Time> = optional(alloc, value, TypesMember::IntegratedTime)?;
    Ok(Placed {
        log_index,
        log_id,
        kind_version,
        integrated_time: known_time(time),
    })
}

impl FromValue<TypesError> for TransparencyLogEntry {
    ghost reads = { entry_of };

    #[tactic(auto, unfolding(crate::specs::Entry::entry_of))]
    fn from_value(alloc: Global, value: &Value) -> Result<TransparencyLogEntry, TypesError> {
        let placed = read_placed(alloc, value)?;
        let promise: Option<InclusionPromise> = optional(
            alloc,
            value,
            TypesMember::InclusionPromise,
        )?;
        let inclusion_proof = optional(alloc, value, TypesMember::InclusionProof)?;
        let canonicalized_body = required(alloc, value, TypesMember::CanonicalizedBody)?;
        Ok(TransparencyLogEntry {
            log_index: placed.log_index,
            log_id: placed.log_id,
            kind_version: placed.kind_version,
            integrated_time: placed.integrated_time,
            inclusion_promise: timestamp(promise),
            inclusion_proof,
            canonicalized_body,
        })
    }
}

impl TransparencyLogEntry {
    /// The entry that a JSON value is. Errors: `Float`, then the first wrong member's in the order of the
    /// members.
    #[tactic(auto, unfolding(crate::specs::Entry::entry_of_value))]
    pub fn from_value(alloc: Global, value: &Value) -> Result<TransparencyLogEntry, TypesError>
        ensures ok { IfOk result (λ entry. entry_of_value (view value.now) ≡ Ok entry) }
        ensures err { IfErr result (λ e. e ≢ TypesError.NoMemory → entry_of_value (view value.now) ≡ Err e) }
    {
        if contains_float(value) {
            return Err(TypesError::Float);
        }
        Ok(<TransparencyLogEntry as FromValue<TypesError>>::from_value(alloc, value)?)
    }
}
