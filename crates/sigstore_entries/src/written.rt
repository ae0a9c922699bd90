// Entries as they are written.
ghost use Rattle.std.specs.Prelude.{◌≡◌, option_map, OnOk};
ghost use Rattle.serde_json.specs.View.{members_view};
ghost use Rattle.sigstore_entries.specs.Writing.{with_member};
ghost use Rattle.sigstore_entries.specs.Written.{place_data, log_id_data, kind_version_data, checkpoint_data, proof_data, promise_data, entry_data};

use crate::checkpoint::Checkpoint;
use crate::checkpoint_data::CheckpointData;
use crate::entry::TransparencyLogEntry;
use crate::inclusion_proof::InclusionProof;
use crate::kind_version::KindVersion;
use crate::log_id::LogId;
use crate::log_index::LogIndex;
use crate::writing::{ToValue, held, put, put_list, put_some, put_value};
use foundation::NoMemory;
use serde_json::{Map, Value};
use sigstore_types_parts::{SignedTimestamp, TypesMember};
use std::alloc::Global;

impl ToValue for LogIndex {
    ghost writes = { place_data };

    fn to_value(&self, alloc: Global) -> Result<Value, NoMemory> {
        self.get().to_value(alloc)
    }
}

impl ToValue for LogId {
    ghost writes = { log_id_data };

    #[tactic(auto, unfolding(crate::specs::Written::log_id_data))]
    fn to_value(&self, alloc: Global) -> Result<Value, NoMemory> {
        held(alloc, TypesMember::KeyId, &self.key_id)
    }
}

impl ToValue for KindVersion {
    ghost writes = { kind_version_data };

    #[tactic(auto, unfolding(crate::specs::Written::kind_version_data))]
    fn to_value(&self, alloc: Global) -> Result<Value, NoMemory> {
        let mut members = Map::new(alloc);
        let version = Value::try_from_str(alloc, self.version())?;
        put_value(alloc, &mut members, TypesMember::Version, Some(version))?;
        let kind = Value::try_from_str(alloc, self.kind())?;
        put_value(alloc, &mut members, TypesMember::Kind, Some(kind))?;
        Ok(Value::Object(members))
    }
}

impl ToValue for Checkpoint {
    ghost writes = { checkpoint_data };

    #[tactic(auto, unfolding(crate::specs::Written::checkpoint_data))]
    fn to_value(&self, alloc: Global) -> Result<Value, NoMemory> {
        held(alloc, TypesMember::Envelope, self.whole())
    }
}

impl ToValue for InclusionProof {
    ghost writes = { proof_data };

    #[tactic(auto, unfolding(crate::specs::Written::proof_data))]
    fn to_value(&self, alloc: Global) -> Result<Value, NoMemory> {
        let mut members = Map::new(alloc);
        put(alloc, &mut members, TypesMember::TreeSize, &self.tree_size)?;
        put(alloc, &mut members, TypesMember::RootHash, &self.root_hash)?;
        put(alloc, &mut members, TypesMember::LogIndex, &self.log_index)?;
        put_list(alloc, &mut members, TypesMember::Hashes, &self.hashes)?;
        put_checkpoint(alloc, &mut members, &self.checkpoint)?;
        Ok(Value::Object(members))
    }
}

// The checkpoint of a proof, where there is one.
fn put_checkpoint(
    alloc: Global,
    members: &mut Map<String, Value>,
    kept: &CheckpointData,
) -> Result<(), NoMemory>
    ensures { OnOk result (members_view members.new.entries
        ≡ with_member TypesMember.Checkpoint (option_map checkpoint_data kept.now.checkpoint) (members_view members.old.entries)) }
{
    match kept.checkpoint() {
        Some(checkpoint) => put(alloc, members, TypesMember::Checkpoint, checkpoint),
        None => Ok(()),
    }
}

// The promise of a log, where there is one.
fn put_promise(
    alloc: Global,
    members: &mut Map<String, Value>,
    promise: &Option<SignedTimestamp>,
) -> Result<(), NoMemory>
    ensures { OnOk result (members_view members.new.entries
        ≡ with_member TypesMember.InclusionPromise (option_map promise_data promise.now) (members_view members.old.entries)) }
{
    match promise {
        Some(timestamp) => {
            let value = held(alloc, TypesMember::SignedEntryTimestamp, timestamp)?;
            put_value(alloc, members, TypesMember::InclusionPromise, Some(value))
        }
        None => Ok(()),
    }
}

impl ToValue for TransparencyLogEntry {
    ghost writes = { entry_data };

    #[tactic(auto, unfolding(crate::specs::Written::entry_data))]
    fn to_value(&self, alloc: Global) -> Result<Value, NoMemory> {
        let mut members = Map::new(alloc);
        put(alloc, &mut members, TypesMember::LogIndex, &self.log_index)?;
        put(alloc, &mut members, TypesMember::LogId, &self.log_id)?;
        put(
            alloc,
            &mut members,
            TypesMember::KindVersion,
            &self.kind_version,
        )?;
        put_some(
            alloc,
            &mut members,
            TypesMember::IntegratedTime,
            &self.integrated_time,
        )?;
        put_some(
            alloc,
            &mut members,
            TypesMember::InclusionProof,
            &self.inclusion_proof,
        )?;
        put_promise(alloc, &mut members, &self.inclusion_promise)?;
        put(
            alloc,
            &mut members,
            TypesMember::CanonicalizedBody,
            &self.canonicalized_body,
        )?;
        Ok(Value::Object(members))
    }
}
