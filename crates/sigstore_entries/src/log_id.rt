// Ids of logs.
ghost use Rattle.std.specs.Prelude.{◌≡◌};
ghost use Rattle.sigstore_entries.specs.Entry.{log_id_of};

use foundation::{Duplicate, NoMemory};
use serde_json::Value;
use sigstore_types_parts::{FromValue, LogKeyId, TypesError, TypesMember, required};
use std::alloc::Global;

/// The id of a log.
#[derive(Debug, PartialEq, Drop)]
pub struct LogId {
    /// The id of its key.
    pub key_id: LogKeyId,
}

impl Duplicate for LogId {
    fn duplicate(&self, alloc: Global) -> Result<LogId, NoMemory> {
        Ok(LogId {
            key_id: self.key_id.duplicate(alloc)?,
        })
    }
}

impl FromValue<TypesError> for LogId {
    ghost reads = { log_id_of };

    #[tactic(auto, unfolding(crate::specs::Entry::log_id_of))]
    fn from_value(alloc: Global, value: &Value) -> Result<LogId, TypesError> {
        Ok(LogId {
            key_id: required(alloc, value, TypesMember::KeyId)?,
        })
    }
}
