// Names of entries in a log.
ghost use Rattle.std.specs.Prelude.{◌≡◌, Ok, Err};
ghost use Rattle.sigstore_rekor.specs.LogEntry.{uuid_of};

use foundation::{Duplicate, NoMemory};
use serde_json::Value;
use sigstore_rekor_parts::Error;
use sigstore_types_parts::{FromValue, Text};
use std::alloc::Global;

/// The name of an entry in a log.
#[derive(Debug, PartialEq, Drop)]
pub struct EntryUuid {
    text: Text,
}

impl EntryUuid {
    /// This name; takes no memory.
    pub fn new(text: Text) -> EntryUuid
        ensures { result.text ≡ text }
    {
        EntryUuid { text }
    }

    /// The name.
    pub fn as_str(&self) -> &str
        ensures { result.now ≡ self.now.text }
    {
        self.text.as_str()
    }
}

impl Duplicate for EntryUuid {
    fn duplicate(&self, alloc: Global) -> Result<EntryUuid, NoMemory> {
        Ok(EntryUuid {
            text: self.text.duplicate(alloc)?,
        })
    }
}

impl FromValue<Error> for EntryUuid {
    ghost reads = { uuid_of };

    #[tactic(auto, unfolding(crate::specs::LogEntry::uuid_of))]
    fn from_value(alloc: Global, value: &Value) -> Result<EntryUuid, Error> {
        match Text::from_value(alloc, value) {
            Ok(text) => Ok(EntryUuid { text }),
            Err(e) => Err(e),
        }
    }
}
