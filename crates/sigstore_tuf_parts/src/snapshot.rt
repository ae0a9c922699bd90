// The snapshot document.
ghost use Rattle.std.specs.Prelude.{◌≡◌};
ghost use Rattle.std.specs.Option.{option_copied};
ghost use Rattle.sigstore_types_parts.specs.Entries.{at_name};
ghost use Rattle.sigstore_tuf_text.specs.Names.{targets_name};
ghost use Rattle.sigstore_tuf_parts.specs.Snapshot.{snapshot_of};

use crate::head::Head;
use crate::role::Role;
use crate::timestamp::MetaFile;
use foundation::{Duplicate, NoMemory};
use serde_json::Value;
use sigstore_tuf_text::{DocumentMember, Error, TARGETS_NAME, others};
use sigstore_types_parts::{FromValue, Json, Text, TextMap, required};
use std::alloc::Global;

/// The content of a snapshot document: the pins of the targets documents.
#[derive(PartialEq, Drop)]
pub struct Snapshot {
    pub type_: Text,
    pub spec_version: Text,
    pub version: u64,
    pub expires: jiff::Timestamp,
    pub meta: TextMap<MetaFile>,
    pub extra: TextMap<Json>,
}

impl Duplicate for Snapshot {
    fn duplicate(&self, alloc: Global) -> Result<Snapshot, NoMemory> {
        let Head {
            type_,
            spec_version,
            version,
            expires,
        } = Head::copied(
            alloc,
            &self.type_,
            &self.spec_version,
            self.version,
            self.expires,
        )?;
        Ok(Snapshot {
            type_,
            spec_version,
            version,
            expires,
            meta: self.meta.duplicate(alloc)?,
            extra: self.extra.duplicate(alloc)?,
        })
    }
}

const SNAPSHOT_MEMBERS: [DocumentMember; 5] = [
    DocumentMember::Type,
    DocumentMember::SpecVersion,
    DocumentMember::Version,
    DocumentMember::Expires,
    DocumentMember::Meta,
];

impl FromValue<Error> for Snapshot {
    ghost reads = { snapshot_of };

    #[tactic(auto, unfolding(crate::specs::Snapshot::snapshot_of))]
    fn from_value(alloc: Global, value: &Value) -> Result<Snapshot, Error> {
        let Head {
            type_,
            spec_version,
            version,
            expires,
        } = Head::from_value(alloc, value)?;
        let meta: TextMap<MetaFile> = required(alloc, value, DocumentMember::Meta)?;
        match others(alloc, value, &SNAPSHOT_MEMBERS) {
            Ok(extra) => Ok(Snapshot {
                type_,
                spec_version,
                version,
                expires,
                meta,
                extra,
            }),
            Err(NoMemory) => {
                drop(meta);
                Err(Error::NoMemory)
            }
        }
    }
}

impl Snapshot {
    /// The pin of the top-level targets document.
    pub fn targets_meta(&self) -> Option<&MetaFile>
        ensures { option_copied result ≡ at_name targets_name self.now.meta }
    {
        self.meta.get(TARGETS_NAME)
    }
}

impl Role for Snapshot {
    ghost use Rattle.std.specs.Prelude.{codes};

    ghost kind = { codes "snapshot" };

    ghost version_in = { λ d. d.version };

    ghost expires_in = { λ d. d.expires };

    fn kind() -> &'static str {
        "snapshot"
    }

    fn version(&self) -> u64 {
        self.version
    }

    fn expires(&self) -> jiff::Timestamp {
        self.expires
    }
}
