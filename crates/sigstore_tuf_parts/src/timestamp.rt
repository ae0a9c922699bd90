// The timestamp document, and pins.
ghost use Rattle.std.specs.Prelude.{◌≡◌};
ghost use Rattle.std.specs.Option.{option_copied};
ghost use Rattle.sigstore_types_parts.specs.Entries.{at_name};
ghost use Rattle.sigstore_tuf_text.specs.Names.{snapshot_name};
ghost use Rattle.sigstore_tuf_parts.specs.Timestamp.{timestamp_of, meta_file_of};

use crate::head::Head;
use crate::role::Role;
use foundation::{Duplicate, NoMemory};
use serde_json::Value;
use sigstore_tuf_text::{DocumentMember, Error, SNAPSHOT_NAME, others};
use sigstore_types_parts::{FromValue, Json, Text, TextMap, optional, required};
use std::alloc::Global;

/// The pin of a document: its version, and its length and digests where they are given.
#[derive(PartialEq, Drop)]
pub struct MetaFile {
    pub version: u64,
    pub length: Option<u64>,
    pub hashes: Option<TextMap<Text>>,
    pub extra: TextMap<Json>,
}

/// The content of a timestamp document: the pin of the snapshot.
#[derive(PartialEq, Drop)]
pub struct Timestamp {
    pub type_: Text,
    pub spec_version: Text,
    pub version: u64,
    pub expires: jiff::Timestamp,
    pub meta: TextMap<MetaFile>,
    pub extra: TextMap<Json>,
}

impl FromValue<Error> for MetaFile {
    ghost reads = { meta_file_of };

    #[tactic(auto, unfolding(crate::specs::Timestamp::meta_file_of))]
    fn from_value(alloc: Global, value: &Value) -> Result<MetaFile, Error> {
        Ok(MetaFile {
            version: required(alloc, value, DocumentMember::Version)?,
            length: optional(alloc, value, DocumentMember::Length)?,
            hashes: optional(alloc, value, DocumentMember::Hashes)?,
            extra: others(
                alloc,
                value,
                &[
                    DocumentMember::Version,
                    DocumentMember::Length,
                    DocumentMember::Hashes,
                ],
            )?,
        })
    }
}

impl Duplicate for MetaFile {
    fn duplicate(&self, alloc: Global) -> Result<MetaFile, NoMemory> {
        Ok(MetaFile {
            version: self.version,
            length: self.length.duplicate(alloc)?,
            hashes: self.hashes.duplicate(alloc)?,
            extra: self.extra.duplicate(alloc)?,
        })
    }
}

impl Duplicate for Timestamp {
    fn duplicate(&self, alloc: Global) -> Result<Timestamp, NoMemory> {
        let Head {
            type_,
            spec_version,
            version,
            expires,
        } = Head::copied(
            alloc,
            &self.type_,
            &self.spec_version,
            self.version,
            self.expires,
        )?;
        Ok(Timestamp {
            type_,
            spec_version,
            version,
            expires,
            meta: self.meta.duplicate(alloc)?,
            extra: self.extra.duplicate(alloc)?,
        })
    }
}

const TIMESTAMP_MEMBERS: [DocumentMember; 5] = [
    DocumentMember::Type,
    DocumentMember::SpecVersion,
    DocumentMember::Version,
    DocumentMember::Expires,
    DocumentMember::Meta,
];

impl FromValue<Error> for Timestamp {
    ghost reads = { timestamp_of };

    #[tactic(auto, unfolding(crate::specs::Timestamp::timestamp_of))]
    fn from_value(alloc: Global, value: &Value) -> Result<Timestamp, Error> {
        let Head {
            type_,
            spec_version,
            version,
            expires,
        } = Head::from_value(alloc, value)?;
        let meta: TextMap<MetaFile> = required(alloc, value, DocumentMember::Meta)?;
        match others(alloc, value, &TIMESTAMP_MEMBERS) {
            Ok(extra) => Ok(Timestamp {
                type_,
                spec_version,
                version,
                expires,
                meta,
                extra,
            }),
            Err(NoMemory) => {
                drop(meta);
                Err(Error::NoMemory)
            }
        }
    }
}

impl Timestamp {
    /// The pin of the snapshot.
    pub fn snapshot_meta(&self) -> Option<&MetaFile>
        ensures { option_copied result ≡ at_name snapshot_name self.now.meta }
    {
        self.meta.get(SNAPSHOT_NAME)
    }
}

impl Role for Timestamp {
    ghost use Rattle.std.specs.Prelude.{codes};

    ghost kind = { codes "timestamp" };

    ghost version_in = { λ d. d.version };

    ghost expires_in = { λ d. d.expires };

    fn kind() -> &'static str {
        "timestamp"
    }

    fn version(&self) -> u64 {
        self.version
    }

    fn expires(&self) -> jiff::Timestamp {
        self.expires
    }
}
