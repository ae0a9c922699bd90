// Keys, and what a role asks of them.
ghost use Rattle.sigstore_tuf_parts.specs.Keys.{role_keys_of, key_in_of, key_val_of};

use foundation::{Duplicate, NoMemory, Sequence};
use serde_json::Value;
use sigstore_tuf_text::{DocumentMember, Error, others};
use sigstore_types_parts::{FromValue, Json, Text, TextMap, required};
use std::alloc::Global;

/// The text of a public key.
#[derive(PartialEq, Drop)]
pub struct KeyVal {
    pub public: Text,
    pub extra: TextMap<Json>,
}

/// A key as a document declares it.
#[derive(PartialEq, Drop)]
pub struct Key {
    pub keytype: Text,
    pub scheme: Text,
    pub keyval: KeyVal,
    pub extra: TextMap<Json>,
}

/// The ids of the keys that sign for a role, and how many of them have to.
#[derive(PartialEq, Drop)]
pub struct RoleKeys {
    pub keyids: Sequence<Text>,
    pub threshold: u64,
    pub extra: TextMap<Json>,
}

impl FromValue<Error> for KeyVal {
    ghost reads = { key_val_of };

    #[tactic(auto, unfolding(crate::specs::Keys::key_val_of))]
    fn from_value(alloc: Global, value: &Value) -> Result<KeyVal, Error> {
        Ok(KeyVal {
            public: required(alloc, value, DocumentMember::Public)?,
            extra: others(alloc, value, &[DocumentMember::Public])?,
        })
    }
}

const KEY_MEMBERS: [DocumentMember; 3] = [
    DocumentMember::Keytype,
    DocumentMember::Scheme,
    DocumentMember::Keyval,
];

impl FromValue<Error> for Key {
    ghost reads = { key_in_of };

    #[tactic(auto, unfolding(crate::specs::Keys::key_in_of))]
    fn from_value(alloc: Global, value: &Value) -> Result<Key, Error> {
        let keytype = required(alloc, value, DocumentMember::Keytype)?;
        let scheme = required(alloc, value, DocumentMember::Scheme)?;
        let keyval: KeyVal = required(alloc, value, DocumentMember::Keyval)?;
        match others(alloc, value, &KEY_MEMBERS) {
            Ok(extra) => Ok(Key {
                keytype,
                scheme,
                keyval,
                extra,
            }),
            Err(NoMemory) => {
                drop(keyval);
                Err(Error::NoMemory)
            }
        }
    }
}

impl FromValue<Error> for RoleKeys {
    ghost reads = { role_keys_of };

    #[tactic(auto, unfolding(crate::specs::Keys::role_keys_of))]
    fn from_value(alloc: Global, value: &Value) -> Result<RoleKeys, Error> {
        Ok(RoleKeys {
            keyids: required(alloc, value, DocumentMember::Keyids)?,
            threshold: required(alloc, value, DocumentMember::Threshold)?,
            extra: others(
                alloc,
                value,
                &[DocumentMember::Keyids, DocumentMember::Threshold],
            )?,
        })
    }
}

impl Duplicate for KeyVal {
    fn duplicate(&self, alloc: Global) -> Result<KeyVal, NoMemory> {
        Ok(KeyVal {
            public: self.public.duplicate(alloc)?,
            extra: self.extra.duplicate(alloc)?,
        })
    }
}

impl Duplicate for Key {
    fn duplicate(&self, alloc: Global) -> Result<Key, NoMemory> {
        Ok(Key {
            keytype: self.keytype.duplicate(alloc)?,
            scheme: self.scheme.duplicate(alloc)?,
            keyval: self.keyval.duplicate(alloc)?,
            extra: self.extra.duplicate(alloc)?,
        })
    }
}

impl Duplicate for RoleKeys {
    fn duplicate(&self, alloc: Global) -> Result<RoleKeys, NoMemory> {
        Ok(RoleKeys {
            keyids: self.keyids.duplicate(alloc)?,
            threshold: self.threshold,
            extra: self.extra.duplicate(alloc)?,
        })
    }
}
