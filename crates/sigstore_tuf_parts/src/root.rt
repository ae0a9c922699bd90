// The root document.
ghost use Rattle.std.specs.Prelude.{◌≡◌};
ghost use Rattle.std.specs.Option.{option_copied};
ghost use Rattle.sigstore_types_parts.specs.Entries.{at_name};
ghost use Rattle.sigstore_tuf_parts.specs.Root.{root_of};

use crate::head::Head;
use crate::keys::{Key, RoleKeys};
use crate::role::Role;
use foundation::{Duplicate, NoMemory};
use serde_json::Value;
use sigstore_tuf_text::{DocumentMember, Error, others};
use sigstore_types_parts::{FromValue, Json, Text, TextMap, defaulted, required};
use std::alloc::Global;

/// The content of a root document: the keys and the roles that they sign for.
#[derive(PartialEq, Drop)]
pub struct Root {
    pub type_: Text,
    pub spec_version: Text,
    pub version: u64,
    pub expires: jiff::Timestamp,
    pub consistent_snapshot: bool,
    pub keys: TextMap<Key>,
    pub roles: TextMap<RoleKeys>,
    pub extra: TextMap<Json>,
}

impl Duplicate for Root {
    fn duplicate(&self, alloc: Global) -> Result<Root, NoMemory> {
        let Head {
            type_,
            spec_version,
            version,
            expires,
        } = Head::copied(
            alloc,
            &self.type_,
            &self.spec_version,
            self.version,
            self.expires,
        )?;
        Ok(Root {
            type_,
            spec_version,
            version,
            expires,
            consistent_snapshot: self.consistent_snapshot,
            keys: self.keys.duplicate(alloc)?,
            roles: self.roles.duplicate(alloc)?,
            extra: self.extra.duplicate(alloc)?,
        })
    }
}

const ROOT_MEMBERS: [DocumentMember; 7] = [
    DocumentMember::Type,
    DocumentMember::SpecVersion,
    DocumentMember::Version,
    DocumentMember::Expires,
    DocumentMember::ConsistentSnapshot,
    DocumentMember::Keys,
    DocumentMember::Roles,
];

impl FromValue<Error> for Root {
    ghost reads = { root_of };

    #[tactic(auto, unfolding(crate::specs::Root::root_of))]
    fn from_value(alloc: Global, value: &Value) -> Result<Root, Error> {
        let Head {
            type_,
            spec_version,
            version,
            expires,
        } = Head::from_value(alloc, value)?;
        let consistent_snapshot = defaulted(
            alloc,
            value,
            DocumentMember::ConsistentSnapshot,
            false,
        )?;
        let keys: TextMap<Key> = required(alloc, value, DocumentMember::Keys)?;
        let roles: TextMap<RoleKeys> = match required(alloc, value, DocumentMember::Roles) {
            Ok(roles) => roles,
            Err(e) => {
                drop(keys);
                return Err(e);
            }
        };
        match others(alloc, value, &ROOT_MEMBERS) {
            Ok(extra) => Ok(Root {
                type_,
                spec_version,
                version,
                expires,
                consistent_snapshot,
                keys,
                roles,
                extra,
            }),
            Err(NoMemory) => {
                drop(keys);
                drop(roles);
                Err(Error::NoMemory)
            }
        }
    }
}

impl Root {
    /// What the role of that name asks.
    pub fn role(&self, name: &str) -> Option<&RoleKeys>
        ensures { option_copied result ≡ at_name name.now self.now.roles }
    {
        self.roles.get(name)
    }
}

impl Role for Root {
    ghost use Rattle.std.specs.Prelude.{codes};

    ghost kind = { codes "root" };

    ghost version_in = { λ d. d.version };

    ghost expires_in = { λ d. d.expires };

    fn kind() -> &'static str {
        "root"
    }

    fn version(&self) -> u64 {
        self.version
    }

    fn expires(&self) -> jiff::Timestamp {
        self.expires
    }
}
