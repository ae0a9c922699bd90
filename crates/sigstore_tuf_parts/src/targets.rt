// The targets document, and the roles that it delegates to.
ghost use Rattle.std.specs.Prelude.{◌≡◌};
ghost use Rattle.std.specs.Option.{option_copied};
ghost use Rattle.sigstore_types_parts.specs.Entries.{at_name};
ghost use Rattle.sigstore_tuf_parts.specs.Targets.{target_file_of, grant_of, delegated_role_of, delegations_of, targets_of};

use crate::head::Head;
use crate::keys::Key;
use crate::role::Role;
use foundation::{Duplicate, NoMemory, Sequence};
use serde_json::Value;
use sigstore_tuf_text::{DocumentMember, Error, others};
use sigstore_types_parts::{FromValue, Json, Text, TextMap, defaulted, optional, required};
use std::alloc::Global;

/// The length and the digests of a target.
#[derive(PartialEq, Drop)]
pub struct TargetFile {
    pub length: u64,
    pub hashes: TextMap<Text>,
    pub custom: Option<Json>,
    pub extra: TextMap<Json>,
}

/// A role that targets are delegated to.
#[derive(PartialEq, Drop)]
pub struct DelegatedRole {
    pub name: Text,
    pub keyids: Sequence<Text>,
    pub threshold: u64,
    pub terminating: bool,
    pub paths: Option<Sequence<Text>>,
    pub path_hash_prefixes: Option<Sequence<Text>>,
    pub extra: TextMap<Json>,
}

/// The roles that targets are delegated to, in their order, and the keys that sign for them.
#[derive(PartialEq, Drop)]
pub struct Delegations {
    pub keys: TextMap<Key>,
    pub roles: Sequence<DelegatedRole>,
    pub extra: TextMap<Json>,
}

/// The content of a targets document.
#[derive(PartialEq, Drop)]
pub struct Targets {
    pub type_: Text,
    pub spec_version: Text,
    pub version: u64,
    pub expires: jiff::Timestamp,
    pub targets: TextMap<TargetFile>,
    pub delegations: Option<Delegations>,
    pub extra: TextMap<Json>,
}

impl FromValue<Error> for TargetFile {
    ghost reads = { target_file_of };

    #[tactic(auto, unfolding(crate::specs::Targets::target_file_of))]
    fn from_value(alloc: Global, value: &Value) -> Result<TargetFile, Error> {
        Ok(TargetFile {
            length: required(alloc, value, DocumentMember::Length)?,
            hashes: required(alloc, value, DocumentMember::Hashes)?,
            custom: optional(alloc, value, DocumentMember::Custom)?,
            extra: others(
                alloc,
                value,
                &[
                    DocumentMember::Length,
                    DocumentMember::Hashes,
                    DocumentMember::Custom,
                ],
            )?,
        })
    }
}

impl Duplicate for TargetFile {
    fn duplicate(&self, alloc: Global) -> Result<TargetFile, NoMemory> {
        Ok(TargetFile {
            length: self.length,
            hashes: self.hashes.duplicate(alloc)?,
            custom: self.custom.duplicate(alloc)?,
            extra: self.extra.duplicate(alloc)?,
        })
    }
}

impl Duplicate for DelegatedRole {
    fn duplicate(&self, alloc: Global) -> Result<DelegatedRole, NoMemory> {
        Ok(DelegatedRole {
            name: self.name.duplicate(alloc)?,
            keyids: self.keyids.duplicate(alloc)?,
            threshold: self.threshold,
            terminating: self.terminating,
            paths: self.paths.duplicate(alloc)?,
            path_hash_prefixes: self.path_hash_prefixes.duplicate(alloc)?,
            extra: self.extra.duplicate(alloc)?,
        })
    }
}

impl Duplicate for Delegations {
    fn duplicate(&self, alloc: Global) -> Result<Delegations, NoMemory> {
        Ok(Delegations {
            keys: self.keys.duplicate(alloc)?,
            roles: self.roles.duplicate(alloc)?,
            extra: self.extra.duplicate(alloc)?,
        })
    }
}

// The name of a role, and what is asked of its documents.
#[derive(Drop)]
struct Grant {
    name: Text,
    keyids: Sequence<Text>,
    threshold: u64,
}

impl FromValue<Error> for Grant {
    ghost reads = { grant_of };

    #[tactic(auto, unfolding(crate::specs::Targets::grant_of))]
    fn from_value(alloc: Global, value: &Value) -> Result<Grant, Error> {
        Ok(Grant {
            name: required(alloc, value, DocumentMember::Name)?,
            keyids: required(alloc, value, DocumentMember::Keyids)?,
            threshold: required(alloc, value, DocumentMember::Threshold)?,
        })
    }
}

const DELEGATED_ROLE_MEMBERS: [DocumentMember; 6] = [
    DocumentMember::Name,
    DocumentMember::Keyids,
    DocumentMember::Threshold,
    DocumentMember::Terminating,
    DocumentMember::Paths,
    DocumentMember::PathHashPrefixes,
];

impl FromValue<Error> for DelegatedRole {
    ghost reads = { delegated_role_of };

    #[tactic(auto, unfolding(crate::specs::Targets::delegated_role_of))]
    fn from_value(alloc: Global, value: &Value) -> Result<DelegatedRole, Error> {
        let Grant {
            name,
            keyids,
            threshold,
        } = Grant::from_value(alloc, value)?;
        let terminating = defaulted(alloc, value, DocumentMember::Terminating, false)?;
        let paths: Option<Sequence<Text>> = optional(alloc, value, DocumentMember::Paths)?;
        let path_hash_prefixes: Option<Sequence<Text>> = match optional(
            alloc,
            value,
            DocumentMember::PathHashPrefixes,
        ) {
            Ok(prefixes) => prefixes,
            Err(e) => {
                drop(paths);
                return Err(e);
            }
        };
        match others(alloc, value, &DELEGATED_ROLE_MEMBERS) {
            Ok(extra) => Ok(DelegatedRole {
                name,
                keyids,
                threshold,
                terminating,
                paths,
                path_hash_prefixes,
                extra,
            }),
            Err(NoMemory) => {
                drop(paths);
                drop(path_hash_prefixes);
                Err(Error::NoMemory)
            }
        }
    }
}

impl FromValue<Error> for Delegations {
    ghost reads = { delegations_of };

    #[tactic(auto, unfolding(crate::specs::Targets::delegations_of))]
    fn from_value(alloc: Global, value: &Value) -> Result<Delegations, Error> {
        let keys: TextMap<Key> = required(alloc, value, DocumentMember::Keys)?;
        let roles: Sequence<DelegatedRole> = match defaulted(
            alloc,
            value,
            DocumentMember::Roles,
            Sequence::new(alloc),
        ) {
            Ok(roles) => roles,
            Err(e) => {
                drop(keys);
                return Err(e);
            }
        };
        match others(alloc, value, &[DocumentMember::Keys, DocumentMember::Roles]) {
            Ok(extra) => Ok(Delegations { keys, roles, extra }),
            Err(NoMemory) => {
                drop(keys);
                drop(roles);
                Err(Error::NoMemory)
            }
        }
    }
}

impl Duplicate for Targets {
    fn duplicate(&self, alloc: Global) -> Result<Targets, NoMemory> {
        let Head {
            type_,
            spec_version,
            version,
            expires,
        } = Head::copied(
            alloc,
            &self.type_,
            &self.spec_version,
            self.version,
            self.expires,
        )?;
        Ok(Targets {
            type_,
            spec_version,
            version,
            expires,
            targets: self.targets.duplicate(alloc)?,
            delegations: self.delegations.duplicate(alloc)?,
            extra: self.extra.duplicate(alloc)?,
        })
    }
}

const TARGETS_MEMBERS: [DocumentMember; 6] = [
    DocumentMember::Type,
    DocumentMember::SpecVersion,
    DocumentMember::Version,
    DocumentMember::Expires,
    DocumentMember::Targets,
    DocumentMember::Delegations,
];

impl FromValue<Error> for Targets {
    ghost reads = { targets_of };

    #[tactic(auto, unfolding(crate::specs::Targets::targets_of))]
    fn from_value(alloc: Global, value: &Value) -> Result<Targets, Error> {
        let Head {
            type_,
            spec_version,
            version,
            expires,
        } = Head::from_value(alloc, value)?;
        let targets: TextMap<TargetFile> = required(alloc, value, DocumentMember::Targets)?;
        let delegations: Option<Delegations> = match optional(
            alloc,
            value,
            DocumentMember::Delegations,
        ) {
            Ok(delegations) => delegations,
            Err(e) => {
                drop(targets);
                return Err(e);
            }
        };
        match others(alloc, value, &TARGETS_MEMBERS) {
            Ok(extra) => Ok(Targets {
                type_,
                spec_version,
                version,
                expires,
                targets,
                delegations,
                extra,
            }),
            Err(NoMemory) => {
                drop(targets);
                drop(delegations);
                Err(Error::NoMemory)
            }
        }
    }
}

impl Targets {
    /// The target of that path.
    pub fn target(&self, path: &str) -> Option<&TargetFile>
        ensures { option_copied result ≡ at_name path.now self.now.targets }
    {
        self.targets.get(path)
    }
}

impl Role for Targets {
    ghost use Rattle.std.specs.Prelude.{codes};

    ghost kind = { codes "targets" };

    ghost version_in = { λ d. d.version };

    ghost expires_in = { λ d. d.expires };

    fn kind() -> &'static str {
        "targets"
    }

    fn version(&self) -> u64 {
        self.version
    }

    fn expires(&self) -> jiff::Timestamp {
        self.expires
    }
}
