// Kinds of entries.
ghost use Rattle.std.specs.Prelude.{◌≡◌, Ok, Err};
ghost use Rattle.sigstore_entries.specs.Entry.{kind_name_of, version_name_of, is_named, kind_named, kind_version_of};

use foundation::{Duplicate, NoMemory};
use serde_json::Value;
use sigstore_types_parts::{FromValue, Text, TypesError, TypesMember, required};
use std::alloc::Global;

/// A kind of entries, with the version of its body's format (Rekor, "pluggable types").
#[derive(Clone, Copy, Debug, PartialEq, Eq, Drop)]
pub enum KindVersion {
    HashedRekordV001,
    HashedRekordV002,
    DsseV001,
    DsseV002,
    IntotoV002,
}

impl KindVersion {
    /// The kind's name.
    pub fn kind(self) -> &'static str
        ensures { result.now ≡ kind_name_of self }
    {
        match self {
            KindVersion::HashedRekordV001 | KindVersion::HashedRekordV002 => "hashedrekord",
            KindVersion::DsseV001 | KindVersion::DsseV002 => "dsse",
            KindVersion::IntotoV002 => "intoto",
        }
    }

    /// The version's name.
    pub fn version(self) -> &'static str
        ensures { result.now ≡ version_name_of self }
    {
        match self {
            KindVersion::HashedRekordV001 | KindVersion::DsseV001 => "0.0.1",
            KindVersion::HashedRekordV002 | KindVersion::DsseV002 | KindVersion::IntotoV002 => {
                "0.0.2"
            }
        }
    }

    fn is_named(self, kind: &str, version: &str) -> bool
        ensures { result ≡ is_named kind.now version.now self }
    {
        kind == self.kind() && version == self.version()
    }

    /// The kind that a name and a version name together. Errors: `Kind` for any other pair.
    pub fn named(kind: &str, version: &str) -> Result<KindVersion, TypesError>
        ensures { result ≡ kind_named kind.now version.now }
    {
        if KindVersion::HashedRekordV001.is_named(kind, version) {
            Ok(KindVersion::HashedRekordV001)
        } else if KindVersion::HashedRekordV002.is_named(kind, version) {
            Ok(KindVersion::HashedRekordV002)
        } else if KindVersion::DsseV001.is_named(kind, version) {
            Ok(KindVersion::DsseV001)
        } else if KindVersion::DsseV002.is_named(kind, version) {
            Ok(KindVersion::DsseV002)
        } else if KindVersion::IntotoV002.is_named(kind, version) {
            Ok(KindVersion::IntotoV002)
        } else {
            Err(TypesError::Kind)
        }
    }
}

impl Duplicate for KindVersion {
    fn duplicate(&self, _alloc: Global) -> Result<KindVersion, NoMemory> {
        Ok(*self)
    }
}

impl FromValue<TypesError> for KindVersion {
    ghost reads = { kind_version_of };

    #[tactic(auto, unfolding(crate::specs::Entry::kind_version_of))]
    fn from_value(alloc: Global, value: &Value) -> Result<KindVersion, TypesError> {
        let kind: Text = required(alloc, value, TypesMember::Kind)?;
        let version: Text = required(alloc, value, TypesMember::Version)?;
        Ok(KindVersion::named(kind.as_str(), version.as_str())?)
    }
}
