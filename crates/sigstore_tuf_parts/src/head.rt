// What every kind of document begins with.
ghost use Rattle.std.specs.Prelude.{◌≡◌, ◌≢◌, Ok, Err, IfOk, IfErr};
ghost use Rattle.serde_json.specs.View.{view};
ghost use Rattle.sigstore_tuf_parts.specs.Head.{head_of};

use foundation::{Duplicate, NoMemory};
use serde_json::Value;
use sigstore_tuf_text::{DocumentMember, Error};
use sigstore_types_parts::{FromValue, Text, required};
use std::alloc::Global;

/// The members that all kinds have.
#[derive(Drop)]
pub struct Head {
    pub type_: Text,
    pub spec_version: Text,
    pub version: u64,
    pub expires: jiff::Timestamp,
}

impl Head {
    /// A head of copies.
    pub fn copied(
        alloc: Global,
        type_: &Text,
        spec_version: &Text,
        version: u64,
        expires: jiff::Timestamp,
    ) -> Result<Head, NoMemory>
        ensures { IfOk result (λ head. head
            ≡ (record { type_ = type_.now; spec_version = spec_version.now; version = version; expires = expires })) }
    {
        Ok(Head {
            type_: type_.duplicate(alloc)?,
            spec_version: spec_version.duplicate(alloc)?,
            version,
            expires,
        })
    }
}

impl FromValue<Error> for Head {
    ghost reads = { head_of };

    #[tactic(auto, unfolding(crate::specs::Head::head_of))]
    fn from_value(alloc: Global, value: &Value) -> Result<Head, Error> {
        Ok(Head {
            type_: required(alloc, value, DocumentMember::Type)?,
            spec_version: required(alloc, value, DocumentMember::SpecVersion)?,
            version: required(alloc, value, DocumentMember::Version)?,
            expires: required(alloc, value, DocumentMember::Expires)?,
        })
    }
}
