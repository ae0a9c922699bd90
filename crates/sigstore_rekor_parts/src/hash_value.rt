// Hashes of log bodies.
ghost use Rattle.std.specs.Prelude.{◌≡◌};
ghost use Rattle.sigstore_rekor_parts.specs.Members.{hash_value_of};

use crate::algorithm::algorithm;
use crate::error::Error;
use crate::hex_text::HexHash;
use crate::member::RekorMember;
use foundation::{Duplicate, NoMemory};
use serde_json::Value;
use sigstore_types_parts::{FromValue, HashAlgorithm, required};
use std::alloc::Global;

/// A hash of a log body.
#[derive(PartialEq, Drop)]
pub struct HashValue {
    pub algorithm: HashAlgorithm,
    /// The hash in hexadecimal, as it is written.
    pub value: HexHash,
}

impl Duplicate for HashValue {
    fn duplicate(&self, alloc: Global) -> Result<HashValue, NoMemory> {
        Ok(HashValue {
            algorithm: self.algorithm,
            value: self.value.duplicate(alloc)?,
        })
    }
}

impl FromValue<Error> for HashValue {
    ghost reads = { hash_value_of };

    #[tactic(auto, unfolding(crate::specs::Members::hash_value_of))]
    fn from_value(alloc: Global, value: &Value) -> Result<HashValue, Error> {
        Ok(HashValue {
            algorithm: algorithm(alloc, value)?,
            value: required(alloc, value, RekorMember::Value)?,
        })
    }
}
