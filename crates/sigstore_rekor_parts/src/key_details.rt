// Details of keys in logs of Rekor's second version.
ghost use Rattle.std.specs.Prelude.{◌≡◌, Ok, Err};
ghost use Rattle.sigstore_rekor_parts.specs.Members.{key_details_name_of, key_details_of};

use crate::error::{Error, ResponseRule};
use foundation::{Duplicate, NoMemory};
use serde_json::Value;
use sigstore_types_parts::FromValue;
use std::alloc::Global;

/// The scheme and the form of a key (Sigstore protobuf specs, `PublicKeyDetails`), as far as a hashedrekord
/// entry of version 0.0.2 has it.
#[derive(Clone, Copy, Debug, PartialEq, Eq, Hash, Drop)]
pub enum RekorV2KeyDetails {
    /// ECDSA over P-256 with SHA-256.
    PkixEcdsaP256Sha256,
}

impl RekorV2KeyDetails {
    /// The name.
    pub fn as_str(self) -> &'static str
        ensures { result.now ≡ key_details_name_of self }
    {
        match self {
            RekorV2KeyDetails::PkixEcdsaP256Sha256 => "PKIX_ECDSA_P256_SHA_256",
        }
    }
}

impl Duplicate for RekorV2KeyDetails {
    fn duplicate(&self, _alloc: Global) -> Result<RekorV2KeyDetails, NoMemory> {
        Ok(*self)
    }
}

impl FromValue<Error> for RekorV2KeyDetails {
    ghost reads = { key_details_of };

    #[tactic(auto, unfolding(crate::specs::Members::key_details_of))]
    fn from_value(_alloc: Global, value: &Value) -> Result<RekorV2KeyDetails, Error> {
        match value.as_str() {
            Some(name) => if name == RekorV2KeyDetails::PkixEcdsaP256Sha256.as_str() {
                Ok(RekorV2KeyDetails::PkixEcdsaP256Sha256)
            } else {
                Err(Error::InvalidResponse {
                    rule: ResponseRule::KeyDetails,
                })
            },
            None => Err(Error::InvalidResponse {
                rule: ResponseRule::Shape,
            }),
        }
    }
}
