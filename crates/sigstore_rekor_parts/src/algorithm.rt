// Digest algorithms of log bodies.
ghost use Rattle.std.specs.Prelude.{◌≡◌, ◌≢◌, Ok, Err, IfOk, IfErr};
ghost use Rattle.serde_json.specs.View.{view};
ghost use Rattle.sigstore_rekor_parts.specs.Members.{algorithm_of};

use crate::error::{Error, ResponseRule};
use crate::member::RekorMember;
use serde_json::Value;
use sigstore_types_parts::{HashAlgorithm, Text, required};
use std::alloc::Global;

// The algorithm of an object.
#[tactic(auto, unfolding(crate::specs::Members::algorithm_of))]
pub(crate) fn algorithm(alloc: Global, value: &Value) -> Result<HashAlgorithm, Error>
    ensures ok { IfOk result (λ v. algorithm_of (view value.now) ≡ Ok v) }
    ensures err { IfErr result (λ e. e ≢ Error.NoMemory → algorithm_of (view value.now) ≡ Err e) }
{
    let name: Text = required(alloc, value, RekorMember::Algorithm)?;
    match HashAlgorithm::from_name(name.as_str()) {
        Some(algorithm) => Ok(algorithm),
        None => Err(Error::InvalidResponse {
            rule: ResponseRule::Algorithm,
        }),
    }
}
