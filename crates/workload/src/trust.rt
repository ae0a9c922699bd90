// The trust file.
ghost use Rattle.std.specs.Prelude.{◌≡◌, IfOk};
ghost use Rattle.serde_json.specs.View.{view};
ghost use Rattle.workload.specs.Trust.{log_value, trust_value, trust_file};

use crate::{in_base64, log_id, spki};
use foundation::NoMemory;
use serde_json::{Value, json};
use sigstore_types_parts::Bytes;
use std::alloc::Global;

#[tactic(auto, unfolding(crate::specs::Trust::log_value))]
fn log_value(alloc: Global) -> Result<Value, NoMemory>
    ensures { IfOk result (λ log. view log ≡ log_value) }
{
    let id = log_id(alloc)?;
    let key = spki(alloc)?;
    let id = in_base64(alloc, id.as_bytes())?;
    let key = in_base64(alloc, key.as_bytes())?;
    Ok(json!(in alloc; {"logId": {"keyId": &id}, "publicKey": {"rawBytes": &key}})?)
}

#[tactic(auto, unfolding(crate::specs::Trust::trust_value))]
fn trust_value(alloc: Global) -> Result<Value, NoMemory>
    ensures { IfOk result (λ trust. view trust ≡ trust_value) }
{
    let log = log_value(alloc)?;
    Ok(json!(in alloc; {"tlogs": [log]})?)
}

/// The trust file, which lists one transparency log under the one key.
#[tactic(auto, unfolding(crate::specs::Trust::trust_file, crate::specs::Trust::trust_value, crate::specs::Trust::log_value))]
pub fn trust_file(alloc: Global) -> Result<Bytes, NoMemory>
    ensures { IfOk result (λ file. file ≡ trust_file) }
{
    let trust = trust_value(alloc)?;
    let text = trust.to_string(alloc)?;
    Ok(Bytes::from_vec(text.into_bytes()))
}
