// Envelopes as they are written.
ghost use Rattle.std.specs.Prelude.{◌≡◌, [], ◌∷◌, IfOk};
ghost use Rattle.serde_json.specs.View.{view};
ghost use Rattle.sigstore_entries.specs.Writing.{list_data};
ghost use Rattle.sigstore_envelopes.specs.Written.{signature_data, envelope_data};

use crate::envelope::{DsseEnvelope, DsseSignature};
use foundation::NoMemory;
use serde_json::{Map, Value};
use sigstore_entries::{ToValue, put, put_text, put_value};
use sigstore_types_parts::TypesMember;
use std::alloc::Global;

impl ToValue for DsseSignature {
    ghost writes = { signature_data };

    #[tactic(auto, unfolding(crate::specs::Written::signature_data))]
    fn to_value(&self, alloc: Global) -> Result<Value, NoMemory> {
        let mut members = Map::new(alloc);
        put(alloc, &mut members, TypesMember::Sig, &self.sig)?;
        put_text(
            alloc,
            &mut members,
            TypesMember::SignatureKeyid,
            self.keyid.as_str(),
        )?;
        Ok(Value::Object(members))
    }
}

// The list of the only signature.
fn only(alloc: Global, signature: &DsseSignature) -> Result<Value, NoMemory>
    ensures { IfOk result (λ v. view v ≡ list_data signature_data (signature.now ∷ [])) }
{
    let value = signature.to_value(alloc)?;
    let mut values = Vec::new(alloc);
    values.push(value)?;
    Ok(Value::Array(values))
}

impl ToValue for DsseEnvelope {
    ghost writes = { envelope_data };

    #[tactic(auto, unfolding(crate::specs::Written::envelope_data))]
    fn to_value(&self, alloc: Global) -> Result<Value, NoMemory> {
        let mut members = Map::new(alloc);
        let signatures = only(alloc, &self.signature)?;
        put_value(
            alloc,
            &mut members,
            TypesMember::Signatures,
            Some(signatures),
        )?;
        put(
            alloc,
            &mut members,
            TypesMember::PayloadType,
            &self.payload_type,
        )?;
        put(alloc, &mut members, TypesMember::Payload, &self.payload)?;
        Ok(Value::Object(members))
    }
}
