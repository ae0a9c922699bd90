// Envelopes.
ghost use Rattle.std.specs.Prelude.{◌≡◌, ◌≢◌, Ok, Err, IfOk, IfErr};
ghost use Rattle.sigstore_envelopes.specs.Envelope.{signature_of, only_of, envelope_of};

use crate::key_id::{KeyId, key_id};
use foundation::{Duplicate, NoMemory, Sequence};
use serde_json::Value;
use sigstore_types_parts::{
    FromValue, PayloadBytes, SignatureBytes, Text, TypesError, TypesMember, optional, required,
};
use std::alloc::Global;

/// A payload with its type and one signature over both (DSSE, envelope.md).
#[derive(Debug, PartialEq, Drop)]
pub struct DsseEnvelope {
    pub payload_type: Text,
    pub payload: PayloadBytes,
    pub signature: DsseSignature,
}

/// A signature of an envelope.
#[derive(Debug, PartialEq, Drop)]
pub struct DsseSignature {
    pub sig: SignatureBytes,
    /// The key that it names; the empty text where it names none.
    pub keyid: KeyId,
}

impl Duplicate for DsseEnvelope {
    fn duplicate(&self, alloc: Global) -> Result<DsseEnvelope, NoMemory> {
        Ok(DsseEnvelope {
            payload_type: self.payload_type.duplicate(alloc)?,
            payload: self.payload.duplicate(alloc)?,
            signature: self.signature.duplicate(alloc)?,
        })
    }
}

impl Duplicate for DsseSignature {
    fn duplicate(&self, alloc: Global) -> Result<DsseSignature, NoMemory> {
        Ok(DsseSignature {
            sig: self.sig.duplicate(alloc)?,
            keyid: self.keyid.duplicate(alloc)?,
        })
    }
}

impl FromValue<TypesError> for DsseSignature {
    ghost reads = { signature_of };

    #[tactic(auto, unfolding(crate::specs::Envelope::signature_of))]
    fn from_value(alloc: Global, value: &Value) -> Result<DsseSignature, TypesError> {
        let sig = required(alloc, value, TypesMember::Sig)?;
        let keyid: Option<Text> = optional(alloc, value, TypesMember::SignatureKeyid)?;
        Ok(DsseSignature {
            sig,
            keyid: key_id(alloc, keyid),
        })
    }
}

// The only signature of a list.
fn only(list: Sequence<DsseSignature>) -> Result<DsseSignature, TypesError>
    ensures { result ≡ only_of list }
{
    let mut signatures = list.into_vec();
    match signatures.pop() {
        Some(signature) => if signatures.is_empty() {
            Ok(signature)
        } else {
            Err(TypesError::Field {
                member: TypesMember::Signatures,
            })
        },
        None => Err(TypesError::Field {
            member: TypesMember::Signatures,
        }),
    }
}

impl FromValue<TypesError> for DsseEnvelope {
    ghost reads = { envelope_of };

    #[tactic(auto, unfolding(crate::specs::Envelope::envelope_of))]
    fn from_value(alloc: Global, value: &Value) -> Result<DsseEnvelope, TypesError> {
        let payload = required(alloc, value, TypesMember::Payload)?;
        let payload_type = required(alloc, value, TypesMember::PayloadType)?;
        let signatures: Sequence<DsseSignature> = required(alloc, value, TypesMember::Signatures)?;
        Ok(DsseEnvelope {
            payload_type,
            payload,
            signature: only(signatures)?,
        })
    }
}
