// What a bundle signs: a message by its digest, or an envelope.
ghost use Rattle.std.specs.Prelude.{◌≡◌, ◌≢◌, Ok, Err, IfOk, IfErr};
ghost use Rattle.serde_json.specs.View.{view};
ghost use Rattle.sigstore_types.specs.Bundle.{algorithm_of, message_digest_of, message_signature_of, one_content_of, content_of};

use foundation::{Duplicate, NoMemory};
use serde_json::Value;
use sigstore_envelopes::DsseEnvelope;
use sigstore_types_parts::{
    DigestBytes, FromValue, HashAlgorithm, SignatureBytes, Text, TypesError, TypesMember, optional,
    required,
};
use std::alloc::Global;

/// What a bundle signs.
#[derive(Debug, PartialEq, Drop)]
pub enum SignatureContent {
    MessageSignature(MessageSignature),
    DsseEnvelope(DsseEnvelope),
}

/// A signature over a message, with the message's digest where the bundle tells it.
#[derive(Debug, PartialEq, Drop)]
pub struct MessageSignature {
    pub message_digest: Option<MessageDigest>,
    pub signature: SignatureBytes,
}

/// The digest that a bundle tells of its message; it may have any length.
#[derive(Debug, PartialEq, Drop)]
pub struct MessageDigest {
    pub algorithm: HashAlgorithm,
    pub digest: DigestBytes,
}

impl Duplicate for SignatureContent {
    fn duplicate(&self, alloc: Global) -> Result<SignatureContent, NoMemory> {
        match self {
            SignatureContent::MessageSignature(message) => {
                Ok(SignatureContent::MessageSignature(message.duplicate(alloc)?))
            }
            SignatureContent::DsseEnvelope(envelope) => {
                Ok(SignatureContent::DsseEnvelope(envelope.duplicate(alloc)?))
            }
        }
    }
}

impl Duplicate for MessageSignature {
    fn duplicate(&self, alloc: Global) -> Result<MessageSignature, NoMemory> {
        Ok(MessageSignature {
            message_digest: self.message_digest.duplicate(alloc)?,
            signature: self.signature.duplicate(alloc)?,
        })
    }
}

impl Duplicate for MessageDigest {
    fn duplicate(&self, alloc: Global) -> Result<MessageDigest, NoMemory> {
        Ok(MessageDigest {
            algorithm: self.algorithm,
            digest: self.digest.duplicate(alloc)?,
        })
    }
}

#[tactic(auto, unfolding(crate::specs::Bundle::algorithm_of))]
fn read_algorithm(alloc: Global, value: &Value) -> Result<HashAlgorithm, TypesError>
    ensures ok { IfOk result (λ v. algorithm_of (view value.now) ≡ Ok v) }
    ensures err { IfErr result (λ e. e ≢ TypesError.NoMemory → algorithm_of (view value.now) ≡ Err e) }
{
    let name: Text = required(alloc, value, TypesMember::Algorithm)?;
    match HashAlgorithm::from_name(name.as_str()) {
        Some(algorithm) => Ok(algorithm),
        None => Err(TypesError::Field {
            member: TypesMember::Algorithm,
        }),
    }
}

impl FromValue<TypesError> for MessageDigest {
    ghost reads = { message_digest_of };

    #[tactic(auto, unfolding(crate::specs::Bundle::message_digest_of))]
    fn from_value(alloc: Global, value: &Value) -> Result<MessageDigest, TypesError> {
        Ok(MessageDigest {
            algorithm: read_algorithm(alloc, value)?,
            digest: required(alloc, value, TypesMember::Digest)?,
        })
    }
}

impl FromValue<TypesError> for MessageSignature {
    ghost reads = { message_signature_of };

    #[tactic(auto, unfolding(crate::specs::Bundle::message_signature_of))]
    fn from_value(alloc: Global, value: &Value) -> Result<MessageSignature, TypesError> {
        Ok(MessageSignature {
            message_digest: optional(alloc, value, TypesMember::MessageDigest)?,
            signature: required(alloc, value, TypesMember::Signature)?,
        })
    }
}

// The only one of two contents.
fn one_content(
    message: Option<MessageSignature>,
    envelope: Option<DsseEnvelope>,
) -> Result<SignatureContent, TypesError>
    ensures { result ≡ one_content_of message envelope }
{
    match (message, envelope) {
        (Some(message), None) => Ok(SignatureContent::MessageSignature(message)),
        (None, Some(envelope)) => Ok(SignatureContent::DsseEnvelope(envelope)),
        _ => Err(TypesError::Json),
    }
}

// Exactly one of a message signature and an envelope.
#[tactic(auto, unfolding(crate::specs::Bundle::content_of))]
pub(crate) fn read_content(alloc: Global, value: &Value) -> Result<SignatureContent, TypesError>
    ensures ok { IfOk result (λ v. content_of (view value.now) ≡ Ok v) }
    ensures err { IfErr result (λ e. e ≢ TypesError.NoMemory → content_of (view value.now) ≡ Err e) }
{
    let message = optional(alloc, value, TypesMember::MessageSignature)?;
    let envelope = optional(alloc, value, TypesMember::DsseEnvelope)?;
    Ok(one_content(message, envelope)?)
}
