// Bodies of kind dsse, version 0.0.1 (Rekor, "pluggable types").
ghost use Rattle.std.specs.Prelude.{◌≡◌, ◌≢◌, Ok, Err, IfOk, IfErr};
ghost use Rattle.sigstore_rekor_parts.specs.Dsse.{dsse_v001_of, spec_v001_of, envelope_hash_of, payload_hash_v001_of, signature_v001_of};
ghost use Rattle.sigstore_rekor_parts.specs.Armored.{held_of};

use crate::algorithm::algorithm;
use crate::armored::certificate_in;
use crate::error::Error;
use crate::member::RekorMember;
use foundation::{Duplicate, NoMemory, Sequence};
use serde_json::Value;
use sigstore_types_parts::{
    Armor, DerCertificate, FromValue, HashAlgorithm, PemContent, SignatureBytes, Text, required,
};
use std::alloc::Global;

/// What a dsse entry of version 0.0.1 logs: the signatures of an envelope.
#[derive(PartialEq, Drop)]
pub struct DsseV001Body {
    pub spec: DsseV001Spec,
}

/// The hashes of the envelope and of its payload, and the signatures.
#[derive(PartialEq, Drop)]
pub struct DsseV001Spec {
    pub envelope_hash: EnvelopeHash,
    pub payload_hash: PayloadHashV001,
    pub signatures: Sequence<DsseV001Signature>,
}

/// The hash of an envelope; its value may be any text.
#[derive(PartialEq, Drop)]
pub struct EnvelopeHash {
    pub algorithm: HashAlgorithm,
    pub value: Text,
}

/// The hash of a payload; its value may be any text.
#[derive(PartialEq, Drop)]
pub struct PayloadHashV001 {
    pub algorithm: HashAlgorithm,
    pub value: Text,
}

/// A signature of an envelope, with an armoured text of whose it is.
#[derive(PartialEq, Drop)]
pub struct DsseV001Signature {
    pub signature: SignatureBytes,
    pub verifier: PemContent,
}

impl Duplicate for DsseV001Body {
    fn duplicate(&self, alloc: Global) -> Result<DsseV001Body, NoMemory> {
        Ok(DsseV001Body {
            spec: self.spec.duplicate(alloc)?,
        })
    }
}

impl Duplicate for DsseV001Spec {
    fn duplicate(&self, alloc: Global) -> Result<DsseV001Spec, NoMemory> {
        Ok(DsseV001Spec {
            envelope_hash: self.envelope_hash.duplicate(alloc)?,
            payload_hash: self.payload_hash.duplicate(alloc)?,
            signatures: self.signatures.duplicate(alloc)?,
        })
    }
}

impl Duplicate for EnvelopeHash {
    fn duplicate(&self, alloc: Global) -> Result<EnvelopeHash, NoMemory> {
        Ok(EnvelopeHash {
            algorithm: self.algorithm,
            value: self.value.duplicate(alloc)?,
        })
    }
}

impl Duplicate for PayloadHashV001 {
    fn duplicate(&self, alloc: Global) -> Result<PayloadHashV001, NoMemory> {
        Ok(PayloadHashV001 {
            algorithm: self.algorithm,
            value: self.value.duplicate(alloc)?,
        })
    }
}

impl Duplicate for DsseV001Signature {
    fn duplicate(&self, alloc: Global) -> Result<DsseV001Signature, NoMemory> {
        Ok(DsseV001Signature {
            signature: self.signature.duplicate(alloc)?,
            verifier: self.verifier.duplicate(alloc)?,
        })
    }
}

impl FromValue<Error> for DsseV001Body {
    ghost reads = { dsse_v001_of };

    #[tactic(auto, unfolding(crate::specs::Dsse::dsse_v001_of))]
    fn from_value(alloc: Global, value: &Value) -> Result<DsseV001Body, Error> {
        Ok(DsseV001Body {
            spec: required(alloc, value, RekorMember::Spec)?,
        })
    }
}

impl FromValue<Error> for DsseV001Spec {
    ghost reads = { spec_v001_of };

    #[tactic(auto, unfolding(crate::specs::Dsse::spec_v001_of))]
    fn from_value(alloc: Global, value: &Value) -> Result<DsseV001Spec, Error> {
        Ok(DsseV001Spec {
            envelope_hash: required(alloc, value, RekorMember::EnvelopeHash)?,
            payload_hash: required(alloc, value, RekorMember::PayloadHash)?,
            signatures: required(alloc, value, RekorMember::Signatures)?,
        })
    }
}

impl FromValue<Error> for EnvelopeHash {
    ghost reads = { envelope_hash_of };

    #[tactic(auto, unfolding(crate::specs::Dsse::envelope_hash_of))]
    fn from_value(alloc: Global, value: &Value) -> Result<EnvelopeHash, Error> {
        Ok(EnvelopeHash {
            algorithm: algorithm(alloc, value)?,
            value: required(alloc, value, RekorMember::Value)?,
        })
    }
}

impl FromValue<Error> for PayloadHashV001 {
    ghost reads = { payload_hash_v001_of };

    #[tactic(auto, unfolding(crate::specs::Dsse::payload_hash_v001_of))]
    fn from_value(alloc: Global, value: &Value) -> Result<PayloadHashV001, Error> {
        Ok(PayloadHashV001 {
            algorithm: algorithm(alloc, value)?,
            value: required(alloc, value, RekorMember::Value)?,
        })
    }
}

impl FromValue<Error> for DsseV001Signature {
    ghost reads = { signature_v001_of };

    #[tactic(auto, unfolding(crate::specs::Dsse::signature_v001_of))]
    fn from_value(alloc: Global, value: &Value) -> Result<DsseV001Signature, Error> {
        Ok(DsseV001Signature {
            signature: required(alloc, value, RekorMember::Signature)?,
            verifier: required(alloc, value, RekorMember::Verifier)?,
        })
    }
}

impl DsseV001Signature {
    /// The certificate that the text holds. Errors: `InvalidResponse` with `Armor` where it holds none.
    pub fn parse_certificate<M: Armor>(
        &self,
        alloc: Global,
        armor: &M,
    ) -> Result<DerCertificate, Error>
        ensures ok { IfOk result (λ c. held_of (M.certificate_in armor.now) self.now.verifier ≡ Ok c) }
        ensures err { IfErr result
            (λ e. e ≢ Error.NoMemory → held_of (M.certificate_in armor.now) self.now.verifier ≡ Err e) }
    {
        match certificate_in(alloc, armor, &self.verifier) {
            Ok(certificate) => Ok(certificate),
            Err(e) => Err(e),
        }
    }
}
