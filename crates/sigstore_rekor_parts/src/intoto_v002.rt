// Bodies of kind intoto, version 0.0.2 (Rekor, "pluggable types").
ghost use Rattle.std.specs.Prelude.{◌≡◌, ◌≢◌, Ok, Err, IfOk, IfErr};
ghost use Rattle.sigstore_rekor_parts.specs.Intoto.{intoto_v002_of, spec_of, content_of, envelope_of, signature_of};
ghost use Rattle.sigstore_rekor_parts.specs.Armored.{held_of};

use crate::armored::{certificate_in, key_in};
use crate::error::Error;
use crate::hash_value::HashValue;
use crate::member::RekorMember;
use foundation::{Duplicate, NoMemory, Sequence};
use serde_json::Value;
use sigstore_types_parts::{
    Armor, DerCertificate, DerPublicKey, FromValue, PemContent, SignatureBytes, Text, optional,
    required,
};
use std::alloc::Global;

/// What an intoto entry of version 0.0.2 logs: an envelope without its payload.
#[derive(PartialEq, Drop)]
pub struct IntotoV002Body {
    pub spec: IntotoV002Spec,
}

/// The content of that body.
#[derive(PartialEq, Drop)]
pub struct IntotoV002Spec {
    pub content: IntotoV002Content,
}

/// The envelope, its hash, and that of its payload.
#[derive(PartialEq, Drop)]
pub struct IntotoV002Content {
    pub envelope: IntotoEnvelope,
    pub hash: HashValue,
    pub payload_hash: HashValue,
}

/// An envelope without its payload.
#[derive(PartialEq, Drop)]
pub struct IntotoEnvelope {
    pub payload_type: Text,
    pub signatures: Sequence<IntotoSignature>,
}

/// A signature of an envelope, with an armoured text of whose it is.
#[derive(PartialEq, Drop)]
pub struct IntotoSignature {
    pub keyid: Option<Text>,
    /// The base64 text of the signature, which is read where it is compared.
    pub sig: SignatureBytes,
    pub public_key: PemContent,
}

impl Duplicate for IntotoV002Body {
    fn duplicate(&self, alloc: Global) -> Result<IntotoV002Body, NoMemory> {
        Ok(IntotoV002Body {
            spec: self.spec.duplicate(alloc)?,
        })
    }
}

impl Duplicate for IntotoV002Spec {
    fn duplicate(&self, alloc: Global) -> Result<IntotoV002Spec, NoMemory> {
        Ok(IntotoV002Spec {
            content: self.content.duplicate(alloc)?,
        })
    }
}

impl Duplicate for IntotoV002Content {
    fn duplicate(&self, alloc: Global) -> Result<IntotoV002Content, NoMemory> {
        Ok(IntotoV002Content {
            envelope: self.envelope.duplicate(alloc)?,
            hash: self.hash.duplicate(alloc)?,
            payload_hash: self.payload_hash.duplicate(alloc)?,
        })
    }
}

impl Duplicate for IntotoEnvelope {
    fn duplicate(&self, alloc: Global) -> Result<IntotoEnvelope, NoMemory> {
        Ok(IntotoEnvelope {
            payload_type: self.payload_type.duplicate(alloc)?,
            signatures: self.signatures.duplicate(alloc)?,
        })
    }
}

impl Duplicate for IntotoSignature {
    fn duplicate(&self, alloc: Global) -> Result<IntotoSignature, NoMemory> {
        Ok(IntotoSignature {
            keyid: self.keyid.duplicate(alloc)?,
            sig: self.sig.duplicate(alloc)?,
            public_key: self.public_key.duplicate(alloc)?,
        })
    }
}

impl FromValue<Error> for IntotoV002Body {
    ghost reads = { intoto_v002_of };

    #[tactic(auto, unfolding(crate::specs::Intoto::intoto_v002_of))]
    fn from_value(alloc: Global, value: &Value) -> Result<IntotoV002Body, Error> {
        Ok(IntotoV002Body {
            spec: required(alloc, value, RekorMember::Spec)?,
        })
    }
}

impl FromValue<Error> for IntotoV002Spec {
    ghost reads = { spec_of };

    #[tactic(auto, unfolding(crate::specs::Intoto::spec_of))]
    fn from_value(alloc: Global, value: &Value) -> Result<IntotoV002Spec, Error> {
        Ok(IntotoV002Spec {
            content: required(alloc, value, RekorMember::Content)?,
        })
    }
}

impl FromValue<Error> for IntotoV002Content {
    ghost reads = { content_of };

    #[tactic(auto, unfolding(crate::specs::Intoto::content_of))]
    fn from_value(alloc: Global, value: &Value) -> Result<IntotoV002Content, Error> {
        Ok(IntotoV002Content {
            envelope: required(alloc, value, RekorMember::Envelope)?,
            hash: required(alloc, value, RekorMember::Hash)?,
            payload_hash: required(alloc, value, RekorMember::PayloadHash)?,
        })
    }
}

impl FromValue<Error> for IntotoEnvelope {
    ghost reads = { envelope_of };

    #[tactic(auto, unfolding(crate::specs::Intoto::envelope_of))]
    fn from_value(alloc: Global, value: &Value) -> Result<IntotoEnvelope, Error> {
        Ok(IntotoEnvelope {
            payload_type: required(alloc, value, RekorMember::PayloadType)?,
            signatures: required(alloc, value, RekorMember::Signatures)?,
        })
    }
}

impl FromValue<Error> for IntotoSignature {
    ghost reads = { signature_of };

    #[tactic(auto, unfolding(crate::specs::Intoto::signature_of))]
    fn from_value(alloc: Global, value: &Value) -> Result<IntotoSignature, Error> {
        Ok(IntotoSignature {
            keyid: optional(alloc, value, RekorMember::SignatureKeyid)?,
            sig: required(alloc, value, RekorMember::Sig)?,
            public_key: required(alloc, value, RekorMember::PublicKey)?,
        })
    }
}

impl IntotoSignature {
    /// The certificate that the text holds. Errors: `InvalidResponse` with `Armor` where it holds none.
    pub fn parse_certificate<M: Armor>(
        &self,
        alloc: Global,
        armor: &M,
    ) -> Result<DerCertificate, Error>
        ensures ok { IfOk result (λ c. held_of (M.certificate_in armor.now) self.now.public_key ≡ Ok c) }
        ensures err { IfErr result
            (λ e. e ≢ Error.NoMemory → held_of (M.certificate_in armor.now) self.now.public_key ≡ Err e) }
    {
        match certificate_in(alloc, armor, &self.public_key) {
            Ok(certificate) => Ok(certificate),
            Err(e) => Err(e),
        }
    }

    /// The public key that the text holds. Errors: `InvalidResponse` with `Armor` where it holds none.
    pub fn parse_public_key<M: Armor>(
        &self,
        alloc: Global,
        armor: &M,
    ) -> Result<DerPublicKey, Error>
        ensures ok { IfOk result (λ k. held_of (M.key_in armor.now) self.now.public_key ≡ Ok k) }
        ensures err { IfErr result
            (λ e. e ≢ Error.NoMemory → held_of (M.key_in armor.now) self.now.public_key ≡ Err e) }
    {
        match key_in(alloc, armor, &self.public_key) {
            Ok(key) => Ok(key),
            Err(e) => Err(e),
        }
    }
}
