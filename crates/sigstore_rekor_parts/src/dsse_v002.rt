// Bodies of kind dsse, version 0.0.2 (Rekor, "rekor-tiles").
ghost use Rattle.std.specs.Prelude.{◌≡◌};
ghost use Rattle.sigstore_rekor_parts.specs.Dsse.{dsse_v002_of, spec_v002_of, data_v002_of, payload_hash_of, signature_v002_of, verifier_v002_of};

use crate::algorithm::algorithm;
use crate::error::Error;
use crate::member::RekorMember;
use crate::raw::{PublicKeyRaw, X509CertificateRaw};
use foundation::{Duplicate, NoMemory, Sequence};
use serde_json::Value;
use sigstore_types_parts::{
    DigestBytes, FromValue, HashAlgorithm, SignatureBytes, Text, optional, required,
};
use std::alloc::Global;

/// What a dsse entry of version 0.0.2 logs: the signatures of an envelope.
#[derive(PartialEq, Drop)]
pub struct DsseV002Body {
    pub spec: DsseV002Spec,
}

/// The content of that body.
#[derive(PartialEq, Drop)]
pub struct DsseV002Spec {
    pub dsse_v002: DsseV002Data,
}

/// The hash of the payload, and the signatures.
#[derive(PartialEq, Drop)]
pub struct DsseV002Data {
    pub payload_hash: PayloadHash,
    pub signatures: Sequence<DsseV002Signature>,
}

/// The digest of a payload; it may have any length.
#[derive(PartialEq, Drop)]
pub struct PayloadHash {
    pub algorithm: HashAlgorithm,
    pub digest: DigestBytes,
}

/// A signature of an envelope, and whose it is.
#[derive(PartialEq, Drop)]
pub struct DsseV002Signature {
    pub content: SignatureBytes,
    pub verifier: DsseV002Verifier,
}

/// The certificate or the key of a signature; both may be there.
#[derive(PartialEq, Drop)]
pub struct DsseV002Verifier {
    /// The scheme and the form of the key, as they are named.
    pub key_details: Text,
    pub x509_certificate: Option<X509CertificateRaw>,
    pub public_key: Option<PublicKeyRaw>,
}

impl Duplicate for DsseV002Body {
    fn duplicate(&self, alloc: Global) -> Result<DsseV002Body, NoMemory> {
        Ok(DsseV002Body {
            spec: self.spec.duplicate(alloc)?,
        })
    }
}

impl Duplicate for DsseV002Spec {
    fn duplicate(&self, alloc: Global) -> Result<DsseV002Spec, NoMemory> {
        Ok(DsseV002Spec {
            dsse_v002: self.dsse_v002.duplicate(alloc)?,
        })
    }
}

impl Duplicate for DsseV002Data {
    fn duplicate(&self, alloc: Global) -> Result<DsseV002Data, NoMemory> {
        Ok(DsseV002Data {
            payload_hash: self.payload_hash.duplicate(alloc)?,
            signatures: self.signatures.duplicate(alloc)?,
        })
    }
}

impl Duplicate for PayloadHash {
    fn duplicate(&self, alloc: Global) -> Result<PayloadHash, NoMemory> {
        Ok(PayloadHash {
            algorithm: self.algorithm,
            digest: self.digest.duplicate(alloc)?,
        })
    }
}

impl Duplicate for DsseV002Signature {
    fn duplicate(&self, alloc: Global) -> Result<DsseV002Signature, NoMemory> {
        Ok(DsseV002Signature {
            content: self.content.duplicate(alloc)?,
            verifier: self.verifier.duplicate(alloc)?,
        })
    }
}

impl Duplicate for DsseV002Verifier {
    fn duplicate(&self, alloc: Global) -> Result<DsseV002Verifier, NoMemory> {
        Ok(DsseV002Verifier {
            key_details: self.key_details.duplicate(alloc)?,
            x509_certificate: self.x509_certificate.duplicate(alloc)?,
            public_key: self.public_key.duplicate(alloc)?,
        })
    }
}

impl FromValue<Error> for DsseV002Body {
    ghost reads = { dsse_v002_of };

    #[tactic(auto, unfolding(crate::specs::Dsse::dsse_v002_of))]
    fn from_value(alloc: Global, value: &Value) -> Result<DsseV002Body, Error> {
        Ok(DsseV002Body {
            spec: required(alloc, value, RekorMember::Spec)?,
        })
    }
}

impl FromValue<Error> for DsseV002Spec {
    ghost reads = { spec_v002_of };

    #[tactic(auto, unfolding(crate::specs::Dsse::spec_v002_of))]
    fn from_value(alloc: Global, value: &Value) -> Result<DsseV002Spec, Error> {
        Ok(DsseV002Spec {
            dsse_v002: required(alloc, value, RekorMember::DsseV002)?,
        })
    }
}

impl FromValue<Error> for DsseV002Data {
    ghost reads = { data_v002_of };

    #[tactic(auto, unfolding(crate::specs::Dsse::data_v002_of))]
    fn from_value(alloc: Global, value: &Value) -> Result<DsseV002Data, Error> {
        Ok(DsseV002Data {
            payload_hash: required(alloc, value, RekorMember::PayloadHash)?,
            signatures: required(alloc, value, RekorMember::Signatures)?,
        })
    }
}

impl FromValue<Error> for PayloadHash {
    ghost reads = { payload_hash_of };

    #[tactic(auto, unfolding(crate::specs::Dsse::payload_hash_of))]
    fn from_value(alloc: Global, value: &Value) -> Result<PayloadHash, Error> {
        Ok(PayloadHash {
            algorithm: algorithm(alloc, value)?,
            digest: required(alloc, value, RekorMember::Digest)?,
        })
    }
}

impl FromValue<Error> for DsseV002Signature {
    ghost reads = { signature_v002_of };

    #[tactic(auto, unfolding(crate::specs::Dsse::signature_v002_of))]
    fn from_value(alloc: Global, value: &Value) -> Result<DsseV002Signature, Error> {
        Ok(DsseV002Signature {
            content: required(alloc, value, RekorMember::Content)?,
            verifier: required(alloc, value, RekorMember::Verifier)?,
        })
    }
}

impl FromValue<Error> for DsseV002Verifier {
    ghost reads = { verifier_v002_of };

    #[tactic(auto, unfolding(crate::specs::Dsse::verifier_v002_of))]
    fn from_value(alloc: Global, value: &Value) -> Result<DsseV002Verifier, Error> {
        Ok(DsseV002Verifier {
            key_details: required(alloc, value, RekorMember::KeyDetails)?,
            x509_certificate: optional(alloc, value, RekorMember::X509Certificate)?,
            public_key: optional(alloc, value, RekorMember::PublicKey)?,
        })
    }
}
