// Bodies of kind hashedrekord, version 0.0.2 (Rekor, "rekor-tiles").
ghost use Rattle.std.specs.Prelude.{◌≡◌};
ghost use Rattle.sigstore_rekor_parts.specs.HashedRekord.{hashed_rekord_v002_of, spec_v002_of, data_v002_of, digest_v002_of, signature_v002_of, verifier_v002_of};

use crate::algorithm::algorithm;
use crate::error::Error;
use crate::key_details::RekorV2KeyDetails;
use crate::member::RekorMember;
use crate::raw::{PublicKeyRaw, X509CertificateRaw};
use foundation::{Duplicate, NoMemory};
use serde_json::Value;
use sigstore_types_parts::{
    DigestBytes, FromValue, HashAlgorithm, SignatureBytes, optional, required,
};
use std::alloc::Global;

/// What a hashedrekord entry of version 0.0.2 logs: a signature over a digest.
#[derive(PartialEq, Drop)]
pub struct HashedRekordV002Body {
    pub spec: HashedRekordV002Spec,
}

/// The content of that body.
#[derive(PartialEq, Drop)]
pub struct HashedRekordV002Spec {
    pub hashed_rekord_v002: HashedRekordV002Data,
}

/// The digest and the signature.
#[derive(PartialEq, Drop)]
pub struct HashedRekordV002Data {
    pub data_: HashedRekordV002DataInner,
    pub signature: HashedRekordV002Signature,
}

/// The digest of what is signed; it may have any length.
#[derive(PartialEq, Drop)]
pub struct HashedRekordV002DataInner {
    pub algorithm: HashAlgorithm,
    pub digest: DigestBytes,
}

/// The signature, and whose it is.
#[derive(PartialEq, Drop)]
pub struct HashedRekordV002Signature {
    pub content: SignatureBytes,
    pub verifier: HashedRekordV002Verifier,
}

/// The certificate or the key of a signature; both may be there.
#[derive(PartialEq, Drop)]
pub struct HashedRekordV002Verifier {
    pub key_details: RekorV2KeyDetails,
    pub x509_certificate: Option<X509CertificateRaw>,
    pub public_key: Option<PublicKeyRaw>,
}

impl Duplicate for HashedRekordV002Body {
    fn duplicate(&self, alloc: Global) -> Result<HashedRekordV002Body, NoMemory> {
        Ok(HashedRekordV002Body {
            spec: self.spec.duplicate(alloc)?,
        })
    }
}

impl Duplicate for HashedRekordV002Spec {
    fn duplicate(&self, alloc: Global) -> Result<HashedRekordV002Spec, NoMemory> {
        Ok(HashedRekordV002Spec {
            hashed_rekord_v002: self.hashed_rekord_v002.duplicate(alloc)?,
        })
    }
}

impl Duplicate for HashedRekordV002Data {
    fn duplicate(&self, alloc: Global) -> Result<HashedRekordV002Data, NoMemory> {
        Ok(HashedRekordV002Data {
            data_: self.data_.duplicate(alloc)?,
            signature: self.signature.duplicate(alloc)?,
        })
    }
}

impl Duplicate for HashedRekordV002DataInner {
    fn duplicate(&self, alloc: Global) -> Result<HashedRekordV002DataInner, NoMemory> {
        Ok(HashedRekordV002DataInner {
            algorithm: self.algorithm,
            digest: self.digest.duplicate(alloc)?,
        })
    }
}

impl Duplicate for HashedRekordV002Signature {
    fn duplicate(&self, alloc: Global) -> Result<HashedRekordV002Signature, NoMemory> {
        Ok(HashedRekordV002Signature {
            content: self.content.duplicate(alloc)?,
            verifier: self.verifier.duplicate(alloc)?,
        })
    }
}

impl Duplicate for HashedRekordV002Verifier {
    fn duplicate(&self, alloc: Global) -> Result<HashedRekordV002Verifier, NoMemory> {
        Ok(HashedRekordV002Verifier {
            key_details: self.key_details,
            x509_certificate: self.x509_certificate.duplicate(alloc)?,
            public_key: self.public_key.duplicate(alloc)?,
        })
    }
}

impl FromValue<Error> for HashedRekordV002Body {
    ghost reads = { hashed_rekord_v002_of };

    #[tactic(auto, unfolding(crate::specs::HashedRekord::hashed_rekord_v002_of))]
    fn from_value(alloc: Global, value: &Value) -> Result<HashedRekordV002Body, Error> {
        Ok(HashedRekordV002Body {
            spec: required(alloc, value, RekorMember::Spec)?,
        })
    }
}

impl FromValue<Error> for HashedRekordV002Spec {
    ghost reads = { spec_v002_of };

    #[tactic(auto, unfolding(crate::specs::HashedRekord::spec_v002_of))]
    fn from_value(alloc: Global, value: &Value) -> Result<HashedRekordV002Spec, Error> {
        Ok(HashedRekordV002Spec {
            hashed_rekord_v002: required(alloc, value, RekorMember::HashedRekordV002)?,
        })
    }
}

impl FromValue<Error> for HashedRekordV002Data {
    ghost reads = { data_v002_of };

    #[tactic(auto, unfolding(crate::specs::HashedRekord::data_v002_of))]
    fn from_value(alloc: Global, value: &Value) -> Result<HashedRekordV002Data, Error> {
        Ok(HashedRekordV002Data {
            data_: required(alloc, value, RekorMember::Data)?,
            signature: required(alloc, value, RekorMember::Signature)?,
        })
    }
}

impl FromValue<Error> for HashedRekordV002DataInner {
    ghost reads = { digest_v002_of };

    #[tactic(auto, unfolding(crate::specs::HashedRekord::digest_v002_of))]
    fn from_value(alloc: Global, value: &Value) -> Result<HashedRekordV002DataInner, Error> {
        Ok(HashedRekordV002DataInner {
            algorithm: algorithm(alloc, value)?,
            digest: required(alloc, value, RekorMember::Digest)?,
        })
    }
}

impl FromValue<Error> for HashedRekordV002Signature {
    ghost reads = { signature_v002_of };

    #[tactic(auto, unfolding(crate::specs::HashedRekord::signature_v002_of))]
    fn from_value(alloc: Global, value: &Value) -> Result<HashedRekordV002Signature, Error> {
        Ok(HashedRekordV002Signature {
            content: required(alloc, value, RekorMember::Content)?,
            verifier: required(alloc, value, RekorMember::Verifier)?,
        })
    }
}

impl FromValue<Error> for HashedRekordV002Verifier {
    ghost reads = { verifier_v002_of };

    #[tactic(auto, unfolding(crate::specs::HashedRekord::verifier_v002_of))]
    fn from_value(alloc: Global, value: &Value) -> Result<HashedRekordV002Verifier, Error> {
        Ok(HashedRekordV002Verifier {
            key_details: required(alloc, value, RekorMember::KeyDetails)?,
            x509_certificate: optional(alloc, value, RekorMember::X509Certificate)?,
            public_key: optional(alloc, value, RekorMember::PublicKey)?,
        })
    }
}
