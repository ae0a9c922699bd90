// Certificates and keys of logs of Rekor's second version.
ghost use Rattle.std.specs.Prelude.{◌≡◌};
ghost use Rattle.sigstore_rekor_parts.specs.Members.{certificate_of, public_key_of};

use crate::error::Error;
use crate::member::RekorMember;
use foundation::{Duplicate, NoMemory};
use serde_json::Value;
use sigstore_types_parts::{DerCertificate, DerPublicKey, FromValue, required};
use std::alloc::Global;

/// A certificate in DER.
#[derive(PartialEq, Drop)]
pub struct X509CertificateRaw {
    pub raw_bytes: DerCertificate,
}

/// A public key as a SubjectPublicKeyInfo in DER.
#[derive(PartialEq, Drop)]
pub struct PublicKeyRaw {
    pub raw_bytes: DerPublicKey,
}

impl Duplicate for X509CertificateRaw {
    fn duplicate(&self, alloc: Global) -> Result<X509CertificateRaw, NoMemory> {
        Ok(X509CertificateRaw {
            raw_bytes: self.raw_bytes.duplicate(alloc)?,
        })
    }
}

impl Duplicate for PublicKeyRaw {
    fn duplicate(&self, alloc: Global) -> Result<PublicKeyRaw, NoMemory> {
        Ok(PublicKeyRaw {
            raw_bytes: self.raw_bytes.duplicate(alloc)?,
        })
    }
}

impl FromValue<Error> for X509CertificateRaw {
    ghost reads = { certificate_of };

    #[tactic(auto, unfolding(crate::specs::Members::certificate_of))]
    fn from_value(alloc: Global, value: &Value) -> Result<X509CertificateRaw, Error> {
        Ok(X509CertificateRaw {
            raw_bytes: required(alloc, value, RekorMember::RawBytes)?,
        })
    }
}

impl FromValue<Error> for PublicKeyRaw {
    ghost reads = { public_key_of };

    #[tactic(auto, unfolding(crate::specs::Members::public_key_of))]
    fn from_value(alloc: Global, value: &Value) -> Result<PublicKeyRaw, Error> {
        Ok(PublicKeyRaw {
            raw_bytes: required(alloc, value, RekorMember::RawBytes)?,
        })
    }
}
