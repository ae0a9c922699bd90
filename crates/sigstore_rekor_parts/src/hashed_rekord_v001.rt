// Bodies of kind hashedrekord, version 0.0.1 (Rekor, "pluggable types").
ghost use Rattle.std.specs.Prelude.{◌≡◌, ◌≢◌, Ok, Err, IfOk, IfErr};
ghost use Rattle.sigstore_rekor_parts.specs.HashedRekord.{hashed_rekord_v001_of, spec_v001_of, data_v001_of, signature_v001_of, public_key_content_of};
ghost use Rattle.sigstore_rekor_parts.specs.Armored.{held_of};

use crate::armored::{certificate_in, key_in};
use crate::error::Error;
use crate::hash_value::HashValue;
use crate::member::RekorMember;
use foundation::{Duplicate, NoMemory};
use serde_json::Value;
use sigstore_types_parts::{
    Armor, DerCertificate, DerPublicKey, FromValue, PemContent, SignatureBytes, required,
};
use std::alloc::Global;

/// What a hashedrekord entry of version 0.0.1 logs: a signature over an artifact.
#[derive(PartialEq, Drop)]
pub struct HashedRekordV001Body {
    pub spec: HashedRekordV001Spec,
}

/// The artifact and the signature.
#[derive(PartialEq, Drop)]
pub struct HashedRekordV001Spec {
    pub data_: HashedRekordV001Data,
    pub signature: HashedRekordV001Signature,
}

/// The artifact.
#[derive(PartialEq, Drop)]
pub struct HashedRekordV001Data {
    pub hash: HashValue,
}

/// The signature, and whose it is.
#[derive(PartialEq, Drop)]
pub struct HashedRekordV001Signature {
    pub content: SignatureBytes,
    pub public_key: PublicKeyContent,
}

/// An armoured text of a certificate or of a public key.
#[derive(PartialEq, Drop)]
pub struct PublicKeyContent {
    pub content: PemContent,
}

impl Duplicate for HashedRekordV001Body {
    fn duplicate(&self, alloc: Global) -> Result<HashedRekordV001Body, NoMemory> {
        Ok(HashedRekordV001Body {
            spec: self.spec.duplicate(alloc)?,
        })
    }
}

impl Duplicate for HashedRekordV001Spec {
    fn duplicate(&self, alloc: Global) -> Result<HashedRekordV001Spec, NoMemory> {
        Ok(HashedRekordV001Spec {
            data_: self.data_.duplicate(alloc)?,
            signature: self.signature.duplicate(alloc)?,
        })
    }
}

impl Duplicate for HashedRekordV001Data {
    fn duplicate(&self, alloc: Global) -> Result<HashedRekordV001Data, NoMemory> {
        Ok(HashedRekordV001Data {
            hash: self.hash.duplicate(alloc)?,
        })
    }
}

impl Duplicate for HashedRekordV001Signature {
    fn duplicate(&self, alloc: Global) -> Result<HashedRekordV001Signature, NoMemory> {
        Ok(HashedRekordV001Signature {
            content: self.content.duplicate(alloc)?,
            public_key: self.public_key.duplicate(alloc)?,
        })
    }
}

impl Duplicate for PublicKeyContent {
    fn duplicate(&self, alloc: Global) -> Result<PublicKeyContent, NoMemory> {
        Ok(PublicKeyContent {
            content: self.content.duplicate(alloc)?,
        })
    }
}

impl FromValue<Error> for HashedRekordV001Body {
    ghost reads = { hashed_rekord_v001_of };

    #[tactic(auto, unfolding(crate::specs::HashedRekord::hashed_rekord_v001_of))]
    fn from_value(alloc: Global, value: &Value) -> Result<HashedRekordV001Body, Error> {
        Ok(HashedRekordV001Body {
            spec: required(alloc, value, RekorMember::Spec)?,
        })
    }
}

impl FromValue<Error> for HashedRekordV001Spec {
    ghost reads = { spec_v001_of };

    #[tactic(auto, unfolding(crate::specs::HashedRekord::spec_v001_of))]
    fn from_value(alloc: Global, value: &Value) -> Result<HashedRekordV001Spec, Error> {
        Ok(HashedRekordV001Spec {
            data_: required(alloc, value, RekorMember::Data)?,
            signature: required(alloc, value, RekorMember::Signature)?,
        })
    }
}

impl FromValue<Error> for HashedRekordV001Data {
    ghost reads = { data_v001_of };

    #[tactic(auto, unfolding(crate::specs::HashedRekord::data_v001_of))]
    fn from_value(alloc: Global, value: &Value) -> Result<HashedRekordV001Data, Error> {
        Ok(HashedRekordV001Data {
            hash: required(alloc, value, RekorMember::Hash)?,
        })
    }
}

impl FromValue<Error> for HashedRekordV001Signature {
    ghost reads = { signature_v001_of };

    #[tactic(auto, unfolding(crate::specs::HashedRekord::signature_v001_of))]
    fn from_value(alloc: Global, value: &Value) -> Result<HashedRekordV001Signature, Error> {
        Ok(HashedRekordV001Signature {
            content: required(alloc, value, RekorMember::Content)?,
            public_key: required(alloc, value, RekorMember::PublicKey)?,
        })
    }
}

impl FromValue<Error> for PublicKeyContent {
    ghost reads = { public_key_content_of };

    #[tactic(auto, unfolding(crate::specs::HashedRekord::public_key_content_of))]
    fn from_value(alloc: Global, value: &Value) -> Result<PublicKeyContent, Error> {
        Ok(PublicKeyContent {
            content: required(alloc, value, RekorMember::Content)?,
        })
    }
}

impl PublicKeyContent {
    /// The certificate that the text holds. Errors: `InvalidResponse` with `Armor` where it holds none.
    pub fn parse_certificate<M: Armor>(
        &self,
        alloc: Global,
        armor: &M,
    ) -> Result<DerCertificate, Error>
        ensures ok { IfOk result (λ c. held_of (M.certificate_in armor.now) self.now.content ≡ Ok c) }
        ensures err { IfErr result
            (λ e. e ≢ Error.NoMemory → held_of (M.certificate_in armor.now) self.now.content ≡ Err e) }
    {
        match certificate_in(alloc, armor, &self.content) {
            Ok(certificate) => Ok(certificate),
            Err(e) => Err(e),
        }
    }

    /// The public key that the text holds. Errors: `InvalidResponse` with `Armor` where it holds none.
    pub fn parse_public_key<M: Armor>(
        &self,
        alloc: Global,
        armor: &M,
    ) -> Result<DerPublicKey, Error>
        ensures ok { IfOk result (λ k. held_of (M.key_in armor.now) self.now.content ≡ Ok k) }
        ensures err { IfErr result
            (λ e. e ≢ Error.NoMemory → held_of (M.key_in armor.now) self.now.content ≡ Err e) }
    {
        match key_in(alloc, armor, &self.content) {
            Ok(key) => Ok(key),
            Err(e) => Err(e),
        }
    }
}
