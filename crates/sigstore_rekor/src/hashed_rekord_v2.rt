// What is sent to a log of Rekor's second version.
ghost use Rattle.std.specs.Prelude.{◌≡◌, IfOk};
ghost use Rattle.sigstore_rekor.specs.declared.hashed_rekord_v2.VerifierV2.TheVariants.{Certificate, PublicKey};

use foundation::{Duplicate, NoMemory};
use sigstore_rekor_parts::RekorV2KeyDetails;
use sigstore_types_parts::{DerCertificate, DerPublicKey, Sha256Hash, SignatureBytes};
use std::alloc::Global;

/// Whose signature is sent.
#[derive(PartialEq, Drop)]
pub enum VerifierV2 {
    Certificate(DerCertificate),
    PublicKey(DerPublicKey),
}

/// A signature over a SHA-256 digest, to be logged as a hashedrekord entry of version 0.0.2.
#[derive(PartialEq, Drop)]
pub struct HashedRekordV2 {
    digest: Sha256Hash,
    signature: SignatureBytes,
    key_details: RekorV2KeyDetails,
    verifier: VerifierV2,
}

impl HashedRekordV2 {
    /// A signature by the key of a certificate.
    pub fn new_with_certificate(
        alloc: Global,
        hash: &Sha256Hash,
        signature: &SignatureBytes,
        certificate: &DerCertificate,
        details: RekorV2KeyDetails,
    ) -> Result<HashedRekordV2, NoMemory>
        ensures { IfOk result (λ r. r ≡ record {
          digest = hash.now;
          signature = signature.now;
          key_details = details;
          verifier = Certificate certificate.now;
        }) }
    {
        Ok(HashedRekordV2 {
            digest: hash.duplicate(alloc)?,
            signature: signature.duplicate(alloc)?,
            key_details: details,
            verifier: VerifierV2::Certificate(certificate.duplicate(alloc)?),
        })
    }

    /// A signature by a key.
    pub fn new_with_public_key(
        alloc: Global,
        hash: &Sha256Hash,
        signature: &SignatureBytes,
        key: &DerPublicKey,
        details: RekorV2KeyDetails,
    ) -> Result<HashedRekordV2, NoMemory>
        ensures { IfOk result (λ r. r ≡ record {
          digest = hash.now;
          signature = signature.now;
          key_details = details;
          verifier = PublicKey key.now;
        }) }
    {
        Ok(HashedRekordV2 {
            digest: hash.duplicate(alloc)?,
            signature: signature.duplicate(alloc)?,
            key_details: details,
            verifier: VerifierV2::PublicKey(key.duplicate(alloc)?),
        })
    }

    /// The digest of what is signed.
    pub fn digest(&self) -> &Sha256Hash
        ensures { result.now ≡ self.now.digest }
    {
        &self.digest
    }

    /// The signature.
    pub fn signature(&self) -> &SignatureBytes
        ensures { result.now ≡ self.now.signature }
    {
        &self.signature
    }

    /// The scheme and the form of the key.
    pub fn key_details(&self) -> RekorV2KeyDetails
        ensures { result ≡ self.now.key_details }
    {
        self.key_details
    }

    /// Whose signature it is.
    pub fn verifier(&self) -> &VerifierV2
        ensures { result.now ≡ self.now.verifier }
    {
        &self.verifier
    }
}

impl Duplicate for VerifierV2 {
    fn duplicate(&self, alloc: Global) -> Result<VerifierV2, NoMemory> {
        match self {
            VerifierV2::Certificate(certificate) => {
                Ok(VerifierV2::Certificate(certificate.duplicate(alloc)?))
            }
            VerifierV2::PublicKey(key) => Ok(VerifierV2::PublicKey(key.duplicate(alloc)?)),
        }
    }
}

impl Duplicate for HashedRekordV2 {
    fn duplicate(&self, alloc: Global) -> Result<HashedRekordV2, NoMemory> {
        Ok(HashedRekordV2 {
            digest: self.digest.duplicate(alloc)?,
            signature: self.signature.duplicate(alloc)?,
            key_details: self.key_details,
            verifier: self.verifier.duplicate(alloc)?,
        })
    }
}
