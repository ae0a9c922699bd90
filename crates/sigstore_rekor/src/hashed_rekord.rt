// What is sent to a log of Rekor's first version of a signature over a digest.
ghost use Rattle.std.specs.Prelude.{◌≡◌, Some, IfOk};

use foundation::{Duplicate, NoMemory};
use sigstore_types_parts::{Armor, DerCertificate, PemContent, Sha256Hash, SignatureBytes};
use std::alloc::Global;

/// A signature over an artifact's SHA-256 digest, to be logged as a hashedrekord entry of version 0.0.1.
#[derive(PartialEq, Drop)]
pub struct HashedRekord {
    hash: Sha256Hash,
    signature: SignatureBytes,
    public_key: PemContent,
}

impl HashedRekord {
    /// A signature by the key of a certificate, which is sent as an armoured text.
    pub fn new<M: Armor>(
        alloc: Global,
        armor: &M,
        hash: &Sha256Hash,
        signature: &SignatureBytes,
        certificate: &DerCertificate,
    ) -> Result<HashedRekord, NoMemory>
        ensures same_hash { IfOk result (λ entry. entry.hash ≡ hash.now) }
        ensures same_signature { IfOk result (λ entry. entry.signature ≡ signature.now) }
        ensures armored { IfOk result
            (λ entry. M.certificate_in armor.now entry.public_key ≡ Some certificate.now) }
    {
        let public_key = PemContent::new(armor.write_certificate(alloc, certificate.as_bytes())?);
        Ok(HashedRekord {
            hash: hash.duplicate(alloc)?,
            signature: signature.duplicate(alloc)?,
            public_key,
        })
    }

    /// The digest of the artifact.
    pub fn hash(&self) -> &Sha256Hash
        ensures { result.now ≡ self.now.hash }
    {
        &self.hash
    }

    /// The signature.
    pub fn signature(&self) -> &SignatureBytes
        ensures { result.now ≡ self.now.signature }
    {
        &self.signature
    }

    /// The armoured text of the certificate.
    pub fn public_key(&self) -> &PemContent
        ensures { result.now ≡ self.now.public_key }
    {
        &self.public_key
    }
}

impl Duplicate for HashedRekord {
    fn duplicate(&self, alloc: Global) -> Result<HashedRekord, NoMemory> {
        Ok(HashedRekord {
            hash: self.hash.duplicate(alloc)?,
            signature: self.signature.duplicate(alloc)?,
            public_key: self.public_key.duplicate(alloc)?,
        })
    }
}
