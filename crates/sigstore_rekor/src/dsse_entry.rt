// What is sent to a log of Rekor's first version of an envelope.
ghost use Rattle.std.specs.Prelude.{◌≡◌, Some, IfOk};
ghost use Rattle.sigstore_rekor.specs.Written.{envelope_text_of};

use crate::written::envelope_text;
use foundation::{Duplicate, NoMemory};
use sigstore_envelopes::DsseEnvelope;
use sigstore_types_parts::{Armor, DerCertificate, PemContent, Text};
use std::alloc::Global;

/// An envelope with its signature, to be logged as a dsse entry of version 0.0.1.
#[derive(PartialEq, Drop)]
pub struct DsseEntry {
    envelope: Text,
    verifier: PemContent,
}

impl DsseEntry {
    /// An envelope that the key of a certificate signed, which is sent as an armoured text.
    pub fn new<M: Armor>(
        alloc: Global,
        armor: &M,
        envelope: &DsseEnvelope,
        certificate: &DerCertificate,
    ) -> Result<DsseEntry, NoMemory>
        ensures written { IfOk result (λ entry. entry.envelope ≡ envelope_text_of envelope.now) }
        ensures armored { IfOk result
            (λ entry. M.certificate_in armor.now entry.verifier ≡ Some certificate.now) }
    {
        let verifier = PemContent::new(armor.write_certificate(alloc, certificate.as_bytes())?);
        Ok(DsseEntry {
            envelope: envelope_text(alloc, envelope)?,
            verifier,
        })
    }

    /// The envelope as a JSON text.
    pub fn envelope(&self) -> &str
        ensures { result.now ≡ self.now.envelope }
    {
        self.envelope.as_str()
    }

    /// The armoured text of the certificate.
    pub fn verifier(&self) -> &PemContent
        ensures { result.now ≡ self.now.verifier }
    {
        &self.verifier
    }
}

impl Duplicate for DsseEntry {
    fn duplicate(&self, alloc: Global) -> Result<DsseEntry, NoMemory> {
        Ok(DsseEntry {
            envelope: self.envelope.duplicate(alloc)?,
            verifier: self.verifier.duplicate(alloc)?,
        })
    }
}
