// An envelope with the digests by which entries name it.
ghost use Rattle.std.specs.Prelude.{◌≡◌, IfOk};
ghost use Rattle.sha2.specs.Sha256.{sha256};
ghost use Rattle.sigstore_envelopes.specs.Encoding.{encoding_of};

use foundation::NoMemory;
use sigstore_envelopes::DsseEnvelope;
use sigstore_keys::sha256;
use sigstore_types_parts::{Bytes, Sha256Hash};
use std::alloc::Global;
use std::marker::Model;

/// An envelope with its encoding and the SHA-256 values of that and of the payload. They are taken once, since else
/// whoever writes many entries would have a long envelope digested as often. Contracts see the envelope.
#[derive(Drop)]
pub struct HashedEnvelope<'e> {
    envelope: &'e DsseEnvelope,
    encoding: Bytes,
    payload_digest: Sha256Hash,
    encoding_digest: Sha256Hash,
}

impl<'e> Model for HashedEnvelope<'e> {
    ghost use Rattle.sigstore_envelopes.specs.declared.envelope.DsseEnvelope.{DsseEnvelope};
    ghost use Rattle.sigstore_binding.specs.Envelope.{IsHashed};

    ghost Value = { DsseEnvelope };

    ghost view = { λ e. e.envelope.now };

    ghost invariant = { λ e. IsHashed e.envelope.now e.encoding e.payload_digest e.encoding_digest };
}

impl<'e> HashedEnvelope<'e> {
    /// The envelope with its digests.
    pub fn new(alloc: Global, envelope: &'e DsseEnvelope) -> Result<HashedEnvelope<'e>, NoMemory>
        ensures { IfOk result (λ hashed. hashed ≡ envelope.now) }
    {
        let encoding = envelope.pae(alloc)?;
        let payload_digest = sha256(envelope.payload.as_bytes());
        let encoding_digest = sha256(encoding.as_bytes());
        Ok(HashedEnvelope {
            envelope,
            encoding,
            payload_digest,
            encoding_digest,
        })
    }

    /// The envelope.
    pub fn envelope(&self) -> &DsseEnvelope
        ensures { result.now ≡ self.now }
    {
        self.envelope
    }

    /// What the envelope's signature is over (DSSE, "signature definition").
    pub fn encoding(&self) -> &[u8]
        ensures { result.now ≡ encoding_of self.now }
    {
        self.encoding.as_bytes()
    }

    /// The SHA-256 value of the payload.
    pub fn payload_digest(&self) -> &Sha256Hash
        ensures { result.now ≡ sha256 self.now.payload }
    {
        &self.payload_digest
    }

    /// The SHA-256 value of the encoding.
    pub fn encoding_digest(&self) -> &Sha256Hash
        ensures { result.now ≡ sha256 (encoding_of self.now) }
    {
        &self.encoding_digest
    }
}
