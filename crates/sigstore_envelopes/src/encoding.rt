// What the signature of an envelope signs.
ghost use Rattle.std.specs.Prelude.{◌≡◌, string_bytes, IfOk};
ghost use Rattle.sigstore_envelopes.specs.Encoding.{heading_of, encoding_of};

use crate::envelope::DsseEnvelope;
use foundation::NoMemory;
use sigstore_types_parts::Bytes;
use std::alloc::Global;

// What stands before a payload of that length.
fn heading(alloc: Global, payload_type: &str, length: usize) -> Result<String, NoMemory>
    ensures { IfOk result (λ text. string_bytes text ≡ heading_of payload_type.now length) }
{
    let type_length = payload_type.len();
    Ok(format!(in alloc; "DSSEv1 {type_length} {payload_type} {length} ")?)
}

impl DsseEnvelope {
    /// What the signature signs: the pre-authentication encoding of type and payload (DSSE, protocol.md).
    pub fn pae(&self, alloc: Global) -> Result<Bytes, NoMemory>
        ensures { IfOk result (λ octets. octets ≡ encoding_of self.now) }
    {
        let payload = self.payload.as_bytes();
        let heading = heading(alloc, self.payload_type.as_str(), payload.len())?;
        let mut octets = heading.into_bytes();
        octets.extend_from_slice(payload)?;
        Ok(Bytes::from_vec(octets))
    }
}
