// The payload that a bundle's signature covers.
ghost use Rattle.std.specs.Prelude.{◌≡◌, ◌≢◌, Ok, Err, IfOk, IfErr};
ghost use Rattle.command_outputs.specs.Payload.{payload_in, payload_of};

use sigstore_types::{Bundle, SignatureContent};
use sigstore_types_parts::{PayloadBytes, TypesError};
use std::alloc::Global;

// The payload of an envelope; none of a message signature.
fn payload_in(content: SignatureContent) -> Option<PayloadBytes>
    ensures { result ≡ payload_in content }
{
    match content {
        SignatureContent::DsseEnvelope(envelope) => Some(envelope.payload),
        SignatureContent::MessageSignature(message) => {
            drop(message);
            None
        }
    }
}

// The payload of the bundle that a JSON text is; none where it has a message signature.
#[tactic(auto, unfolding(crate::specs::Payload::payload_of))]
pub(crate) fn payload_of(alloc: Global, bundle: &[u8]) -> Result<Option<PayloadBytes>, TypesError>
    ensures ok { IfOk result (λ payload. payload_of bundle.now ≡ Ok payload) }
    ensures err { IfErr result (λ e. e ≢ TypesError.NoMemory → payload_of bundle.now ≡ Err e) }
{
    match Bundle::from_json(alloc, bundle) {
        Ok(bundle) => {
            let Bundle {
                media_type,
                content,
                verification_material,
            } = bundle;
            drop(media_type);
            drop(verification_material);
            Ok(payload_in(content))
        }
        Err(e) => Err(e),
    }
}
