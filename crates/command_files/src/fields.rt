// Fields of lines.
ghost use Rattle.std.specs.Prelude.{◌≡◌, ◌≢◌, Ok, Err, IfOk, IfErr};
ghost use Rattle.command_files.specs.Fields.{spelled_of, field_of};

use crate::usage_fault::UsageFault;
use base64::DecodeAllocError;
use base64::engine::general_purpose::STANDARD;
use sigstore_types_parts::Bytes;
use std::alloc::Global;

// The bytes that a base64 text spells.
pub(crate) fn spelled(alloc: Global, text: &str) -> Result<Bytes, UsageFault>
    ensures ok { IfOk result (λ b. spelled_of text.now ≡ Ok b) }
    ensures err { IfErr result (λ e. e ≢ UsageFault.NoMemory → spelled_of text.now ≡ Err e) }
{
    match STANDARD.decode(alloc, text.as_bytes()) {
        Ok(bytes) => Ok(Bytes::from_vec(bytes)),
        Err(DecodeAllocError::OutOfMemory) => Err(UsageFault::NoMemory),
        Err(_) => Err(UsageFault::Usage),
    }
}

// The bytes of a field; no bytes are written as a dash.
pub(crate) fn field(alloc: Global, text: &str) -> Result<Bytes, UsageFault>
    ensures ok { IfOk result (λ b. field_of text.now ≡ Ok b) }
    ensures err { IfErr result (λ e. e ≢ UsageFault.NoMemory → field_of text.now ≡ Err e) }
{
    match text {
        "-" => Ok(Bytes::from_vec(Vec::new(alloc))),
        "" => Err(UsageFault::Usage),
        _ => match spelled(alloc, text) {
            Ok(bytes) => Ok(bytes),
            Err(e) => Err(e),
        },
    }
}
