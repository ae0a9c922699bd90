// What a log has of an item, and what an item's envelope says.
ghost use Rattle.std.specs.Prelude.{◌≡◌, string_bytes, IfOk};
ghost use Rattle.workload.specs.Texts.{artifact_of, signature_of, statement_written, statement_of, signed_written, body_written, body_of};

use crate::keys::{in_base64, spki};
use foundation::NoMemory;
use sigstore_types_parts::{
    ByteString, Bytes, CanonicalizedBody, PayloadBytes, Sha256Hash, SignatureBytes,
};
use std::alloc::Global;

/// The artifact of an item.
pub fn artifact_of(alloc: Global, index: u32, number: u32) -> Result<Bytes, NoMemory>
    ensures { IfOk result (λ bytes. bytes ≡ artifact_of index number) }
{
    let end = "x".repeat(alloc, (number % 256) as usize)?;
    let text = format!(in alloc; "artifact {index}\n{end}")?;
    Ok(Bytes::from_vec(text.into_bytes()))
}

/// The signature of an item, as the tables have it.
pub fn signature_of(alloc: Global, index: u32) -> Result<SignatureBytes, NoMemory>
    ensures { IfOk result (λ bytes. bytes ≡ signature_of index) }
{
    let text = format!(in alloc; "s{index}")?;
    Ok(ByteString::new(Bytes::from_vec(text.into_bytes())))
}

fn statement_written(alloc: Global, digest: &str) -> Result<String, NoMemory>
    ensures { IfOk result (λ text. string_bytes text ≡ statement_written digest.now) }
{
    Ok(format!(in alloc;
        "{{\"_type\":\"https://in-toto.io/Statement/v1\",\"subject\":[{{\"digest\":{{\"sha256\":\"{digest}\"}}}}],\"predicateType\":\"p\"}}"
    )?)
}

/// A statement about an artifact of that digest.
pub fn statement_of(alloc: Global, digest: &Sha256Hash) -> Result<PayloadBytes, NoMemory>
    ensures { IfOk result (λ bytes. bytes ≡ statement_of digest.now) }
{
    let digits = digest.to_hex(alloc)?;
    let text = statement_written(alloc, digits.as_str())?;
    Ok(ByteString::new(Bytes::from_vec(text.into_bytes())))
}

fn signed_written(alloc: Global, signature: &str, key: &str) -> Result<String, NoMemory>
    ensures { IfOk result (λ text. string_bytes text ≡ signed_written signature.now key.now) }
{
    Ok(format!(in alloc;
        "{{\"content\":\"{signature}\",\"verifier\":{{\"keyDetails\":\"PKIX_ECDSA_P256_SHA_256\",\"publicKey\":{{\"rawBytes\":\"{key}\"}}}}}}"
    )?)
}

fn body_written(alloc: Global, digest: &str, signed: &str) -> Result<String, NoMemory>
    ensures { IfOk result (λ text. string_bytes text ≡ body_written digest.now signed.now) }
{
    Ok(format!(in alloc;
        "{{\"apiVersion\":\"0.0.2\",\"kind\":\"hashedrekord\",\"spec\":{{\"hashedRekordV002\":{{\"data\":{{\"algorithm\":\"SHA2_256\",\"digest\":\"{digest}\"}},\"signature\":{signed}}}}}}}"
    )?)
}

/// What is logged of a signature over a digest.
pub fn body_of(
    alloc: Global,
    digest: &Sha256Hash,
    signature: &SignatureBytes,
) -> Result<CanonicalizedBody, NoMemory>
    ensures { IfOk result (λ bytes. bytes ≡ body_of digest.now signature.now) }
{
    let digest = in_base64(alloc, digest.as_bytes())?;
    let signature = in_base64(alloc, signature.as_bytes())?;
    let key = spki(alloc)?;
    let key = in_base64(alloc, key.as_bytes())?;
    let signed = signed_written(alloc, signature.as_str(), key.as_str())?;
    let text = body_written(alloc, digest.as_str(), signed.as_str())?;
    Ok(ByteString::new(Bytes::from_vec(text.into_bytes())))
}
