// The bodies of requests.
ghost use Rattle.std.specs.Prelude.{◌≡◌, string_bytes, IfOk};
ghost use Rattle.base64.specs.Engines.{standard};
ghost use Rattle.base64.specs.GeneralPurpose.{encode_of};
ghost use Rattle.json.specs.Print.{quoted};
ghost use Rattle.sigstore_rekor.specs.Written.{envelope_text_of, hashed_rekord_written, hashed_rekord_text_of};
ghost use Rattle.sigstore_rekor.specs.Written.{dsse_written, dsse_text_of, verifier_text_of, hashed_rekord_v2_written, hashed_rekord_v2_text_of, search_text_of};

use crate::dsse_entry::DsseEntry;
use crate::hashed_rekord::HashedRekord;
use crate::hashed_rekord_v2::{HashedRekordV2, VerifierV2};
use crate::queries::SearchIndex;
use base64::engine::general_purpose::STANDARD;
use foundation::NoMemory;
use serde_json::Value;
use sigstore_entries::ToValue;
use sigstore_envelopes::DsseEnvelope;
use sigstore_types_parts::Text;
use std::alloc::Global;

// A text as a JSON string.
fn quoted(alloc: Global, text: &str) -> Result<String, NoMemory>
    ensures { IfOk result (λ written. string_bytes written ≡ quoted text.now) }
{
    let value = Value::String(String::from_str(alloc, text)?);
    Ok(value.to_string(alloc)?)
}

/// An envelope as a JSON text.
pub(crate) fn envelope_text(alloc: Global, envelope: &DsseEnvelope) -> Result<Text, NoMemory>
    ensures { IfOk result (λ text. text ≡ envelope_text_of envelope.now) }
{
    let value = envelope.to_value(alloc)?;
    Ok(Text::from_string(value.to_string(alloc)?))
}

fn hashed_rekord_written(
    alloc: Global,
    hash: &str,
    signature: &str,
    key: &str,
) -> Result<String, NoMemory>
    ensures { IfOk result
        (λ text. string_bytes text ≡ hashed_rekord_written hash.now signature.now key.now) }
{
    Ok(format!(in alloc;
        "{{\"apiVersion\":\"0.0.1\",\"kind\":\"hashedrekord\",\"spec\":{{\"data\":{{\"hash\":{{\"algorithm\":\"sha256\",\"value\":\"{hash}\"}}}},\"signature\":{{\"content\":\"{signature}\",\"publicKey\":{{\"content\":\"{key}\"}}}}}}}}"
    )?)
}

/// The body that sends a signature over a digest.
pub(crate) fn hashed_rekord_text(alloc: Global, entry: &HashedRekord) -> Result<String, NoMemory>
    ensures { IfOk result (λ text. string_bytes text ≡ hashed_rekord_text_of entry.now) }
{
    let hash = entry.hash().to_hex(alloc)?;
    let signature = entry.signature().to_base64(alloc)?;
    let key = entry.public_key().to_base64(alloc)?;
    Ok(hashed_rekord_written(alloc, hash.as_str(), signature.as_str(), key.as_str())?)
}

fn dsse_written(alloc: Global, envelope: &str, verifier: &str) -> Result<String, NoMemory>
    ensures { IfOk result (λ text. string_bytes text ≡ dsse_written envelope.now verifier.now) }
{
    Ok(format!(in alloc;
        "{{\"apiVersion\":\"0.0.1\",\"kind\":\"dsse\",\"spec\":{{\"proposedContent\":{{\"envelope\":{envelope},\"verifiers\":[\"{verifier}\"]}}}}}}"
    )?)
}

/// The body that sends an envelope.
pub(crate) fn dsse_text(alloc: Global, entry: &DsseEntry) -> Result<String, NoMemory>
    ensures { IfOk result (λ text. string_bytes text ≡ dsse_text_of entry.now) }
{
    let envelope = quoted(alloc, entry.envelope())?;
    let verifier = entry.verifier().to_base64(alloc)?;
    Ok(dsse_written(alloc, envelope.as_str(), verifier.as_str())?)
}

fn verifier_text(alloc: Global, verifier: &VerifierV2) -> Result<String, NoMemory>
    ensures { IfOk result (λ text. string_bytes text ≡ verifier_text_of verifier.now) }
{
    match verifier {
        VerifierV2::Certificate(certificate) => {
            let der = certificate.to_base64(alloc)?;
            Ok(format!(in alloc; "\"x509Certificate\":{{\"rawBytes\":\"{der}\"}}")?)
        }
        VerifierV2::PublicKey(key) => {
            let der = key.to_base64(alloc)?;
            Ok(format!(in alloc; "\"publicKey\":{{\"rawBytes\":\"{der}\"}}")?)
        }
    }
}

fn hashed_rekord_v2_written(
    alloc: Global,
    digest: &str,
    signature: &str,
    details: &str,
    verifier: &str,
) -> Result<String, NoMemory>
    ensures { IfOk result
        (λ text. string_bytes text ≡ hashed_rekord_v2_written digest.now signature.now details.now verifier.now) }
{
    Ok(format!(in alloc;
        "{{\"hashedRekordRequestV002\":{{\"digest\":\"{digest}\",\"signature\":{{\"content\":\"{signature}\",\"verifier\":{{\"keyDetails\":\"{details}\",{verifier}}}}}}}}}"
    )?)
}

/// The body that sends a signature over a digest to a log of the second version.
pub(crate) fn hashed_rekord_v2_text(
    alloc: Global,
    entry: &HashedRekordV2,
) -> Result<String, NoMemory>
    ensures { IfOk result (λ text. string_bytes text ≡ hashed_rekord_v2_text_of entry.now) }
{
    let digest = base64_text(alloc, entry.digest().as_bytes())?;
    let signature = entry.signature().to_base64(alloc)?;
    let verifier = verifier_text(alloc, entry.verifier())?;
    Ok(hashed_rekord_v2_written(
        alloc,
        digest.as_str(),
        signature.as_str(),
        entry.key_details().as_str(),
        verifier.as_str(),
    )?)
}

fn base64_text(alloc: Global, bytes: &[u8]) -> Result<String, NoMemory>
    ensures { IfOk result (λ text. string_bytes text ≡ encode_of standard bytes.now) }
{
    Ok(STANDARD.encode(alloc, bytes)?)
}

/// The body of a search.
pub(crate) fn search_text(alloc: Global, query: &SearchIndex) -> Result<String, NoMemory>
    ensures { IfOk result (λ text. string_bytes text ≡ search_text_of query.now) }
{
    match query {
        SearchIndex::ByHash(hash) => {
            let digits = hash.to_hex(alloc)?;
            Ok(format!(in alloc; "{{\"hash\":\"sha256:{digits}\"}}")?)
        }
        SearchIndex::ByEmail(email) => {
            let address = quoted(alloc, email.as_str())?;
            Ok(format!(in alloc; "{{\"email\":{address}}}")?)
        }
    }
}
