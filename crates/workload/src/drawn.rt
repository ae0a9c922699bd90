// What is known of an item before the log has all bodies.
ghost use Rattle.std.specs.Prelude.{◌≡◌, ◌<◌, ◌≤◌, ◌+◌, ◌^◌, ◌++◌, IfOk};
ghost use Rattle.sha2.specs.Sha256.{sha256};
ghost use Rattle.workload.specs.Drawn.{message_of, envelope_of, content_of, signed_of, handed_of, drawn_of, drawn_from};

use crate::body::{artifact_of, body_of, signature_of, statement_of};
use crate::kind::{Kind, kind_of, next_number};
use foundation::{Duplicate, NoMemory, Sequence};
use sigstore_envelopes::{DsseEnvelope, DsseSignature, KeyId};
use sigstore_keys::sha256;
use sigstore_types::{MessageDigest, MessageSignature, SignatureContent};
use sigstore_types_parts::{
    ByteString, Bytes, CanonicalizedBody, HashAlgorithm, Sha256Hash, SignatureBytes, Text,
};
use std::alloc::Global;

/// An item by its place and its number: what its bundle signs, the artifact that is handed in, the SHA-256
/// value of what is signed, the signature, and what is logged of both.
#[derive(Drop)]
pub struct Drawn {
    pub kind: Kind,
    pub content: SignatureContent,
    pub artifact: Bytes,
    pub subject: Sha256Hash,
    pub signature: SignatureBytes,
    pub body: CanonicalizedBody,
}

// A message of that digest.
fn message(
    alloc: Global,
    digest: &Sha256Hash,
    signature: &SignatureBytes,
) -> Result<SignatureContent, NoMemory>
    ensures { IfOk result (λ content. content ≡ message_of digest.now signature.now) }
{
    let digest = ByteString::from_bytes(alloc, digest.as_bytes())?;
    let signature = signature.duplicate(alloc)?;
    Ok(SignatureContent::MessageSignature(MessageSignature {
        message_digest: Some(MessageDigest {
            algorithm: HashAlgorithm::Sha2256,
            digest,
        }),
        signature,
    }))
}

// An envelope with a statement about an artifact of that digest.
fn envelope(
    alloc: Global,
    digest: &Sha256Hash,
    signature: &SignatureBytes,
) -> Result<DsseEnvelope, NoMemory>
    ensures { IfOk result (λ envelope. envelope ≡ envelope_of digest.now signature.now) }
{
    let payload = statement_of(alloc, digest)?;
    let payload_type = Text::new(alloc, "application/vnd.in-toto+json")?;
    let sig = signature.duplicate(alloc)?;
    Ok(DsseEnvelope {
        payload_type,
        payload,
        signature: DsseSignature {
            sig,
            keyid: KeyId::new(Text::from_string(String::new(alloc))),
        },
    })
}

// What a bundle of the kind signs.
fn content_of(
    alloc: Global,
    kind: Kind,
    digest: &Sha256Hash,
    signature: &SignatureBytes,
) -> Result<SignatureContent, NoMemory>
    ensures { IfOk result (λ content. content ≡ content_of kind digest.now signature.now) }
{
    match kind {
        Kind::Envelope => Ok(SignatureContent::DsseEnvelope(envelope(alloc, digest, signature)?)),
        _ => message(alloc, digest, signature),
    }
}

// The SHA-256 value of what is signed.
fn subject_of(
    alloc: Global,
    content: &SignatureContent,
    artifact: &[u8],
) -> Result<Sha256Hash, NoMemory>
    ensures { IfOk result (λ subject. subject ≡ sha256 (signed_of content.now artifact.now)) }
{
    match content {
        SignatureContent::MessageSignature(_) => Ok(sha256(artifact)),
        SignatureContent::DsseEnvelope(envelope) => {
            let encoding = envelope.pae(alloc)?;
            Ok(sha256(encoding.as_bytes()))
        }
    }
}

// The artifact as it is handed in.
fn handed_of(kind: Kind, artifact: Bytes) -> Result<Bytes, NoMemory>
    ensures { IfOk result (λ bytes. bytes ≡ handed_of kind artifact) }
{
    match kind {
        Kind::OtherArtifact => {
            let mut bytes = artifact.into_vec();
            bytes.push(b'y')?;
            Ok(Bytes::from_vec(bytes))
        }
        _ => Ok(artifact),
    }
}

// The item of a place and a number.
fn draw(alloc: Global, index: u32, number: u32) -> Result<Drawn, NoMemory>
    ensures { IfOk result (λ drawn. drawn ≡ drawn_of index number) }
{
    let kind = kind_of(number);
    let signature = signature_of(alloc, index)?;
    let artifact = artifact_of(alloc, index, number)?;
    let digest = sha256(artifact.as_bytes());
    let content = content_of(alloc, kind, &digest, &signature)?;
    let subject = subject_of(alloc, &content, artifact.as_bytes())?;
    let body = body_of(alloc, &subject, &signature)?;
    let artifact = handed_of(kind, artifact)?;
    Ok(Drawn {
        kind,
        content,
        artifact,
        subject,
        signature,
        body,
    })
}

/// The items of a workload, each of a number of its own.
pub fn draw_all(alloc: Global, start: u32, count: u32) -> Result<Sequence<Drawn>, NoMemory>
    ensures { IfOk result (λ items. items ≡ drawn_from 0 start count) }
{
    let mut items = Sequence::new(alloc);
    let mut number = start;
    'items: for index in 0..count {
        number = next_number(number);
        items.push(draw(alloc, index, number)?)?;
    }
    Ok(items)
}
