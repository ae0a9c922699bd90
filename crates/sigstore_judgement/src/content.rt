// What is signed, before and after the artifact is had.
ghost use Rattle.std.specs.Prelude.{◌≡◌, ◌≢◌, Ok, Err, IfOk, IfErr, option_copied};
ghost use Rattle.std.specs.List.{list_all};
ghost use Rattle.sigstore_keys.specs.Good.{is_good};
ghost use Rattle.sigstore_envelopes.specs.Encoding.{encoding_of};
ghost use Rattle.sigstore_binding.specs.Rows.{signed_as};
ghost use Rattle.sigstore_judgement.specs.Artifact.{kind_in, digest_among, digest_had, bytes_had};
ghost use Rattle.sigstore_judgement.specs.Claim.{claim_as};
ghost use Rattle.sigstore_judgement.specs.Content.{scheme_of, signs_digest, supported_of, is_artifact_signed, content_judged_of, signature_in, signed_in};
ghost use Rattle.sigstore_judgement.specs.Opened.{content_as};

use crate::artifact::{ArtifactInput, KnownArtifact, has_all, taken};
use crate::claim::{Claim, is_bound};
use crate::error::Error;
use foundation::NoMemory;
use sigstore_binding::{HashedEnvelope, Signed};
use sigstore_keys::{CryptoProvider, SigningScheme, VerificationKey};
use sigstore_types::{MessageSignature, SignatureContent};
use sigstore_types_parts::{ArtifactDigest, HashAlgorithm, SignatureBytes};
use std::alloc::Global;

/// The scheme is that of the signer's key and the digest that the bundle tells, never one that the bundle
/// names: a bundle can't choose a weaker one.
pub(crate) fn scheme_of(
    scheme: SigningScheme,
    content: &SignatureContent,
) -> Result<SigningScheme, sigstore_keys::Error>
    ensures { result ≡ scheme_of scheme content.now }
{
    match content {
        SignatureContent::MessageSignature(message) => match &message.message_digest {
            None => Ok(scheme),
            Some(digest) => scheme
                .key_algorithm()
                .resolve_signing_scheme(digest.algorithm),
        },
        SignatureContent::DsseEnvelope(_) => Ok(scheme),
    }
}

// Whether what is signed can be had without the artifact's bytes.
fn signs_digest(scheme: SigningScheme, content: &SignatureContent) -> bool
    ensures { result ≡ signs_digest scheme content.now }
{
    match content {
        SignatureContent::MessageSignature(_) => scheme.supports_prehashed(),
        SignatureContent::DsseEnvelope(_) => true,
    }
}

/// The artifact can be judged: its bytes are kept where they are signed themselves, and each digest that is
/// needed can be had. Else a check would have to be passed over.
pub(crate) fn check_supported(
    handed: ArtifactInput,
    scheme: SigningScheme,
    content: &SignatureContent,
    needed: &[HashAlgorithm],
) -> Result<(), Error>
    ensures { result ≡ supported_of (kind_in handed) (signs_digest scheme content.now) needed.now }
{
    if !signs_digest(scheme, content) && !handed.keeps_bytes() {
        return Err(Error::UnsupportedArtifact);
    }
    if has_all(handed, needed) {
        Ok(())
    } else {
        Err(handed.lacking())
    }
}

/// The signature of a content.
pub(crate) fn signature_in(content: &SignatureContent) -> &SignatureBytes
    ensures { result.now ≡ signature_in content.now }
{
    match content {
        SignatureContent::MessageSignature(message) => &message.signature,
        SignatureContent::DsseEnvelope(envelope) => &envelope.signature.sig,
    }
}

/// A content as it is judged: an envelope is encoded and digested once.
#[derive(Drop)]
pub(crate) enum Opened<'b> {
    Message(&'b MessageSignature),
    Envelope(HashedEnvelope<'b>),
}

/// A content, opened.
pub(crate) fn open_content<'b>(
    alloc: Global,
    content: &'b SignatureContent,
) -> Result<Opened<'b>, NoMemory>
    ensures { IfOk result (λ opened. content_as opened ≡ content.now) }
{
    match content {
        SignatureContent::MessageSignature(message) => Ok(Opened::Message(message)),
        SignatureContent::DsseEnvelope(envelope) => {
            Ok(Opened::Envelope(HashedEnvelope::new(alloc, envelope)?))
        }
    }
}

/// What an entry is compared with.
pub(crate) fn signed_in<'o>(opened: &'o Opened<'o>, had: &'o KnownArtifact<'o>) -> Signed<'o>
    ensures { signed_as result ≡ signed_in (content_as opened.now) (digest_had had.now) }
{
    match opened {
        Opened::Message(message) => Signed::Message {
            digest: match taken(had.digests, HashAlgorithm::Sha2256) {
                Some(digest) => Some(digest.as_bytes()),
                None => None,
            },
            signature: &message.signature,
        },
        Opened::Envelope(envelope) => Signed::Envelope(envelope),
    }
}

// The signature is good over what the scheme signs of an artifact.
fn is_artifact_signed<C: CryptoProvider>(
    provider: &C,
    key: &VerificationKey,
    digests: &[ArtifactDigest],
    bytes: Option<&[u8]>,
    signature: &SignatureBytes,
) -> bool
    ensures { result ≡ is_artifact_signed (C.accepts provider.now) key.now (digest_among digests.now) (option_copied bytes.entry) signature.now }
{
    match key.scheme.hash_algorithm() {
        Some(algorithm) => match taken(digests, algorithm) {
            Some(digest) => key
                .verify_prehashed(provider, digest.as_bytes(), signature)
                .is_ok(),
            None => false,
        },
        None => match bytes {
            Some(message) => key.verify(provider, message, signature).is_ok(),
            None => false,
        },
    }
}

// The signature of an envelope is good over its encoding.
fn is_encoding_signed<C: CryptoProvider>(
    provider: &C,
    key: &VerificationKey,
    envelope: &HashedEnvelope<'_>,
) -> bool
    ensures { result ≡ is_good (C.accepts provider.now) key.now (encoding_of envelope.now) envelope.now.signature.sig }
{
    key.verify(
        provider,
        envelope.encoding(),
        &envelope.envelope().signature.sig,
    )
    .is_ok()
}

/// The content over what is had of the artifact. Errors, of a message: `ArtifactMismatch` for a digest that is
/// another artifact's, which is told from a signature that is bad; `SignatureInvalid`. Of an envelope
/// `SignatureInvalid` comes first, since what it states counts for nothing before; then `ArtifactMismatch` where no
/// subject is the artifact.
pub(crate) fn judge_content<C: CryptoProvider>(
    provider: &C,
    key: &VerificationKey,
    opened: &Opened<'_>,
    claim: &Claim<'_>,
    had: &KnownArtifact<'_>,
) -> Result<(), Error>
    ensures { result ≡ content_judged_of (C.accepts provider.now) key.now (content_as opened.now) (claim_as claim.now) (digest_had had.now)
        (bytes_had had.now) }
{
    match opened {
        Opened::Message(message) => {
            if !is_bound(claim, had.digests) {
                return Err(Error::ArtifactMismatch);
            }
            if is_artifact_signed(provider, key, had.digests, had.bytes, &message.signature) {
                Ok(())
            } else {
                Err(Error::SignatureInvalid)
            }
        }
        Opened::Envelope(envelope) => {
            if !is_encoding_signed(provider, key, envelope) {
                return Err(Error::SignatureInvalid);
            }
            if is_bound(claim, had.digests) {
                Ok(())
            } else {
                Err(Error::ArtifactMismatch)
            }
        }
    }
}
