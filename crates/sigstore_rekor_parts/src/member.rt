// The members of log bodies and of a log's answers.
ghost use Rattle.sigstore_rekor_parts.specs.Error.{name_of, placed_at};

use crate::error::{Error, ResponseRule};
use sigstore_types_parts::Member;

/// A member of a log body or of a log's answer, as a refusal names it.
#[derive(Clone, Copy, Debug, PartialEq, Eq, Drop)]
pub enum RekorMember {
    Spec,
    Data,
    Hash,
    Algorithm,
    Value,
    Signature,
    Content,
    PublicKey,
    HashedRekordV002,
    Digest,
    Verifier,
    KeyDetails,
    X509Certificate,
    RawBytes,
    EnvelopeHash,
    PayloadHash,
    Signatures,
    DsseV002,
    Envelope,
    PayloadType,
    SignatureKeyid,
    Sig,
    Body,
    IntegratedTime,
    LogId,
    LogIndex,
    Verification,
    InclusionProof,
    Checkpoint,
    Hashes,
    RootHash,
    TreeSize,
    SignedEntryTimestamp,
}

impl Member for RekorMember {
    ghost use Rattle.std.specs.Prelude.{refl};

    type Error = Error;

    ghost names = { name_of };

    ghost places = { placed_at };

    fn name(self) -> &'static str {
        match self {
            RekorMember::Spec => "spec",
            RekorMember::Data => "data",
            RekorMember::Hash => "hash",
            RekorMember::Algorithm => "algorithm",
            RekorMember::Value => "value",
            RekorMember::Signature => "signature",
            RekorMember::Content => "content",
            RekorMember::PublicKey => "publicKey",
            RekorMember::HashedRekordV002 => "hashedRekordV002",
            RekorMember::Digest => "digest",
            RekorMember::Verifier => "verifier",
            RekorMember::KeyDetails => "keyDetails",
            RekorMember::X509Certificate => "x509Certificate",
            RekorMember::RawBytes => "rawBytes",
            RekorMember::EnvelopeHash => "envelopeHash",
            RekorMember::PayloadHash => "payloadHash",
            RekorMember::Signatures => "signatures",
            RekorMember::DsseV002 => "dsseV002",
            RekorMember::Envelope => "envelope",
            RekorMember::PayloadType => "payloadType",
            RekorMember::SignatureKeyid => "keyid",
            RekorMember::Sig => "sig",
            RekorMember::Body => "body",
            RekorMember::IntegratedTime => "integratedTime",
            RekorMember::LogId => "logID",
            RekorMember::LogIndex => "logIndex",
            RekorMember::Verification => "verification",
            RekorMember::InclusionProof => "inclusionProof",
            RekorMember::Checkpoint => "checkpoint",
            RekorMember::Hashes => "hashes",
            RekorMember::RootHash => "rootHash",
            RekorMember::TreeSize => "treeSize",
            RekorMember::SignedEntryTimestamp => "signedEntryTimestamp",
        }
    }

    fn place(self, error: Error) -> Error {
        match error {
            Error::InvalidResponse {
                rule: ResponseRule::Shape,
            } => Error::InvalidResponse {
                rule: ResponseRule::Member { member: self },
            },
            other => other,
        }
    }

    ghost keeps = { λ m. refl };
}
