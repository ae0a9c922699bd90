// The members of bundles, trust files and statements.
ghost use Rattle.sigstore_types_parts.specs.Error.{name_of, placed_at};

use crate::error::TypesError;
use crate::read::Member;

/// A member of a bundle, a trust file or a statement, as a refusal names it.
#[derive(Clone, Copy, Debug, PartialEq, Eq, Drop)]
pub enum TypesMember {
    MediaType,
    VerificationMaterial,
    Certificate,
    RawBytes,
    X509CertificateChain,
    Certificates,
    PublicKey,
    Hint,
    TlogEntries,
    TimestampVerificationData,
    Rfc3161Timestamps,
    SignedTimestamp,
    MessageSignature,
    MessageDigest,
    Algorithm,
    Digest,
    Signature,
    DsseEnvelope,
    Payload,
    PayloadType,
    Signatures,
    Sig,
    SignatureKeyid,
    LogIndex,
    LogId,
    KeyId,
    KindVersion,
    Kind,
    Version,
    IntegratedTime,
    InclusionPromise,
    SignedEntryTimestamp,
    InclusionProof,
    RootHash,
    TreeSize,
    Hashes,
    Checkpoint,
    Envelope,
    CanonicalizedBody,
    Tlogs,
    Ctlogs,
    ValidFor,
    Start,
    End,
    CertificateAuthorities,
    TimestampAuthorities,
    CertChain,
    StatementType,
    PredicateType,
    Subject,
    Predicate,
    Sha256,
    Sha512,
}

impl Member for TypesMember {
    ghost use Rattle.std.specs.Prelude.{refl};

    type Error = TypesError;

    ghost names = { name_of };

    ghost places = { placed_at };

    fn name(self) -> &'static str {
        match self {
            TypesMember::MediaType => "mediaType",
            TypesMember::VerificationMaterial => "verificationMaterial",
            TypesMember::Certificate => "certificate",
            TypesMember::RawBytes => "rawBytes",
            TypesMember::X509CertificateChain => "x509CertificateChain",
            TypesMember::Certificates => "certificates",
            TypesMember::PublicKey => "publicKey",
            TypesMember::Hint => "hint",
            TypesMember::TlogEntries => "tlogEntries",
            TypesMember::TimestampVerificationData => "timestampVerificationData",
            TypesMember::Rfc3161Timestamps => "rfc3161Timestamps",
            TypesMember::SignedTimestamp => "signedTimestamp",
            TypesMember::MessageSignature => "messageSignature",
            TypesMember::MessageDigest => "messageDigest",
            TypesMember::Algorithm => "algorithm",
            TypesMember::Digest => "digest",
            TypesMember::Signature => "signature",
            TypesMember::DsseEnvelope => "dsseEnvelope",
            TypesMember::Payload => "payload",
            TypesMember::PayloadType => "payloadType",
            TypesMember::Signatures => "signatures",
            TypesMember::Sig => "sig",
            TypesMember::SignatureKeyid => "keyid",
            TypesMember::LogIndex => "logIndex",
            TypesMember::LogId => "logId",
            TypesMember::KeyId => "keyId",
            TypesMember::KindVersion => "kindVersion",
            TypesMember::Kind => "kind",
            TypesMember::Version => "version",
            TypesMember::IntegratedTime => "integratedTime",
            TypesMember::InclusionPromise => "inclusionPromise",
            TypesMember::SignedEntryTimestamp => "signedEntryTimestamp",
            TypesMember::InclusionProof => "inclusionProof",
            TypesMember::RootHash => "rootHash",
            TypesMember::TreeSize => "treeSize",
            TypesMember::Hashes => "hashes",
            TypesMember::Checkpoint => "checkpoint",
            TypesMember::Envelope => "envelope",
            TypesMember::CanonicalizedBody => "canonicalizedBody",
            TypesMember::Tlogs => "tlogs",
            TypesMember::Ctlogs => "ctlogs",
            TypesMember::ValidFor => "validFor",
            TypesMember::Start => "start",
            TypesMember::End => "end",
            TypesMember::CertificateAuthorities => "certificateAuthorities",
            TypesMember::TimestampAuthorities => "timestampAuthorities",
            TypesMember::CertChain => "certChain",
            TypesMember::StatementType => "_type",
            TypesMember::PredicateType => "predicateType",
            TypesMember::Subject => "subject",
            TypesMember::Predicate => "predicate",
            TypesMember::Sha256 => "sha256",
            TypesMember::Sha512 => "sha512",
        }
    }

    fn place(self, error: TypesError) -> TypesError {
        match error {
            TypesError::Json => TypesError::Field { member: self },
            other => other,
        }
    }

    ghost keeps = { λ m. refl };
}
