//! The bundle and the trust file of Sigstore, read from JSON, the bundle written, and the names of `sigstore_types_parts`,
//! `sigstore_entries` and `sigstore_envelopes`.
#![tactic(auto)]

mod authority;
mod bundle;
mod content;
mod held;
mod laws;
mod material;
mod trusted_root;
mod valid_for;
mod written;

pub use authority::{Authority, TsaAuthority};
pub use bundle::{Bundle, validate_structure};
pub use content::{MessageDigest, MessageSignature, SignatureContent};
pub use laws::bundles_are_read_again;
pub use material::{VerificationMaterial, VerificationMaterialContent};
pub use sigstore_entries::{
    Checkpoint, CheckpointData, CheckpointSignature, InclusionProof, KindVersion, LogId, LogIndex,
    ToValue, TransparencyLogEntry, checkpoints_are_parted, entries_are_read_again,
    envelopes_are_kept, list, promise_payload,
};
pub use sigstore_envelopes::{
    DsseEnvelope, DsseSignature, KeyId, Statement, Subject, encodings_are_distinct,
    envelopes_are_read_again,
};
pub use sigstore_types_parts::{
    Armor, Artifact, ArtifactDigest, ByteString, Bytes, Calls, CanonicalBody, CanonicalizedBody,
    Certificate, CheckpointRule, DerCertificate, DerPublicKey, Digest, DigestBytes, EntryPromise,
    FailList, FromValue, Hash, HashAlgorithm, Json, JsonFault, KeyHint, LogKey, LogKeyId, Member,
    Misread, Payload, PayloadBytes, Pem, PemContent, PublicKey, Refusal, Sha256Hash, Sha384Hash,
    Sha512Hash, Signature, SignatureBytes, SignedTimestamp, Text, TextMap, TimeRange,
    TimestampToken, Token, TypesError, TypesMember, at_millisecond, at_second, contains_float,
    defaulted, instant, optional, parse_json, required,
};
pub use trusted_root::{TrustedLog, TrustedRoot};
