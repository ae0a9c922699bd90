//! Texts, byte strings, hashes, maps and instants, readers of JSON values, and the words that the crates
//! above share: what an armoured text holds, which calls fail.
#![tactic(auto)]

mod armor;
mod byte_string;
mod bytes;
mod calls;
mod error;
mod file;
mod float;
mod hash;
mod hash_algorithm;
mod json_equal;
mod json_value;
mod leaves;
mod member;
mod misread;
mod moment;
mod parse;
mod read;
mod text;
mod text_map;
mod time_range;

pub use armor::Armor;
pub use byte_string::{
    ByteString, CanonicalBody, CanonicalizedBody, Certificate, DerCertificate, DerPublicKey,
    Digest, DigestBytes, EntryPromise, LogKey, LogKeyId, Payload, PayloadBytes, Pem, PemContent,
    PublicKey, Signature, SignatureBytes, SignedTimestamp, TimestampToken, Token,
};
pub use bytes::Bytes;
pub use calls::{Calls, FailList};
pub use error::{CheckpointRule, TypesError};
pub use file::{FileFault, PieceFault, read_file, read_piece};
pub use float::contains_float;
pub use hash::{Hash, KeyHint, Sha256Hash, Sha384Hash, Sha512Hash};
pub use hash_algorithm::{Artifact, ArtifactDigest, HashAlgorithm};
pub use json_value::Json;
pub use leaves::instant;
pub use member::TypesMember;
pub use misread::{Misread, Refusal};
pub use moment::{at_millisecond, at_second};
pub use parse::{JsonFault, parse_json};
pub use read::{FromValue, Member, defaulted, optional, required};
pub use text::Text;
pub use text_map::TextMap;
pub use time_range::TimeRange;
