//! Logs of Rekor: entries as a log's answers tell them, what is sent to a log and asked of it, and the readers of its
//! answers.
#![tactic(auto)]

mod answers;
mod api_version;
mod bundle_entry;
mod dsse_entry;
mod entry_uuid;
mod hashed_rekord;
mod hashed_rekord_v2;
mod hex_hash;
mod laws;
mod log_entry;
mod number;
mod paths;
mod queries;
mod refused;
mod request;
mod requests;
mod tile;
mod validate;
mod written;

pub use answers::{
    read_checkpoint, read_entry, read_entry_bundle, read_search, read_tile, read_v2_entry,
};
pub use api_version::RekorApiVersion;
pub use dsse_entry::DsseEntry;
pub use entry_uuid::EntryUuid;
pub use hashed_rekord::HashedRekord;
pub use hashed_rekord_v2::{HashedRekordV2, VerifierV2};
pub use laws::{bodies_are_read, paths_are_distinct};
pub use log_entry::{LogEntry, RekorInclusionProof, Verification};
pub use paths::tile_path;
pub use queries::SearchIndex;
pub use request::{Method, Request};
pub use requests::{
    create_dsse_entry, create_entry, create_entry_v2, get_checkpoint, get_entry_bundle,
    get_entry_by_index, get_entry_by_uuid, get_tile, search_by_hash, search_index,
};
pub use sigstore_rekor_parts::{
    DsseV001Body, DsseV001Signature, DsseV001Spec, DsseV002Body, DsseV002Data, DsseV002Signature,
    DsseV002Spec, DsseV002Verifier, EnvelopeHash, Error, HashValue, HashedRekordV001Body,
    HashedRekordV001Data, HashedRekordV001Signature, HashedRekordV001Spec, HashedRekordV002Body,
    HashedRekordV002Data, HashedRekordV002DataInner, HashedRekordV002Signature,
    HashedRekordV002Spec, HashedRekordV002Verifier, HexHash, HexLogId, HexText, IntotoEnvelope,
    IntotoSignature, IntotoV002Body, IntotoV002Content, IntotoV002Spec, OfHash, OfLog, PayloadHash,
    PayloadHashV001, PublicKeyContent, PublicKeyRaw, RekorEntryBody, RekorMember,
    RekorV2KeyDetails, ResponseRule, X509CertificateRaw,
};
pub use tile::{RekorV2EntryBundle, RekorV2Tile};
pub use validate::validate_v2_entry;
