//! TUF documents: their readers, keys, thresholds and pins, and the names of `sigstore_tuf_text`.
#![tactic(auto)]

mod accepted;
mod counted;
mod declared_key;
mod delegation;
mod document;
mod head;
mod header;
mod integrity;
mod keys;
mod laws;
mod role;
mod root;
mod root_role;
mod signed_text;
mod snapshot;
mod targets;
mod text_set;
mod threshold;
mod timestamp;
mod verification;

pub use document::{Metadata, Signature};
pub use integrity::{check_fresh, check_integrity, check_version, is_past};
pub use keys::{Key, KeyVal, RoleKeys};
pub use laws::{
    canonical_text_tells, meets_exactly, pins_have_causes, readings_have_causes, relations_exactly,
    roles_have_causes,
};
pub use role::Role;
pub use root::Root;
pub use sigstore_tuf_text::{
    DocumentMember, Error, Mismatch, Rule, SNAPSHOT_NAME, TARGETS_NAME, TIMESTAMP_NAME,
    TransportFault, others, pin_name, root_name, to_canonical_bytes, versioned_name,
};
pub use snapshot::Snapshot;
pub use targets::{DelegatedRole, Delegations, TargetFile, Targets};
pub use timestamp::{MetaFile, Timestamp};
pub use verification::KeyFault;
