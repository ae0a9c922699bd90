//! Trusted metadata of The Update Framework: the client that brings the documents in force up to date and finds a
//! target, and the names of `sigstore_tuf_parts`, of the outside and of the rules.
#![tactic(auto)]

mod parts;
mod store_repository;
mod trusted;
mod updater;

pub use parts::{attach_parts, get_target_parts, refresh_parts};
pub use sigstore_tuf_causes::{store_carries_the_floor, stored_is_signed};
pub use sigstore_tuf_outside::{
    FetchFault, FileRepository, FileStore, MemoryRepository, MemoryStore, MetadataStore, NoStore,
    Repository, StoreFault,
};
pub use sigstore_tuf_parts::{
    DelegatedRole, Delegations, DocumentMember, Error, Key, KeyFault, KeyVal, MetaFile, Metadata,
    Mismatch, Role, RoleKeys, Root, Rule, SNAPSHOT_NAME, Signature, Snapshot, TARGETS_NAME,
    TIMESTAMP_NAME, TargetFile, Targets, Timestamp, TransportFault, canonical_text_tells,
    check_fresh, check_integrity, check_version, is_past, meets_exactly, others, pin_name,
    pins_have_causes, readings_have_causes, relations_exactly, roles_have_causes, root_name,
    to_canonical_bytes, versioned_name,
};
pub use sigstore_tuf_rules::{
    Held, InForce, RoleDoc, TrustChain, UpdaterConfig, Visit, floors_hold, search_laws,
};
pub use store_repository::StoreRepository;
pub use trusted::TrustedMetadataSet;
pub use updater::Updater;
