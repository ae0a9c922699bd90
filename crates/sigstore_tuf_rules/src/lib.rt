//! The rules of the documents in force, without a repository or a store: which document may follow, who signs
//! for it, what serves, and which roles a search visits in which order.
#![tactic(auto)]

mod chain;
mod config;
mod delegated;
mod documents;
mod kind;
mod laws;
mod names;
mod serving;
mod taking;
mod update;
mod visit;

pub use chain::{RoleDoc, TrustChain};
pub use config::UpdaterConfig;
pub use delegated::{is_top_level, serving_role, update_role, update_role_copied};
pub use documents::{Held, InForce};
pub use kind::Kind;
pub use laws::{floors_hold, search_laws};
pub use names::{
    ROOT_FILE, history_name, is_consistent, kept_target, max_length, pinned_name, role_file,
    role_name_in, role_pin_in, snapshot_pin_in, target_name, targets_pin_in,
};
pub use serving::{
    check_fresh_snapshot, check_fresh_timestamp, check_root_serves, check_search,
    check_snapshot_serves, check_timestamp_serves, is_current,
};
pub use taking::{bytes_in, take, taken, update_copied};
pub use update::{first_root, update_root, update_snapshot, update_targets, update_timestamp};
pub use visit::{Next, Visit, Walk, contains, matching, pop_unread, push_next};
