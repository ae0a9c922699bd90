//! The command `audit`: whether two signed checkpoints of a log are of one growing tree, by the log's tiles.
#![tactic(auto)]

mod layout;
mod program;

pub use layout::{AuditLayout, audit_layout};
pub use program::{Checkpoints, run_audit};
