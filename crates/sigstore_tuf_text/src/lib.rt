//! What TUF documents are written in: the canonical text that is signed, path patterns, names of files and members, and refusals.
#![tactic(auto)]

mod canonical;
mod class;
mod error;
mod extra;
mod member;
mod names;
mod pattern;
mod piece;
mod row;

pub use canonical::{to_canonical_bytes, write_member};
pub use error::{Error, Mismatch, Rule, TransportFault};
pub use extra::others;
pub use member::DocumentMember;
pub use names::{SNAPSHOT_NAME, TARGETS_NAME, TIMESTAMP_NAME, pin_name, root_name, versioned_name};
pub use pattern::matches;
