//! Entries of transparency logs, their inclusion proofs and checkpoints, read from their texts.
#![tactic(auto)]

mod checkpoint;
mod checkpoint_data;
mod entry;
mod inclusion_proof;
mod kind_version;
mod laws;
mod lines;
mod log_id;
mod log_index;
mod members;
mod number;
mod promise;
mod signature_line;
mod time;
mod writing;
mod written;

pub use checkpoint::{Checkpoint, shortest_decimal};
pub use checkpoint_data::CheckpointData;
pub use entry::TransparencyLogEntry;
pub use inclusion_proof::InclusionProof;
pub use kind_version::KindVersion;
pub use laws::{checkpoints_are_parted, entries_are_read_again, envelopes_are_kept};
pub use log_id::LogId;
pub use log_index::LogIndex;
pub use members::{json, list};
pub use promise::promise_payload;
pub use signature_line::CheckpointSignature;
pub use writing::{ToValue, held, put, put_list, put_some, put_text, put_value};
