//! Whether an entry stands in a transparency log that is trusted: its place in the log's tree, the checkpoint
//! that the log signed, and what the log promised.
#![tactic(auto)]

mod checkpoint;
mod entry;
mod error;
mod inclusion;
mod laws;
mod promise;

pub use checkpoint::{CheckpointVerifyExt, checkpoint_signer};
pub use entry::{EntryEvidence, judge_entry};
pub use error::LogError;
pub use laws::{logged_exactly, one_place_one_body, refusals_have_causes, signer_exactly};
pub use promise::{judge_promise, tells_time, told_time};
