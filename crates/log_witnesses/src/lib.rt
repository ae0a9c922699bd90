//! Witnesses of a log's checkpoints (C2SP tlog-cosignature): who they are, and how many of them cosigned a checkpoint.
#![tactic(auto)]

mod cosigned;
mod error;
mod laws;
mod witness;

pub use cosigned::{check_cosigned, cosigned_by};
pub use error::WitnessError;
pub use laws::cosigned_exactly;
pub use witness::Witness;
