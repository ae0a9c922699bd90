//! The command `verify` where it is asked for more than the report: lines on the bundle behind it, and the payload that was
//! signed, which is put in a file once a rule accepts the bundle, and never before.
#![tactic(auto)]

mod concluding;
mod layout;
mod payload;
mod program;

pub use concluding::{Inquiry, conclude};
pub use layout::{Outputs, OutputsLayout, outputs_layout};
pub use program::run_outputs;
