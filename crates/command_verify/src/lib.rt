//! The command `verify`: what a run of it reads, what it says and the status it ends with, over its words, its clock and
//! the objects of the outside.
#![tactic(auto)]

mod program;
mod refusals;
mod report;
mod request;

pub use program::{answered, run};
pub use refusals::{refused_each, refused_tuf, refused_verify};
pub use report::{push_digests, push_result, report_chain};
pub use request::{MAX_ARTIFACT, VerifyRequest, verify_request};
