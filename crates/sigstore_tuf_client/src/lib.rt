//! The client: it brings the documents in force up to date over a repository and a store, and finds a target.
#![tactic(auto)]

mod adopt;
mod client;
mod search;
mod target;

pub use client::{attach, run_steps};
pub use target::{Wanted, download, find_chain, find_info, recall_target};
