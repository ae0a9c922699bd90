//! The command `generate`: a workload of any size from one number, its items verified from its root, and how many of
//! them are accepted and how many refused for what.
#![tactic(auto)]

mod generated;
mod generating;
mod judged;
mod rows;
mod steady;
mod summary;
mod supplies;

pub use generated::{Asked, is_generate, run_generate};
pub use generating::{Workload, generate};
pub use summary::summarise;
pub use supplies::{Item, Supplies, supply};
