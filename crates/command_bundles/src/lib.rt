//! The command `verify` over a list of bundles, a JSON text on each line: the first bundle that a rule accepts is told,
//! with its line, and what else is asked for; where no rule accepts one, each is told with its refusal.
#![tactic(auto)]

mod concluding;
mod judging;
mod laws;
mod layout;
mod lines;
mod listed;
mod program;

pub use judging::{BundleRefusal, Found, ListCame, ListRequest, verify_list};
pub use laws::{first_bundle_exactly, verdicts_over_bytes};
pub use layout::bundles_layout;
pub use lines::{ListFault, ListedBundle, MAX_BUNDLES, listed_bundles};
pub use listed::{Listed, MAX_LIST};
pub use program::run_bundles;
