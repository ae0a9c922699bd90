//! What a client's calls find and leave, as definitions: states, adoptions, steps, searches, the file of a
//! target, and why a call refuses.
#![tactic(auto)]

mod session;
mod step;

pub use session::Session;
pub use step::Step;
