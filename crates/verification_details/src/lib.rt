//! What an accepted bundle tells beside its report, as lines: of what kind its statement is and of which subject, who tells
//! each verified time, how many logs vouch, and what the certificate claims.
#![tactic(auto)]

mod details;
mod laws;
mod lines;
mod statement;
mod subject;

pub use details::push_details;
pub use laws::{sources_are_told, subjects_are_judged};
