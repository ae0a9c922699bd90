//! The verification of a bundle from a pinned TUF root over bytes, for other programs: it opens, reads and writes nothing.
//! All that is judged is handed in, and what is missing comes out as questions, which the caller answers in its next call.
#![tactic(auto)]

mod asked;
mod asking;
mod doubting;
mod judge;
mod keeping;
mod lines;
mod noting;
mod request;
mod said;

pub use crate::request::Request;
pub use crate::said::{Said, answer};
