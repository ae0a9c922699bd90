//! Keys and certificates as texts (RFC 7468): the strict form of PEM, read and written.
#![tactic(auto)]

mod armor;
mod block;
mod laws;
mod lines;
mod written;

pub use armor::PemArmor;
pub use laws::{held_is_armored, read_is_strict, written_is_read};
