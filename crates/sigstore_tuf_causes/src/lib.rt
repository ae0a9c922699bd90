//! What follows from the runs of a client: that the documents in force stay authorised, serve and are the newest,
//! what the store keeps and carries on, and the cause of each refusal.
#![tactic(auto)]

mod laws;

pub use laws::{store_carries_the_floor, stored_is_signed};
