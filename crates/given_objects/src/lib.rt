//! What is handed in as bytes: the inputs, a repository, a store and an artifact, and a buffer for a text. Nothing here
//! opens, reads or writes anything.
#![tactic(auto)]

mod artifact;
mod buffer;
mod file;
mod inputs;
mod repository;
mod store;

pub use artifact::GivenSource;
pub use buffer::fill;
pub use file::{File, Name, find, is_among};
pub use inputs::GivenInputs;
pub use repository::{GivenRepository, Wanted};
pub use store::GivenStore;
