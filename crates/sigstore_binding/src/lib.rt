//! Whether an entry of a log is of a signature: what the entry logged is compared with who signed, what they
//! signed and the signature itself. It knows no bundle.
#![tactic(auto)]

mod check;
mod describe;
mod dsse;
mod envelope;
mod error;
mod hashed_rekord;
mod intoto;
mod laws;
mod signed;
mod verifier;
mod window;

pub use describe::describe_entry;
pub use envelope::HashedEnvelope;
pub use error::BindingError;
pub use laws::{describes_exactly, refusals_have_causes};
pub use signed::{Signed, SignedBy};
