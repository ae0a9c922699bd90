//! Envelopes of signed payloads (DSSE), what their signatures sign, and the statements that payloads are (in-toto).
#![tactic(auto)]

mod encoding;
mod envelope;
mod key_id;
mod laws;
mod spelled;
mod statement;
mod subjects;
mod written;

pub use envelope::{DsseEnvelope, DsseSignature};
pub use key_id::KeyId;
pub use laws::{encodings_are_distinct, envelopes_are_read_again};
pub use statement::{Statement, Subject};
