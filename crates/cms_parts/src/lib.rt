//! The Cryptographic Message Syntax (RFC 5652): signed data, its signers and attributes.
#![tactic(auto)]

pub mod attr;
pub mod cert;
mod certificates_only;
pub mod content_info;
pub mod identifiers;
pub mod revocation;
pub mod signed_data;
mod values;
mod whole;

pub use certificates_only::content_of;
pub use values::{as_any, set_of_one};
pub use whole::whole_value;
