//! The Cryptographic Message Syntax (RFC 5652): the builders of signed data, and the names of
//! `cms_parts`.
#![tactic(auto)]

pub mod attr;
mod attributes;
pub mod builder;
pub mod cert;
pub mod content_info;
mod digest;
mod error;
mod finalize;
mod laws;
pub mod revocation;
pub mod signed_data;
mod signed_data_builder;
mod signer;
mod signer_info_builder;

pub use laws::{built_is_read, signature_is_of_the_set};
