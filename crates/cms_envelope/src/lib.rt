//! The Cryptographic Message Syntax (RFC 5652): enveloped, encrypted, authenticated, digested and
//! compressed data, and time-stamped data (RFC 5544).
#![tactic(auto)]

pub mod authenticated_data;
pub mod compressed_data;
pub mod digested_data;
mod encrypted_content;
pub mod encrypted_data;
pub mod enveloped_data;
mod evidence_record;
mod key_agreement;
mod key_encryption;
mod key_transport;
pub mod timestamped_data;
mod tsd_version;
