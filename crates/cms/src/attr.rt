//! Attributes of signers.

pub use cms_parts::attr::{Countersignature, MessageDigest, SigningTime};
