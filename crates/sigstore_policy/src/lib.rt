//! What a bundle is verified under: a policy for a signer with a certificate, or for one with a key.
#![tactic(auto)]

mod certificate;
mod conditions;
mod laws;
mod matcher;
mod pattern;
mod policy;
mod public_key;
mod row;

pub use certificate::{CertificatePolicy, IdentityMatcher, VerificationPolicy};
pub use conditions::{SignatureConditions, is_enough_if};
pub use laws::fits_exactly;
pub use matcher::{ClaimMatcher, TextMatcher};
pub use policy::{Policy, PolicyKind, SigningPolicy};
pub use public_key::PublicKeyVerificationPolicy;
